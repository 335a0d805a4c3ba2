// The graph whose vertices are the items of a run by number: each leads to those to which it leads through an instance.
ghost use Rattle.std.specs.Prelude.{◌≡◌, ◌<◌, ◌+◌, ◌^◌, ◌∷◌, [], ℕ, None, length, get_or, IfOk, MatchOption};
ghost use Rattle.wf_model.specs.Lists.{IsIn};
ghost use Rattle.wf_flat.specs.declared.graph.Port.{Port as PortHeld};
ghost use Rattle.wf_flat.specs.declared.item.Item.{Item as ItemHeld};
ghost use Rattle.wf_chain.specs.ViewedRuns.{IsItemIn};
ghost use Rattle.wf_chain.specs.ItemGraphs.{AreEach, IsConsumerOf, IsProducerOf, AreMadeFrom, led_on, led_from, led_behind, IsGraphInRange};

use crate::viewed_run::ViewedRun;
use std::alloc::{AllocError, Global};
use wf_flat::{Item, Port};
use wf_graph::Graph;

/// For each item of a list the input at which it is consumed in the end. Fails only for want of memory.
pub fn consumers_of(
    alloc: Global,
    run: &ViewedRun<'_>,
    items: &[Item],
) -> Result<Vec<Option<Port>>, AllocError>
    requires { (i : ItemHeld) → IsIn i items.now → IsItemIn run.now i }
    ensures { IfOk result (λ ports. AreEach (IsConsumerOf run.now) items.now (length items.now) ports.items) }
{
    let mut ports = Vec::with_capacity(alloc, items.len())?;
    for item in items {
        ports.push(run.consumer(item))?;
    }
    Ok(ports)
}

/// For each item of a list the output at which it is produced in the first place. Fails only for want of memory.
pub fn producers_of(
    alloc: Global,
    run: &ViewedRun<'_>,
    items: &[Item],
) -> Result<Vec<Option<Port>>, AllocError>
    requires { (i : ItemHeld) → IsIn i items.now → IsItemIn run.now i }
    ensures { IfOk result (λ ports. AreEach (IsProducerOf run.now) items.now (length items.now) ports.items) }
{
    let mut ports = Vec::with_capacity(alloc, items.len())?;
    for item in items {
        ports.push(run.producer(item))?;
    }
    Ok(ports)
}

/// The items that are produced at each instance, in order: for each instance the first of them, and for each item the next. Past the last item there is none.
#[derive(Drop)]
pub struct MadeItems {
    pub first: Vec<u32>,
    pub next: Vec<u32>,
}

/// Puts an item before those that are produced behind it at the same instance, if it is produced at one.
fn put_before(produced: &[Option<Port>], first: &mut Vec<u32>, next: &mut Vec<u32>, k: u32)
    requires there { k < length produced.now }
    requires output { (q : PortHeld) → get_or produced.now k None ≡ Some q → q.instance < length first.old.items }
    requires made { AreMadeFrom produced.now (k + 1) first.old.items next.old.items }
    ensures count { length first.new.items ≡ length first.old.items }
    ensures made { AreMadeFrom produced.now k first.new.items next.new.items }
{
    let Some(port) = produced[k as usize] else {
        return;
    };
    next[k as usize] = first[port.instance as usize];
    first[port.instance as usize] = k;
}

/// For each of so many instances the items that are produced at it, in order. Fails only for want of memory.
pub fn made_at(
    alloc: Global,
    instances: usize,
    produced: &[Option<Port>],
) -> Result<MadeItems, AllocError>
    requires few { length produced.now < 2 ^ 32 }
    requires there { (k : ℕ) (q : PortHeld) → get_or produced.now k None ≡ Some q → q.instance < instances }
    ensures count { IfOk result (λ made. length made.first.items ≡ instances) }
    ensures made { IfOk result (λ made. AreMadeFrom produced.now 0 made.first.items made.next.items) }
{
    let count = produced.len();
    let mut first = vec![in alloc; count as u32; instances]?;
    let mut next = vec![in alloc; count as u32; count]?;
    let mut left = count;
    while left > 0 {
        left -= 1;
        put_before(produced, &mut first, &mut next, left as u32);
    }
    Ok(MadeItems { first, next })
}

/// For each item the input at which it is consumed in the end and the output at which it is produced in the first place, if the view shows it; and the items that are produced at each instance.
#[derive(Clone, Copy)]
pub struct ItemGraph<'a, 'r> {
    pub run: &'a ViewedRun<'r>,
    pub consumed: &'a [Option<Port>],
    pub produced: &'a [Option<Port>],
    pub first: &'a [u32],
    pub next: &'a [u32],
    pub ghost within: { ∥ IsGraphInRange (length run.now.run.instances) consumed.now produced.now first.now next.now ∥₁ },
}

impl ItemGraph<'_, '_> {
    /// The output at which the item of a number is produced, if there is one.
    fn output_of(&self, k: usize) -> Option<Port>
        ensures { result ≡ get_or self.now.produced.now k None }
    {
        if k >= self.produced.len() {
            return None;
        }
        self.produced[k]
    }

    /// The first item from a mark on to which an input leads, of those that are produced where the item of the mark is, with the mark behind it.
    fn next_led(&self, input: Port, mark: usize) -> Option<(u32, usize)>
        requires { input.instance < length self.now.run.now.run.instances }
        ensures { MatchOption result (led_on self.now.run.now self.now.produced.now input mark ≡ [])
            (λ n. led_on self.now.run.now self.now.produced.now input mark ≡ n.0 ∷ led_on self.now.run.now self.now.produced.now input n.1) }
    {
        let mut at = mark;
        while let Some(output) = self.output_of(at) {
            let behind = self.next[at] as usize;
            if self.run.has_pair(input.instance, input.port, output.port) {
                return Some((at as u32, behind));
            }
            at = behind;
        }
        None
    }
}

impl Graph for ItemGraph<'_, '_> {
    ghost size = { λ g. length g.consumed.now };

    ghost leads = { λ g k. led_from g.run.now g.consumed.now g.produced.now k };

    ghost rest = { λ g k mark. led_behind g.run.now g.produced.now (get_or g.consumed.now k None) mark };

    fn size(&self) -> usize {
        self.consumed.len()
    }

    fn begin(&self, v: u32) -> usize {
        let Some(input) = self.consumed[v as usize] else {
            return 0;
        };
        self.first[input.instance as usize] as usize
    }

    fn next(&self, v: u32, mark: usize) -> Option<(u32, usize)> {
        let Some(input) = self.consumed[v as usize] else {
            return None;
        };
        self.next_led(input, mark)
    }
}
