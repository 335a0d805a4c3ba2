// Labels as they are read under a view.
ghost use Rattle.std.specs.Prelude.{◌≡◌, ◌<◌, ◌≤◌, true, false, [], IfSome, MatchOption, length, take};
ghost use Rattle.wf_recur.specs.Cycles.{on_of, StandsAt};
ghost use Rattle.wf_label.specs.Marks.{IsBegunBy};
ghost use Rattle.wf_label.specs.Values.{AreLabelBits};
ghost use Rattle.wf_decode.specs.Marking.{HasReadAt, PassesChain, TellsPlace, IsChainHeld, IsCutWithin};
ghost use Rattle.wf_decode.specs.Reading.{TellsLabel, most_legs};

use crate::leg::Leg;
use wf_label::{Codes, Front, LabelRef, Part, read_chain, read_front, read_part, turns};
use wf_recur::OnCycle;
use wf_spec::{EdgeNo, ModNo, PortNo, ProdNo};
use wf_vlabel::ViewLabel;

/// What a label tells under a view.
pub(crate) enum Told {
    /// It names a production at an instance whose module the view does not expand.
    Hidden,
    /// A port of the root.
    Input {
        port: PortNo,
    },
    Output {
        port: PortNo,
    },
    /// An edge of a production. Of the address of its maker so many legs are held.
    Edge {
        legs: usize,
        production: ProdNo,
        edge: EdgeNo,
    },
}

/// The leg of so many continuing steps from a module on a cycle, and the module to which they lead; `None` where the view does not expand each module that they pass, the first and the last among them.
///
/// Cost: a few look-ups in tables, however many steps there are.
#[inline(always)]
fn chain_leg(vl: &ViewLabel<'_>, at: ModNo, on: OnCycle, count: u32) -> Option<(Leg, ModNo)>
    requires module_no { at.0 < length vl.now.grammar.modules }
    requires stands { StandsAt vl.now.grammar vl.now.cycles at.0 (on_of on) }
    ensures leg { MatchOption result (IsCutWithin vl.now at.0 count) (λ r. IsChainHeld vl.now at.0 count r.0 r.1.0) }
    ensures in_range { IfSome result (λ r. r.1.0 < length vl.now.grammar.modules) }
{
    let cycles = vl.cycles();
    if let Some(n) = vl.cut(on.cycle, on.place) {
        if n <= count {
            return None;
        }
    }
    let length = cycles.length(on.cycle) as u64;
    let turned = turns(on.place as u64 + count as u64, length);
    let to = turned.1;
    prove!(to < 65536);
    let leg = Leg::Chain {
        cycle: on.cycle,
        place: on.place,
        count,
    };
    Some((leg, cycles.at(on.cycle, to as u16)))
}

/// How far an address was read: so many of its legs are held, and they lead to an instance of this module.
#[derive(Clone, Copy)]
pub(crate) struct Reached {
    pub(crate) held: usize,
    pub(crate) module: ModNo,
}

/// Reads the chain number of a place at a module that stands so on a cycle, and holds its leg; `None` where the label is hidden by it.
///
/// It takes no memory. A chain is told to be hidden by its cut, however many steps it stands for.
#[inline(always)]
fn hold_chain<R: Codes>(
    vl: &ViewLabel<'_>,
    bits: &mut R,
    from: Reached,
    on: OnCycle,
    legs: &mut [Leg],
) -> Option<Reached>
    requires room { most_legs vl.now.grammar ≤ length legs.old }
    requires stands { StandsAt vl.now.grammar vl.now.cycles from.module.0 (on_of on) }
    requires place { HasReadAt vl.now (take from.held legs.old) from.module.0 false (R.reading bits.old).left }
    ensures place { PassesChain vl.now legs.old from (R.reading bits.old).left legs.new result (R.reading bits.new).left }
    ensures room { length legs.new ≡ length legs.old }
    ensures fewer { length (R.reading bits.new).left ≤ length (R.reading bits.old).left }
{
    let count = read_chain(vl.grammar(), bits, from.module);
    match chain_leg(vl, from.module, on, count) {
        None => None,
        Some((leg, to)) => {
            legs[from.held] = leg;
            Some(Reached {
                held: from.held + 1,
                module: to,
            })
        }
    }
}

/// Reads the chain number of a place and holds its leg, if the module is on a cycle; `None` where the label is hidden by it.
#[inline(always)]
fn pass_chain<R: Codes>(
    vl: &ViewLabel<'_>,
    bits: &mut R,
    from: Reached,
    legs: &mut [Leg],
) -> Option<Reached>
    requires room { most_legs vl.now.grammar ≤ length legs.old }
    requires place { HasReadAt vl.now (take from.held legs.old) from.module.0 false (R.reading bits.old).left }
    ensures place { PassesChain vl.now legs.old from (R.reading bits.old).left legs.new result (R.reading bits.new).left }
    ensures room { length legs.new ≡ length legs.old }
    ensures fewer { length (R.reading bits.new).left ≤ length (R.reading bits.old).left }
{
    let cycles = vl.cycles();
    match cycles.on(from.module) {
        None => Some(from),
        Some(on) => hold_chain(vl, bits, from, on, legs),
    }
}

/// Reads the place of an edge part by part, up to the first part that names a production at an instance whose module the view does not expand, and holds the legs of its address.
///
/// It takes no memory. Cost: linear in the bits of the place.
#[inline(always)]
fn read_place<R: Codes>(vl: &ViewLabel<'_>, bits: &mut R, legs: &mut [Leg]) -> Told
    requires room { most_legs vl.now.grammar ≤ length legs.old }
    requires place { HasReadAt vl.now [] vl.now.grammar.start false (R.reading bits.old).left }
    ensures told { TellsPlace vl.now (R.reading bits.old).left result legs.new }
    ensures room { length legs.new ≡ length legs.old }
{
    let g = vl.grammar();
    let mut to = Reached {
        held: 0,
        module: g.start(),
    };
    loop {
        let Some(here) = pass_chain(vl, bits, to, legs) else {
            return Told::Hidden;
        };
        if !vl.expanded(here.module) {
            return Told::Hidden;
        }
        match read_part(g, bits, here.module) {
            Part::Into { step, to: module } => {
                legs[here.held] = Leg::Into { step };
                to = Reached {
                    held: here.held + 1,
                    module,
                };
            }
            Part::End { production, edge } => {
                return Told::Edge {
                    legs: here.held,
                    production,
                    edge,
                };
            }
        }
    }
}

/// Reads a label from the front, with a reader of its bits.
#[inline(always)]
fn read_bits<R: Codes + Drop>(
    vl: &ViewLabel<'_>,
    label: &LabelRef<'_>,
    reader: R,
    legs: &mut [Leg],
) -> Told
    requires label { AreLabelBits vl.now.grammar label.now }
    requires begun { IsBegunBy label.now (R.reading reader).left }
    requires room { most_legs vl.now.grammar ≤ length legs.old }
    ensures told { TellsLabel vl.now label.now result legs.new }
    ensures room { length legs.new ≡ length legs.old }
{
    let mut bits = reader;
    match read_front(vl.grammar(), &mut bits) {
        Front::Input(port) => Told::Input { port },
        Front::Output(port) => Told::Output { port },
        Front::OfEdge => read_place(vl, &mut bits, legs),
    }
}

/// Reads a label part by part, up to the first that names a production at an instance whose module the view does not expand, and holds the legs of its address.
///
/// It takes no memory. A chain is told to be hidden by its cut, however many steps it stands for. Cost: linear in the bits of the label.
pub(crate) fn read_label(vl: &ViewLabel<'_>, label: &LabelRef<'_>, legs: &mut [Leg]) -> Told
    requires label { AreLabelBits vl.now.grammar label.now }
    requires room { most_legs vl.now.grammar ≤ length legs.old }
    ensures told { TellsLabel vl.now label.now result legs.new }
    ensures room { length legs.new ≡ length legs.old }
{
    match label.short_reader() {
        Some(reader) => read_bits(vl, label, reader, legs),
        None => read_bits(vl, label, label.reader(), legs),
    }
}
