// The nodes of children.
ghost use Rattle.std.specs.Prelude.{◌≡◌, ◌<◌, ◌≤◌, ◌+◌, ◌^◌, ◌++◌, None, length, option_map, get_or, IfOk, IfSome};
ghost use Rattle.wf_model.specs.Grammar.{body_of};
ghost use Rattle.bit_pack.specs.Written.{first_bits, IsWhole};
ghost use Rattle.label_model.specs.Continuing.{is_step};
ghost use Rattle.label_model.specs.Labels.{step_bits};
ghost use Rattle.label_model.specs.Places.{chain_by};
ghost use Rattle.wf_recur.specs.Cycles.{step_of};
ghost use Rattle.wf_label.specs.Values.{place_step_of};
ghost use Rattle.wf_run.specs.Nodes.{node_of};
ghost use Rattle.wf_run.specs.Opening.{child_prefix, child_node};
ghost use Rattle.wf_run.specs.Growing.{prefix_of, CanGoOn};

use crate::chain::Chain;
use crate::node::Node;
use crate::prefix::PrefixRef;
use bumpalo::Bump;
use std::alloc::{AllocError, Global};
use wf_label::{PlaceStep, with_step};
use wf_recur::{Cycles, Linear, target};
use wf_spec::{ModNo, Step};

/// Whether a step is the continuing step of a module.
fn is_continuing(cycles: &Cycles, m: ModNo, step: Step) -> bool
    requires { m.0 < length cycles.now.on }
    ensures { result ≡ is_step (option_map (λ o. o.step) (get_or cycles.now.on m.0 None)) (step_of step) }
{
    match cycles.on(m) {
        Some(on) => on.step == step,
        None => false,
    }
}

/// The chain number with which a chain begins at a module; None where it is on no cycle.
pub(crate) fn begun(cycles: &Cycles, m: ModNo) -> Option<u32>
    requires { m.0 < length cycles.now.on }
    ensures chain { result ≡ chain_by (option_map (λ o. o.step) (get_or cycles.now.on m.0 None)) 0 }
    ensures few { IfSome result (λ c. c ≤ 2 ^ 24) }
{
    match cycles.on(m) {
        Some(_) => Some(0),
        None => None,
    }
}

/// The chain number after a continuing step more.
fn raised(chain: Option<u32>) -> Option<u32>
    requires { IfSome chain (λ c. c < 2 ^ 24) }
    ensures chain { result ≡ option_map (λ c. c + 1) chain }
    ensures few { IfSome result (λ c. c ≤ 2 ^ 24) }
{
    match chain {
        Some(c) => Some(c + 1),
        None => None,
    }
}

/// The bits of a prefix and those of a step behind them, in bytes in the arena, and how many bits there are.
fn spelled<'a>(
    alloc: Global,
    arena: &'a Bump,
    bytes: &[u8],
    length: u32,
    step: PlaceStep,
) -> Result<(&'a [u8], u32), AllocError>
    requires whole { IsWhole bytes.now length }
    requires few { length < 2 ^ 17 }
    ensures bits { IfOk result (λ r. first_bits r.0.now r.1 ≡ first_bits bytes.now length ++ step_bits (place_step_of step)) }
    ensures whole { IfOk result (λ r. IsWhole r.0.now r.1) }
{
    let bits = with_step(alloc, bytes, length, step)?;
    let placed = arena.try_alloc_slice_copy(bits.bytes())?;
    Ok((placed, bits.length()))
}

/// The prefix of a child to which a step leads. By the continuing step it is the parent's, in the same bytes, and the chain number is one higher; by any other the bits of the step follow, and the chain begins. A child of an atomic module has none.
///
/// The only error is that memory is refused.
fn child_prefix<'a>(
    alloc: Global,
    arena: &'a Bump,
    g: Linear<'_>,
    parent: PrefixRef<'a>,
    step: Step,
) -> Result<PrefixRef<'a>, AllocError>
    requires production { step.production.0 < length g.grammar.now.core.productions }
    requires position { step.position.0 < length (body_of g.grammar.now.core step.production.0) }
    requires parent { CanGoOn parent }
    ensures prefix { IfOk result (λ r. prefix_of r ≡ child_prefix g.entry.grammar.now.core (step_of step) (prefix_of parent.entry)) }
    ensures whole { IfOk result (λ r. IsWhole r.bytes.now r.length) }
    ensures chain { IfOk result (λ r. IfSome r.chain (λ c. c ≤ 2 ^ 24)) }
{
    let m = target(g.grammar, step);
    if !g.grammar.is_composite(m) {
        return Ok(PrefixRef {
            bytes: &[],
            length: 0,
            chain: None,
        });
    }
    let rule = g.grammar.production(step.production);
    if is_continuing(g.cycles, rule.head(), step) {
        return Ok(PrefixRef {
            bytes: parent.bytes,
            length: parent.length,
            chain: raised(parent.chain),
        });
    }
    let told = PlaceStep {
        chain: parent.chain,
        alternative: rule.alternative(),
        position: step.position,
    };
    let (bytes, length) = spelled(alloc, arena, parent.bytes, parent.length, told)?;
    Ok(PrefixRef {
        bytes,
        length,
        chain: begun(g.cycles, m),
    })
}

/// The node of the child to which a step leads, which is not expanded.
///
/// The only error is that memory is refused.
pub(crate) fn child<'a>(
    alloc: Global,
    arena: &'a Bump,
    g: Linear<'_>,
    parent: PrefixRef<'a>,
    step: Step,
) -> Result<Node<'a>, AllocError>
    requires production { step.production.0 < length g.grammar.now.core.productions }
    requires position { step.position.0 < length (body_of g.grammar.now.core step.production.0) }
    requires parent { CanGoOn parent }
    ensures node { IfOk result (λ n. node_of n ≡ child_node g.entry.grammar.now.core step.production.0 (prefix_of parent.entry) step.position.0) }
    ensures whole { IfOk result (λ n. IsWhole n.bytes.now n.length) }
{
    let prefix = child_prefix(alloc, arena, g, parent, step)?;
    Ok(Node {
        bytes: prefix.bytes,
        chain: Chain::new(prefix.chain),
        length: prefix.length,
        first_child: 0,
        module: target(g.grammar, step),
        children: 0,
    })
}
