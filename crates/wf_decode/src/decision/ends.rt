// The ends of the item of a label.
ghost use Rattle.std.specs.Prelude.{◌≡◌, ◌+◌, ◌∷◌, ◌++◌, ◌<◌, ◌≤◌, [], length, take};
ghost use Rattle.wf_model.specs.Grammar.{body_of};
ghost use Rattle.wf_model.specs.Reach.{target_of};
ghost use Rattle.wf_model.specs.View.{View};
ghost use Rattle.label_model.specs.Labels.{Label, IsLabel, label_bits};
ghost use Rattle.wf_label.specs.Values.{AreLabelBits};
ghost use Rattle.wf_recur.specs.Cycles.{step_of};
ghost use Rattle.wf_vlabel.specs.Seen.{IsLabelOfView};
ghost use Rattle.wf_decode.specs.declared.leg.Leg.TheVariants.{Into};
ghost use Rattle.wf_decode.specs.Ends.{IsEndOn, end_of_edge};
ghost use Rattle.wf_decode.specs.Reading.{most_legs};

use crate::leg::Leg;
use crate::read::{Told, read_label};
use wf_label::LabelRef;
use wf_spec::{Edge, Inner, ModNo, PortNo, Side, Step};
use wf_vlabel::ViewLabel;

/// A port of a module, on the side that its use tells.
#[derive(Clone, Copy)]
pub(crate) struct ModulePort {
    pub(crate) module: ModNo,
    pub(crate) port: PortNo,
}

/// Where the item of a label is consumed, or where it is produced.
#[derive(Clone, Copy)]
pub(crate) enum End {
    /// The label is hidden.
    Hidden,
    /// The item is an output of the root and is not consumed, or an input of the root and is not produced.
    Nowhere,
    /// At a port of an instance. Of the address of the instance so many legs are held.
    At { legs: usize, at: ModulePort },
}

/// Holds a step after the first `n` legs, and gives the module where it leads.
fn hold_step(vl: &ViewLabel<'_>, legs: &mut [Leg], n: usize, step: Step) -> ModNo
    requires production { step.production.0 < length vl.now.grammar.productions }
    requires position { step.position.0 < length (body_of vl.now.grammar step.production.0) }
    requires room { n < length legs.old }
    ensures module { result.0 ≡ target_of vl.now.grammar (step_of step) }
    ensures held { take (n + 1) legs.new ≡ take n legs.old ++ Into step ∷ [] }
    ensures length { length legs.new ≡ length legs.old }
{
    legs[n] = Leg::Into { step };
    vl.grammar().production(step.production).positions()[step.position.0 as usize].module
}

/// The end of an edge on a side: where it leads, on that of inputs; and where it comes from, on that of outputs.
fn end_of(edge: Edge, side: Side) -> Inner
    ensures { result ≡ end_of_edge edge side }
{
    match side {
        Side::Input => edge.to,
        Side::Output => edge.from,
    }
}

/// A port of the root.
fn root_port(vl: &ViewLabel<'_>, port: PortNo) -> ModulePort
    ensures module { result.module.0 ≡ vl.now.grammar.start }
    ensures port { result.port ≡ port }
{
    ModulePort {
        module: vl.grammar().start(),
        port,
    }
}

/// Reads a label and holds the legs to the instance where its item is consumed, on the side of inputs, or produced, on the side of outputs.
///
/// Cost: linear in the bits of the label.
pub(crate) fn end_on(vl: &ViewLabel<'_>, side: Side, label: &LabelRef<'_>, legs: &mut [Leg]) -> End
    requires label { AreLabelBits vl.now.grammar label.now }
    requires room { most_legs vl.now.grammar ≤ length legs.old }
    ensures end { (u : View) (x : Label) → IsLabelOfView vl.now u → IsLabel vl.now.grammar x →
        label.now ≡ label_bits x → IsEndOn side vl.now u x result legs.new }
    ensures length { length legs.new ≡ length legs.old }
{
    match read_label(vl, label, legs) {
        Told::Hidden => End::Hidden,
        Told::Input { port } => match side {
            Side::Input => End::At {
                legs: 0,
                at: root_port(vl, port),
            },
            Side::Output => End::Nowhere,
        },
        Told::Output { port } => match side {
            Side::Input => End::Nowhere,
            Side::Output => End::At {
                legs: 0,
                at: root_port(vl, port),
            },
        },
        Told::Edge {
            legs: n,
            production,
            edge,
        } => {
            let end = end_of(
                vl.grammar().production(production).edges()[edge.0 as usize],
                side,
            );
            let step = Step {
                production,
                position: end.pos,
            };
            let module = hold_step(vl, legs, n, step);
            let held = n + 1;
            End::At {
                legs: held,
                at: ModulePort {
                    module,
                    port: end.port,
                },
            }
        }
    }
}
