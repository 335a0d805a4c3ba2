// The entries of the edges of a production.
ghost use Rattle.std.specs.Prelude.{◌≡◌, ◌<◌, ◌≤◌, ◌^◌, ℕ, List, length, OnOk};
ghost use Rattle.wf_model.specs.Lists.{IsIn};
ghost use Rattle.wf_model.specs.Grammar.{body_of};
ghost use Rattle.wf_model.specs.Meaning.{inner_of};
ghost use Rattle.wf_model.specs.WellFormed.{IsInnerOutput};
ghost use Rattle.bit_pack.specs.Written.{IsFilled};
ghost use Rattle.wf_labeller.specs.Entries.{body_output_name, expansion_entries};
ghost use Rattle.wf_labeller.specs.Keeping.{Adds, HasMore};
ghost use Rattle.wf_run.specs.Growing.{prefix_of};

use crate::keeper::Keeper;
use bit_pack::BitWriter;
use std::alloc::AllocError;
use wf_label::{begin_labels, end_label};
use wf_run::PrefixRef;
use wf_spec::{EdgeNo, Grammar, Inner, Name, ProdNo};

/// The name of an output of a position of a body.
fn output_at<'g>(g: &'g Grammar, production: ProdNo, from: Inner) -> &'g [u8]
    requires production { production.0 < length g.now.core.productions }
    requires from { IsInnerOutput g.now.core production.0 (inner_of from) }
    ensures { result.now ≡ body_output_name g.now.core production.0 (inner_of from) }
{
    let position = &g.production(production).positions()[from.pos.0 as usize];
    let outputs = g.modules()[position.module.0 as usize].outputs();
    outputs[from.port.0 as usize].bytes()
}

/// Keeps the entries of the items of the edges of a production, where an instance with this prefix is expanded by it, with a name for each position. What their labels begin with is written once. After an error some of them may be kept.
///
/// Cost: linear in the bytes of the entries.
pub(crate) fn keep_edges<K: Keeper>(
    g: &Grammar,
    production: ProdNo,
    names: &[Name],
    prefix: PrefixRef<'_>,
    bits: &mut BitWriter,
    to: &mut K,
) -> Result<(), AllocError>
    requires production { production.0 < length g.now.core.productions }
    requires one_each { length names.now ≡ length (body_of g.now.core production.0) }
    requires short { (n : List ℕ) → IsIn n names.now → length n ≤ 64 }
    requires filled { IsFilled prefix.bytes.now prefix.length }
    requires few { prefix.length < 2 ^ 17 }
    ensures ok { OnOk result (Adds K.parts_of (K.kept to.old) (K.kept to.new) (expansion_entries g.now.core production.0 names.now (prefix_of prefix.entry))) }
    ensures more { HasMore (K.kept to.old) (K.kept to.new) }
{
    let rule = g.production(production);
    let alternative = rule.alternative();
    let edges = rule.edges();
    begin_labels(bits, prefix.bytes, prefix.length, prefix.chain, alternative)?;
    let begun = bits.length();
    for k in 0..edges.len() {
        end_label(bits, begun, EdgeNo(k as u16))?;
        let from = edges[k].from;
        let instance = names[from.pos.0 as usize].bytes();
        let port = output_at(g, production, from);
        to.keep(instance, port, bits.bytes())?;
    }
    Ok(())
}
