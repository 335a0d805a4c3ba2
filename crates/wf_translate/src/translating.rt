// Bytes that are translated over a package.
ghost use Rattle.std.specs.Prelude.{◌≡◌, IfOk, IfErr};
ghost use Rattle.package_model.specs.Translating.{TranslatesTo, Malformed as MalformedBits};
ghost use Rattle.wf_loops.specs.Looped.{loop_in};
ghost use Rattle.wf_translate.specs.Translated.{IsTranslatedAs};
ghost use Rattle.wf_translate.specs.declared.fault.PackLabelFault.TheVariants.{Malformed};

use crate::fault::PackLabelFault;
use crate::label::read_label;
use bit_pack::{BitReader, Bits};
use std::alloc::Global;
use wf_label::write_label;
use wf_loops::Looped;

/// What a label comes to over a package.
#[derive(Drop)]
pub enum Packed {
    /// The bits of a label of the package's grammar, which tells by place what the label tells.
    Inside(Bits),
    /// The label tells what the package does not show.
    Outside,
}

/// Reads the bytes of a label over a package, without the grammar of which the label is.
///
/// A chain number stands exactly at the modules that have a loop step, for as many loop steps as it counts.
/// The reading ends where it comes to an atomic module: what follows is not read.
///
/// Errors: `Malformed`; `NoMemory`, and it is the answer also to 2^60 bytes or more.
///
/// Cost: linear in the bits that are read and in those that are written. A chain number of a module on a cycle is passed by a few look-ups,
/// and one of another module by no more steps than there are modules.
pub fn translate(alloc: Global, looped: &Looped, bytes: &[u8]) -> Result<Packed, PackLabelFault>
    ensures packed { IfOk result (λ p. IsTranslatedAs looped.now.accepted.grammar.core (loop_in looped.now.steps) bytes.now p) }
    ensures malformed { IfErr result (λ f. f ≡ Malformed → TranslatesTo looped.now.accepted.grammar.core (loop_in looped.now.steps) bytes.now MalformedBits) }
{
    if bytes.len() >= 1 << 60 {
        return Err(PackLabelFault::NoMemory);
    }
    // The loops of a package are good.
    let _good = looped.grammar();
    let mut reader = BitReader::new(bytes);
    let read = read_label(alloc, looped, &mut reader)?;
    let Some(label) = read else {
        return Ok(Packed::Outside);
    };
    let bits = write_label(alloc, &label)?;
    Ok(Packed::Inside(bits))
}
