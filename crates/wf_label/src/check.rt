// Bytes that are tried as a label.
ghost use Rattle.std.specs.Prelude.{IfOk, IfErr};
ghost use Rattle.bit_pack.specs.Bits.{Holds};
ghost use Rattle.label_model.specs.Reading.{IsLabelBytes};
ghost use Rattle.wf_label.specs.Values.{AreLabelBits};

use crate::parts::pass_label;
use crate::reference::LabelRef;
use bit_pack::BitReader;
use wf_recur::Linear;

/// The bytes are no label of the grammar.
#[derive(Clone, Copy, Debug, PartialEq, Eq)]
pub struct Malformed;

impl<'a> LabelRef<'a> {
    /// The label of a grammar that the bytes are: its bits, and then zero bits, fewer than eight, up to the byte.
    ///
    /// Takes no memory. Cost: linear in the bytes; a chain number is not walked step by step. More than 16,384 bytes are refused at once, since a label has fewer than 2^17 bits.
    pub fn check(g: Linear<'_>, bytes: &'a [u8]) -> Result<LabelRef<'a>, Malformed>
        ensures label { IfOk result (λ r. AreLabelBits g.entry.grammar.now.core r × Holds bytes.now r) }
        ensures malformed { IfErr result (λ _. IsLabelBytes g.entry.grammar.now.core bytes.now → ⊥) }
    {
        // A grammar is well-formed.
        let _formed = g.grammar.start();
        if bytes.len() > 16_384 {
            return Err(Malformed);
        }
        let mut reader = BitReader::new(bytes);
        pass_label(g, &mut reader)?;
        if reader.padding() {
            Ok(LabelRef::new(bytes, reader.at() as u32))
        } else {
            Err(Malformed)
        }
    }
}
