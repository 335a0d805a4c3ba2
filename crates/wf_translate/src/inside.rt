// The label of what is inside.
ghost use Rattle.std.specs.Prelude.{◌≡◌};

use bit_pack::Bits;
use wf_label::LabelRef;

/// The bits of a label, as a label in the bytes that hold them. Takes no memory.
pub fn label_in(bits: &Bits) -> LabelRef<'_>
    ensures { result ≡ bits.now }
{
    LabelRef::new(bits.bytes(), bits.length())
}
