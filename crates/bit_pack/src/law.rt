// The laws of gamma codes and of bits in bytes: each is the contract of a function that does nothing.
ghost use Rattle.bit_pack.specs.Laws.{BinaryLaw, CodesLaw, HeldLaw, LengthLaw, PackedLaw, PrefixFreeLaw, SpellingLaw};

/// No gamma code begins another, and a code tells its number.
pub fn prefix_free_law()
    ensures { PrefixFreeLaw }
{}

/// The gamma code of a number with k binary digits has 2k - 1 bits.
pub fn length_law()
    ensures { LengthLaw }
{}

/// The binary digits of a number tell it.
pub fn binary_law()
    ensures { BinaryLaw }
{}

/// Zero bits, a one and as many bits as there were zero bits are the gamma code of the number whose
/// binary digits are the one and the bits behind it.
pub fn spelling_law()
    ensures { SpellingLaw }
{}

/// The gamma codes of a list of numbers, one after another and then zero bits, tell the list.
pub fn codes_law()
    ensures { CodesLaw }
{}

/// Bits are packed into the bytes that hold them, and into no others.
pub fn packed_law()
    ensures { PackedLaw }
{}

/// The bits that bytes hold are read from them again, and bytes hold one list of bits up to zero
/// bits at the end.
pub fn held_law()
    ensures { HeldLaw }
{}
