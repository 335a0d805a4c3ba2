// Why nothing is read.

/// Why a bit or a number is not read. The reader is then as it was before.
#[derive(Clone, Copy, Debug, PartialEq, Eq)]
pub enum BitFault {
    /// No whole bit or code is left.
    Ended,
    /// A whole code is left, and its number is above the most that was asked for.
    TooLarge,
}
