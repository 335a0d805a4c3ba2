// How the program ends, as it tells its caller.

/// How a run of the program ended. The exit statuses are 0 to 5 in this order.
#[derive(Clone, Copy, Debug, PartialEq, Eq)]
pub enum Status {
    /// All that was asked was written.
    Done,
    /// The words are those of no command.
    Usage,
    /// A file was refused.
    Refused,
    /// A file could not be read to its end.
    ReadFault,
    /// The text could not be written whole.
    WriteFault,
    /// Memory was refused.
    NoMemory,
}
