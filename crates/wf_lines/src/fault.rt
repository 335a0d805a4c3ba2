// Why lines end before the end of their file.

/// Why lines end, whatever takes them.
#[derive(Clone, Copy, Debug, PartialEq, Eq)]
pub enum Halt {
    /// The line of this number, from 1, has more than 65,536 bytes.
    LineTooLong { line: u64 },
    /// The file has more than 2^30 bytes, and the line of this number does not end within the first 2^30 of them.
    FileTooLong { line: u64 },
    /// Reading failed, and the shelf's count of faults rose.
    ReadFault,
    /// Writing failed, and the sink's count of faults rose.
    WriteFault,
}

/// Why lines end before the end of their file.
#[derive(Drop)]
pub enum LinesFault<F> {
    /// A line, or the end of the file, stopped what takes them; or memory was wanting.
    Stopped(F),
    /// They end whatever takes them.
    Halted(Halt),
}
