// How long lines and pieces are.

/// The most bytes of a line before its newline.
pub const LINE_MOST: usize = 65536;

/// How many bytes are asked of a shelf, and gathered for a sink, at one time. A piece has room for the longest line.
pub const PIECE: usize = LINE_MOST;
