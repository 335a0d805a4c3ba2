// The kinds of files that several commands read.
use wf_message::Place;
use wf_stage::FileKind;

pub const SPEC: FileKind = FileKind {
    place: Place { word: b"spec" },
    most: 16777216,
    too_long: b"TooLong",
};

pub const VIEW: FileKind = FileKind {
    place: Place { word: b"view" },
    most: 16777216,
    too_long: b"TooLong",
};

/// The second, coarser of two views that are compared.
pub const COARSE: FileKind = FileKind {
    place: Place { word: b"coarse" },
    most: 16777216,
    too_long: b"TooLong",
};

/// A file of events, which is taken line by line.
pub const EVENTS: Place = Place { word: b"events" };

pub const LABELS: FileKind = FileKind {
    place: Place { word: b"labels" },
    most: 1073741824,
    too_long: b"TooLong",
};

/// A file of queries, which is taken line by line.
pub const QUERIES: Place = Place { word: b"queries" };
