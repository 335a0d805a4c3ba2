// What the comparison of two views comes to.
use wf_model::{Event, ModNo, Name, PortNo, Seq};

/// What the comparison of a coarse view with a fine one comes to: the first of these that applies.
#[derive(Drop)]
pub enum Compared {
    /// The coarse view denies this pair, the first that it denies. The run has an instance of the module that both views see.
    Denied {
        module: ModNo,
        input: PortNo,
        output: PortNo,
        instance: Name,
        run: Seq<Event>,
    },
    /// It denies none and adds this pair, the first that it adds.
    Extra {
        module: ModNo,
        input: PortNo,
        output: PortNo,
    },
    /// It does neither.
    Exact,
}
