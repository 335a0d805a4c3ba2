// Witnesses that a view is not safe.
use wf_spec::{ModNo, PortNo, ProdNo, Seq};

/// The production that is chosen for a module.
#[derive(Clone, Copy, Drop)]
pub struct Choice {
    pub module: ModNo,
    pub production: ProdNo,
}

/// Two expansions of one module that disagree on a pair of its ports: in the one every instance is expanded by the choice; the other begins with another production, and goes on by the choice.
#[derive(Drop)]
pub struct Witness {
    pub module: ModNo,
    /// The production that is chosen for the module.
    pub one: ProdNo,
    /// The production with which the other expansion begins.
    pub other: ProdNo,
    pub input: PortNo,
    pub output: PortNo,
    /// Whether the first expansion joins the pair; the other does exactly if this does not.
    pub joined_by_one: bool,
    /// A production for each seen module that the view expands, in the order of the modules.
    pub choice: Seq<Choice>,
}
