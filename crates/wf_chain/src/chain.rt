// Chains of items, by the numbers of instances.
use wf_flat::Item;

/// A step of a chain: through the instance of a number to an item.
#[derive(Clone, Copy, Drop)]
pub struct ChainStep {
    pub via: u32,
    pub item: Item,
}

/// A chain of items: the first, and the steps from it on.
#[derive(Drop)]
pub struct Chain {
    pub first: Item,
    pub steps: Vec<ChainStep>,
}

/// What is wrong of a step from an item.
#[derive(Clone, Copy, Debug, PartialEq, Eq, Drop)]
pub enum WrongStep {
    /// The instance does not consume the item: it is not seen, or open, or no entries lead to it from where the item is consumed.
    Via,
    /// The instance consumes the item, which does not lead through it to the item of the step, or this one is not visible.
    Onward,
}
