//! Chains of items, in which each item rests on the one before it through one instance, and the laws of them.
#![tactic(auto)]

mod examples;
mod laws;

pub use examples::{chains_are_worked, diamond_chains_are_worked, twisting_chains_are_worked};
pub use laws::{
    chain_items_law, chain_law, chain_list_law, chain_text_law, first_shortest_law, via_law,
};
