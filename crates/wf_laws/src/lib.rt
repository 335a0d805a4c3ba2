//! Laws of grammars, views and runs: each is the contract of a function that does nothing.
#![tactic(auto)]

mod addresses;
mod examples;
mod items;
mod paths;
mod runs;
mod views;

pub use addresses::{address_law, agree_law, depth_law, route_law, routes_law, seen_law};
pub use examples::{line_grammar_is_worked, skewed_grammar_is_worked, twisting_grammar_is_worked};
pub use items::{alike_law, depends_law, item_names_law, items_law, visible_law};
pub use paths::{crossing_law, no_return_law, own_pairs_law, pending_law, splits_law};
pub use runs::{
    all_seen_law, conditions_law, finished_law, finishing_law, fresh_graft_law, graft_at_law,
    graft_law, grown_law, idle_law, no_other_finishing_law, open_law, order_law, rename_law,
    sub_run_law, taking_law,
};
pub use views::{
    chosen_law, default_view_law, ends_law, full_law, one_test_suffices, safe_full_law, safety_law,
    settled_law,
};
