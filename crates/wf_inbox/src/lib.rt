//! An inbox: reports of events are held until their instances stand, and known for ever after.
#![tactic(auto)]

mod inbox;
mod packed;
mod places;
mod report;
mod subjects;
mod told;

pub use inbox::{Held, Inbox, InboxFault, Offer};
