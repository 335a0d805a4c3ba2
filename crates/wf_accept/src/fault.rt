// Why a grammar is not accepted.

use wf_check::CheckFault;
use wf_recur::RecurFault;
use wf_spec::Grammar;
use wf_version::VersionFault;

/// Why a grammar is not accepted, in the order of trial.
#[derive(Drop)]
pub enum AcceptFault {
    /// It is not proper.
    NotProper(CheckFault),
    /// It is proper and not strictly linear.
    NotLinear(RecurFault),
    /// It is proper and strictly linear, and this is the first of its versions, by number, that does not keep its cycles.
    VersionChanged { version: u64, fault: VersionFault },
    /// Memory was refused.
    NoMemory,
}

/// A grammar that is not accepted, and why.
#[derive(Drop)]
pub struct Unaccepted {
    pub grammar: Grammar,
    pub fault: AcceptFault,
}
