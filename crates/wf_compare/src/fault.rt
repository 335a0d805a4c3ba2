// Why two views are not compared.

use wf_spec::ModNo;

/// Why two views are not compared, in the order of trial.
#[derive(Clone, Copy, Drop)]
pub enum CompareFault {
    /// The coarse view expands a module that the fine one does not, whether either of them sees it or not; this is the least.
    NotCoarser { module: ModNo },
    /// Memory was refused.
    NoMemory,
}
