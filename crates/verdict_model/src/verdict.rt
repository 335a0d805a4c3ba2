// Verdicts on two labels.

/// What two labels tell under a view: the first of these that applies.
#[derive(Clone, Copy, PartialEq, Eq, Debug)]
pub enum Verdict {
    /// The first label names a production at an instance whose module the view does not expand.
    Hidden1,
    /// So does the second.
    Hidden2,
    /// The two name different productions at one instance, so that no run has both.
    Clash,
    /// The item of the second depends on that of the first, however a run that has both is finished.
    Yes,
    /// In all other cases. For a safe view no finishing of any run that has both joins them.
    No,
}
