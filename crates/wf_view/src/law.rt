// The law of views, as the contract of a function that does nothing.
ghost use Rattle.wf_view.specs.Laws.{DescribedLaw};

/// What the view expands and shows that parts describe, in words.
pub fn described_law()
    ensures { DescribedLaw }
{}
