// Laws of what is listed: each is the contract of a function that does nothing.
ghost use Rattle.wf_lineage.specs.Laws.{AnswersYesLaw, MirrorLaw};

/// An item is listed exactly if the answer to a query is yes: upstream of an item, to the query of the other item and this one; downstream, to that of this one and the other.
pub fn answers_yes_law()
    ensures { AnswersYesLaw }
{}

/// The lineage of one item has another exactly if the impact of the other has the one.
pub fn mirror_law()
    ensures { MirrorLaw }
{}
