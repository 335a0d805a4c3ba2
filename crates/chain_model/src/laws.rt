// Laws of chains of items: each is the contract of a function that does nothing.
ghost use Rattle.chain_model.specs.Laws.{ChainItemsLaw, ChainLaw, ChainListLaw, ChainTextLaw, FirstShortestLaw, ViaLaw};

/// Under a safe view a chain leads from one visible item of an unfinished run to another exactly if the second depends on the first in each finishing.
///
/// And exactly if it does in one: so where there is no chain, the second depends on the first in no finishing of the run.
pub fn chain_law()
    ensures { ChainLaw }
{}

/// There is a chain exactly where some list of steps is one.
pub fn chain_list_law()
    ensures { ChainListLaw }
{}

/// Two items that follow one another in a chain determine the instance between them, and each of them alone does.
pub fn via_law()
    ensures { ViaLaw }
{}

/// A chain is determined by its items.
pub fn chain_items_law()
    ensures { ChainItemsLaw }
{}

/// Where chains lead from one item to another, one of them is the first of the shortest, and it is the only one.
pub fn first_shortest_law()
    ensures { FirstShortestLaw }
{}

/// The text of a chain determines it.
pub fn chain_text_law()
    ensures { ChainTextLaw }
{}
