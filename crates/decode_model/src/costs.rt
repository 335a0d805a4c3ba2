// Laws of how many row products a query takes.
ghost use Rattle.decode_model.specs.CostLaws.{CostLaw, CountLaw, LeftLaw, NumbersLaw, ProductsLaw};

/// A way takes at most one row product for a single step, and 23 and the length of the longest cycle for a chain.
pub fn cost_law()
    ensures { CostLaw }
{}

/// What is left of a way, after what it has in common with another, takes no more than the whole.
pub fn left_law()
    ensures { LeftLaw }
{}

/// Strong components and cycles have numbers, as many as they are counted to be.
pub fn numbers_law()
    ensures { NumbersLaw }
{}

/// Two places take at most `2(h + 1) + 2q(24 + l)` row products, where there are `h` strong components, and `q` cycles of at most `l` modules.
pub fn count_law()
    ensures { CountLaw }
{}

/// A query takes at most `2(h + 1) + 2q(24 + l)` row products, however long the chains of its labels are.
///
/// Source of the idea: Bao, Davidson, Milo, "Labeling Workflow Views with Fine-Grained Dependencies", VLDB 2012 (matrices of recursions raised to powers beforehand).
pub fn products_law()
    ensures { ProductsLaw }
{}
