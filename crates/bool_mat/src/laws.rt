// The laws of Boolean matrices: each is the contract of a function that does nothing.
ghost use Rattle.bool_mat.specs.Laws.{AssociativeLaw, CommuteLaw, OneProductLaw, PowerSumLaw, RowLaw, SameLaw, TransposeLaw, TwiceTransposedLaw};

/// Two matrices of one size with the same pairs are equal.
pub fn same_law()
    ensures { SameLaw }
{}

/// Two matrices have one product at most.
pub fn one_product_law()
    ensures { OneProductLaw }
{}

/// The product is associative.
pub fn associative_law()
    ensures { AssociativeLaw }
{}

/// A row times a product of two matrices is the row times the first, and this times the second.
pub fn row_law()
    ensures { RowLaw }
{}

/// The transpose of the transpose is the matrix.
pub fn twice_transposed_law()
    ensures { TwiceTransposedLaw }
{}

/// The transpose of a product is the product of the transposes in the other order.
pub fn transpose_law()
    ensures { TransposeLaw }
{}

/// The product of two powers of a matrix is its power with the sum of the exponents.
pub fn power_sum_law()
    ensures { PowerSumLaw }
{}

/// Two powers of one matrix commute.
pub fn commute_law()
    ensures { CommuteLaw }
{}
