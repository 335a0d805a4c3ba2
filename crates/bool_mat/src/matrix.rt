// Borrowed matrices.
use std::marker::Model;

/// A borrowed matrix of at most 64 rows and 64 columns. Bit `j` of a row stands for column `j`; the bits past the columns are 0.
#[derive(Drop)]
pub struct MatRef<'a> {
    pub rows: &'a [u64],
    /// The number of columns.
    pub columns: u8,
}

impl<'a> Model for MatRef<'a> {
    ghost use Rattle.bool_mat.specs.Matrix.{Matrix, IsMatrix};

    ghost Value = { Matrix };

    ghost view = { λ m. record { rows = m.rows.now; columns = m.columns } };

    ghost invariant = { λ m. IsMatrix (record { rows = m.rows.now; columns = m.columns }) };
}
