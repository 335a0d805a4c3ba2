// Pools of matrices.
ghost use Rattle.std.specs.Prelude.{◌≡◌, ◌<◌, length, take, [], IfOk, OnErr};
ghost use Rattle.bool_mat.specs.Matrix.{Adds, IsMatrix, matrix_at};

use crate::matrix::MatRef;
use std::alloc::{AllocError, Global};
use std::marker::Model;

/// The number of a matrix of a pool, from 0 in the order in which they were pushed.
#[derive(Clone, Copy, PartialEq, Eq, Debug)]
pub struct MatNo(pub usize);

// Where the rows of a matrix begin among the words of its pool, how many they are, and the number of its columns.
#[derive(Clone, Copy)]
pub struct Shape {
    start: usize,
    rows: u8,
    columns: u8,
}

/// Matrices, numbered from 0 in the order in which they were pushed. One vector holds the rows of all.
#[derive(Drop)]
pub struct MatPool {
    words: Vec<u64>,
    shapes: Vec<Shape>,
}

impl Model for MatPool {
    ghost use Rattle.std.specs.Prelude.{List, map};
    ghost use Rattle.std.specs.List.{All};
    ghost use Rattle.bool_mat.specs.Matrix.{Matrix};
    ghost use Rattle.bool_mat.specs.Pool.{matrix_in, Stored};

    ghost Value = { List Matrix };

    ghost view = { λ p. map (matrix_in p.words.items) p.shapes.items };

    ghost invariant = { λ p. All (Stored p.words.items) p.shapes.items };
}

impl MatPool {
    /// A pool without matrices. It takes no memory before the first is pushed.
    pub fn new(alloc: Global) -> MatPool
        ensures { result ≡ [] }
    {
        MatPool {
            words: Vec::new(alloc),
            shapes: Vec::new(alloc),
        }
    }

    /// Borrows the matrix of this number, which the pool has. Nothing is copied.
    ///
    /// Constant time.
    pub fn get(&self, m: MatNo) -> MatRef<'_>
        requires { m.0 < length self.now }
        ensures same { result ≡ matrix_at self.now m.0 }
        ensures is_matrix { IsMatrix result }
    {
        let s = &self.shapes[m.0];
        MatRef {
            rows: &self.words[s.start..s.start + s.rows as usize],
            columns: s.columns,
        }
    }

    /// Adds a matrix of at most 64 rows and 64 columns without bits past the columns, and gives its number. The matrices before it keep their numbers. If memory is refused, the pool is as before.
    ///
    /// Time linear in the number of rows, in the mean of many calls.
    pub fn push(&mut self, rows: &[u64], columns: u8) -> Result<MatNo, AllocError>
        requires { IsMatrix (record { rows = rows.now; columns = columns }) }
        ensures added { IfOk result (λ m. Adds self.old self.new m.0 1) }
        ensures pushed { IfOk result (λ m. matrix_at self.new m.0 ≡ record { rows = rows.now; columns = columns }) }
        ensures err { OnErr result (self.new ≡ self.old) }
    {
        let number = MatNo(self.shapes.len());
        let start = self.words.len();
        self.shapes.reserve(1)?;
        self.words.extend_from_slice(rows)?;
        self.shapes.push(Shape {
            start,
            rows: rows.len() as u8,
            columns,
        })?;
        Ok(number)
    }

    /// The number of matrices.
    ///
    /// Constant time.
    pub fn len(&self) -> usize
        ensures { result ≡ length self.now }
    {
        self.shapes.len()
    }

    /// Makes room for so many matrices more, with so many rows in all: until there are as many, pushing them asks for no memory. If memory is refused, the pool is as before.
    ///
    /// Time linear in what the pool holds, since this may move.
    pub fn reserve(&mut self, matrices: usize, rows: usize) -> Result<(), AllocError>
        ensures { self.new ≡ self.old }
    {
        self.shapes.reserve(matrices)?;
        self.words.reserve(rows)
    }

    // Takes back the matrices from this number on.
    pub(crate) fn truncate(&mut self, count: usize)
        ensures { self.new ≡ take count self.old }
    {
        self.shapes.truncate(count);
    }
}
