// Laws of row products.
ghost use Rattle.decode_model.specs.DecidedLaws.{DecidedLaw};
ghost use Rattle.decode_model.specs.RowLaws.{
  DownRowsLaw,
  ProgressLaw,
  RowsLaw,
  ThroughLaw,
  UpRowsLaw,
  WaysLaw,
};

/// Row products tell what lies in a list of matrices.
pub fn through_law()
    ensures { ThroughLaw }
{}

/// A loop over row products keeps what its row tells and how many it has counted.
pub fn progress_law()
    ensures { ProgressLaw }
{}

/// The matrices of a way have the relations of its steps.
pub fn ways_law()
    ensures { WaysLaw }
{}

/// Where a body is crossed, a bit of the last row tells whether a path leads there.
pub fn rows_law()
    ensures { RowsLaw }
{}

/// Down alone, a bit of the last row tells whether a path leads there.
pub fn down_rows_law()
    ensures { DownRowsLaw }
{}

/// Up alone, a bit of the last row tells whether a path leads there.
pub fn up_rows_law()
    ensures { UpRowsLaw }
{}

/// Bit `o` of the last row tells whether output `o` of one address is reached from input `i` of another.
///
/// The row goes up from the first address, across the body where the two part, and down to the second; or down alone, or up alone, where one of them is above the other.
///
/// Source of the idea: Bao, Davidson, Milo, "Labeling Workflow Views with Fine-Grained Dependencies", VLDB 2012 (decoding of two labels).
pub fn decided_law()
    ensures { DecidedLaw }
{}
