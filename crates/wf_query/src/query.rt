// Query lines.
ghost use Rattle.std.specs.Prelude.{IfOk, IfErr};
ghost use Rattle.wf_query.specs.Line.{IsQuery, IsNoQuery};

use name_text::{cut_item, split_item};

/// Two item names: the question is whether the second item depends on the first.
#[derive(Clone, Copy)]
pub struct Query<'a> {
    pub first: &'a [u8],
    pub second: &'a [u8],
}

/// A line is not two item names with one space between.
#[derive(Clone, Copy, Debug, PartialEq, Eq)]
pub struct LineWrong;

/// Reads a query from a line without its newline: two item names with one space between.
///
/// Both names are parts of the line. Cost: linear in the line, of which each byte is looked at once. Takes no memory.
#[inline]
pub fn read_query(line: &[u8]) -> Result<Query<'_>, LineWrong>
    ensures ok { IfOk result (λ q. IsQuery line.now q.first.now q.second.now) }
    ensures wrong { IfErr result (λ _. IsNoQuery line.now) }
{
    let Some((first, behind)) = cut_item(line) else {
        return Err(LineWrong);
    };
    let Some((space, second)) = behind.split_first() else {
        return Err(LineWrong);
    };
    if *space != b' ' {
        return Err(LineWrong);
    }
    let Some(_) = split_item(second) else {
        return Err(LineWrong);
    };
    Ok(Query { first, second })
}
