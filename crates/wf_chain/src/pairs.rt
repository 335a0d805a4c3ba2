// The pairs of instances that are not open.
ghost use Rattle.std.specs.Prelude.{◌≡◌, ◌<◌, ◌==◌, length, get_or};
ghost use Rattle.std.specs.Int.{bit_at};
ghost use Rattle.wf_model.specs.declared.numbers.Side.TheVariants.{Input, Output};
ghost use Rattle.wf_model.specs.Meaning.{pairs_of};
ghost use Rattle.wf_flat.specs.Graph.{inst_at};
ghost use Rattle.chain_model.specs.Chains.{unopened_pairs};
ghost use Rattle.wf_chain.specs.ViewedRuns.{view_in, full_in};
ghost use Rattle.wf_chain.specs.Steps.{IsUnopened};

use crate::viewed_run::ViewedRun;
use wf_flat::Port;
use wf_spec::{Deps, ModNo, PortNo};

/// Whether a row has the bit of a column.
fn has_bit(row: u64, column: u8) -> bool
    requires { column < 64 }
    ensures { result ≡ (bit_at row column == 1) }
{
    (row >> column) & 1 == 1
}

/// The row of a number; past the end a row without bits.
fn row_at(rows: &[u64], i: u8) -> u64
    ensures { result ≡ get_or rows.now i 0 }
{
    let i = usize::from(i);
    if i < rows.len() { rows[i] } else { 0 }
}

/// Whether the rows of a module have a pair.
fn has_pair(deps: &Deps, m: ModNo, i: u8, o: u8) -> bool
    requires there { m.0 < length deps.now }
    requires column { o < 64 }
    ensures { result ≡ pairs_of deps.now m.0 i o }
{
    let Some(rows) = deps.rows(m) else {
        return false;
    };
    has_bit(row_at(rows, i), o)
}

impl<'r> ViewedRun<'r> {
    /// Whether every expansion of the module of an instance joins an input and an output of it.
    pub(crate) fn has_pair(&self, instance: u32, input: PortNo, output: PortNo) -> bool
        requires there { instance < length self.now.run.instances }
        requires column { output.0 < 64 }
        ensures { result ≡ full_in self.now (inst_at self.now.run.instances instance).module_no input.0 output.0 }
    {
        let m = self.run.instances()[instance as usize].module;
        has_pair(self.viewed.full().deps(), m, input.0, output.0)
    }

    /// Whether an input and an output of an instance that is not open are a pair of it: one that the view shows where it does not expand the module, and where the instance is pending one that every expansion joins.
    pub(crate) fn joins(&self, input: Port, output: Port) -> bool
        requires input { IsUnopened self.now Input input }
        requires output { IsUnopened self.now Output output }
        requires same { output.instance ≡ input.instance }
        ensures { result ≡ unopened_pairs (view_in self.now) (full_in self.now) (inst_at self.now.run.instances input.instance).module_no input.port.0 output.port.0 }
    {
        // The view is safe: it shows the pairs that every expansion joins.
        let _run = self.run;
        self.has_pair(input.instance, input.port, output.port)
    }
}
