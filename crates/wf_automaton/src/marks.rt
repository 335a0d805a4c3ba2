// Flags of the states that accept.
ghost use Rattle.std.specs.Prelude.{◌≡◌, ◌<◌, ℕ, IfOk};
ghost use Rattle.wf_model.specs.Lists.{IsIn};
ghost use Rattle.wf_automaton.specs.Tables.{AreFlagsOf};

use std::alloc::{AllocError, Global};

/// A flag for each of the states, set at those in the list.
pub fn flags_of(alloc: Global, states: u8, accept: &[u64]) -> Result<Vec<bool>, AllocError>
    requires { (s : ℕ) → IsIn s accept.now → s < states }
    ensures { IfOk result (λ flags. AreFlagsOf accept.now flags.items) }
{
    let mut flags = vec![in alloc; false; states as usize]?;
    for s in accept {
        flags[*s as usize] = true;
    }
    Ok(flags)
}
