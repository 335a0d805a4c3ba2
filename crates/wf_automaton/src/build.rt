// Automata built from texts.
ghost use Rattle.std.specs.Prelude.{◌≡◌, ◌⊎◌, map, IfOk, IfErr};
ghost use Rattle.wf_spec.specs.FirstFaults.{AllHold, IsFirstFault};
ghost use Rattle.words_model.specs.Laws.{Fits};
ghost use Rattle.wf_automaton.specs.Rules.{TellsAutomaton, IsAutoFault, auto_rules, automaton_of, move_of};
ghost use Rattle.wf_automaton.specs.Tables.{AreTablesOf};
ghost use Rattle.wf_automaton.specs.declared.fault.AutoFault.TheVariants.{NoMemory};

use crate::automaton::{Automaton, Move};
use crate::checks::{check_ports, check_states};
use crate::fault::AutoFault;
use crate::marks::flags_of;
use crate::moves::{numbered, table_of};
use crate::parts::AutoParts;
use crate::reading::read_parts;
use std::alloc::Global;
use wf_spec::Grammar;

/// The moves of an automaton by numbers, a flag for each state that accepts, and the table of where the moves lead.
#[derive(Drop)]
struct Tables {
    moves: Vec<Move>,
    flags: Vec<bool>,
    table: Vec<Option<u8>>,
}

/// The tables of the automaton that parts describe, if the parts keep all rules.
fn tables_of(alloc: Global, g: &Grammar, parts: &AutoParts) -> Result<Tables, AutoFault>
    ensures kept { IfOk result (λ _. AllHold (auto_rules g.now.core parts.now)) }
    ensures moves { IfOk result (λ t. t.moves.items ≡ map (move_of g.now.core) parts.now.moves) }
    ensures tables { IfOk result (λ t. AreTablesOf (automaton_of g.now.core parts.now) t.flags.items t.table.items) }
    ensures refused { IfErr result (λ f. (f ≡ NoMemory) ⊎ IsFirstFault (auto_rules g.now.core parts.now) f) }
{
    check_states(parts)?;
    let states = parts.states as u8;
    let moves = numbered(alloc, g, parts.moves.items())?;
    let table = table_of(alloc, states, g.modules().len(), &moves)?;
    check_ports(g, states)?;
    let flags = flags_of(alloc, states, parts.accept.items())?;
    Ok(Tables {
        moves,
        flags,
        table,
    })
}

impl Automaton {
    /// The automaton over the modules of the grammar that a JSON text describes.
    ///
    /// Its member `states` is the number of states, and `start` is a state. `accept` is a list of states, which may repeat one, and `moves` is a list of moves, each a list of a state, the name of a module and a state; both are empty where they are not there. The modules may be composite. Further members are ignored.
    ///
    /// A name in the text may hold any bytes; this call is the test. Errors: the fault of the first rule that the text breaks, at the first place, in the order of `AutoFault`; `NoMemory` may come at any time.
    ///
    /// Cost: one reading of the text by `serde_json`, a look at each accepting state, for each move one look-up by hashing, and a table with a place for each module and each state.
    pub fn build(alloc: Global, g: &Grammar, bytes: &[u8]) -> Result<Automaton, AutoFault>
        ensures accepted { IfOk result (TellsAutomaton g.now.core bytes.now) }
        ensures fits { IfOk result (Fits g.now.core) }
        ensures refused { IfErr result (λ f. (f ≡ NoMemory) ⊎ IsAutoFault g.now.core bytes.now f) }
    {
        let parts = read_parts(alloc, bytes)?;
        let tables = tables_of(alloc, g, &parts)?;
        let states = parts.states as u8;
        let start = parts.start as u8;
        Ok(Automaton::of_tables(
            states,
            start,
            parts.accept,
            tables.moves,
            tables.flags,
            tables.table,
        ))
    }
}
