// The moves of an automaton by numbers, and the table of where they lead.
ghost use Rattle.std.specs.Prelude.{◌≡◌, ◌⊎◌, ◌<◌, ◌*◌, ◌≤◌, ℕ, [], ◌∷◌, ◌++◌, length, map, OnOk, IfOk, IfErr};
ghost use Rattle.wf_model.specs.Lists.{IsIn};
ghost use Rattle.words_model.specs.Automata.{Move as SeenMove};
ghost use Rattle.words_model.specs.Lifting.{in_state};
ghost use Rattle.wf_spec.specs.FirstFaults.{HoldsThroughout, IsFirstFault};
ghost use Rattle.wf_automaton.specs.Rules.{move_of, name_rule, new_moves, IsMoveOf};
ghost use Rattle.wf_automaton.specs.Tables.{AreMovesOf};
ghost use Rattle.wf_automaton.specs.declared.fault.AutoFault.TheVariants.{NoMemory, UnknownModule};

use crate::automaton::{Move, place_in};
use crate::fault::AutoFault;
use crate::parts::MovePart;
use std::alloc::Global;
use wf_spec::Grammar;

/// Appends the move of a part, the one of this number, with the number of its module.
fn add_move(moves: &mut Vec<Move>, g: &Grammar, part: &MovePart, at: u64) -> Result<(), AutoFault>
    ensures added { OnOk result (moves.new.items ≡ moves.old.items ++ move_of g.now.core part.now ∷ []) }
    ensures known { OnOk result (IsMoveOf g.now.core part.now) }
    ensures refused { IfErr result (λ f. (f ≡ NoMemory) ⊎ ((f ≡ UnknownModule at) × ¬ IsMoveOf g.now.core part.now)) }
{
    let Some(module) = g.find(part.module.bytes()) else {
        return Err(AutoFault::UnknownModule { at });
    };
    moves.push(Move::new(part.from, module, part.to))?;
    Ok(())
}

/// The moves with the numbers of their modules.
///
/// Cost: for each move one look-up by hashing.
pub fn numbered(alloc: Global, g: &Grammar, parts: &[MovePart]) -> Result<Vec<Move>, AutoFault>
    ensures moves { IfOk result (λ moves. moves.items ≡ map (move_of g.now.core) parts.now) }
    ensures known { IfOk result (λ _. HoldsThroughout (name_rule g.now.core parts.now)) }
    ensures refused { IfErr result (λ f. (f ≡ NoMemory) ⊎ IsFirstFault (name_rule g.now.core parts.now ∷ []) f) }
{
    let mut moves = Vec::new(alloc);
    for (k, part) in parts.iter().enumerate() {
        add_move(&mut moves, g, part, k as u64)?;
    }
    Ok(moves)
}

/// Enters moves into a table that has none, as far as each has another state or module than those before it.
///
/// Cost: one look at the table for each move.
fn enter_moves(table: &mut [Option<u8>], states: u8, moves: &[Move]) -> Result<(), AutoFault>
    requires few { states ≤ 64 }
    requires below { (v : SeenMove) → IsIn v moves.now → (v.from < states) × (v.to < states) }
    requires places { (v : SeenMove) → IsIn v moves.now → in_state states v.from v.module_no < length table.old }
    requires small { length table.old ≤ 65536 }
    requires empty { AreMovesOf states [] table.old }
    ensures moves { OnOk result (AreMovesOf states moves.now table.new) }
    ensures new { OnOk result (HoldsThroughout (new_moves moves.now)) }
    ensures refused { IfErr result (IsFirstFault (new_moves moves.now ∷ [])) }
{
    for (k, one) in moves.iter().enumerate() {
        let place = place_in(states, one.from() as u8, one.module());
        if table[place].is_some() {
            return Err(AutoFault::MoveTwice { at: k as u64 });
        }
        table[place] = Some(one.to() as u8);
    }
    Ok(())
}

/// The table of where moves lead, with a place for each module and each state.
///
/// Cost: the size of the table, and one look at it for each move.
pub fn table_of(
    alloc: Global,
    states: u8,
    modules: usize,
    moves: &[Move],
) -> Result<Vec<Option<u8>>, AutoFault>
    requires few { states ≤ 64 }
    requires modules { modules ≤ 1024 }
    requires below { (v : SeenMove) → IsIn v moves.now → (v.from < states) × (v.module_no < modules) × (v.to < states) }
    ensures moves { IfOk result (λ table. AreMovesOf states moves.now table.items) }
    ensures new { IfOk result (λ _. HoldsThroughout (new_moves moves.now)) }
    ensures refused { IfErr result (λ f. (f ≡ NoMemory) ⊎ IsFirstFault (new_moves moves.now ∷ []) f) }
{
    let mut table = vec![in alloc; None; modules * states as usize]?;
    enter_moves(&mut table, states, moves)?;
    Ok(table)
}
