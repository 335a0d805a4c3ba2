// Rows of bits for the pairs of a module in each state.
ghost use Rattle.std.specs.Prelude.{◌≡◌, ◌<◌, ◌≤◌, ◌*◌, ◌+◌, ◌==◌, [], ◌∷◌, length, IfOk, replicate};
ghost use Rattle.std.specs.Int.{bit_at};
ghost use Rattle.wf_spec.specs.Rows.{AreAdded};
ghost use Rattle.words_model.specs.Lifting.{lift_pairs};
ghost use Rattle.wf_lift.specs.RowPairs.{bit_pair, row_pairs, set_pairs};

use crate::numbers::in_state;
use std::alloc::{AllocError, Global};
use wf_automaton::Automaton;
use wf_spec::{ModNo, same_rows};

/// Whether a row has the bit of an output.
fn has_bit(row: u64, output: u8) -> bool
    requires { output < 64 }
    ensures { result ≡ (bit_at row output == 1) }
{
    (row >> output) & 1 == 1
}

/// Adds a pair of a module, from each state to the next.
fn add_pair(rows: &mut [u64], automaton: &Automaton, states: u8, m: ModNo, input: u8, output: u8)
    requires same { automaton.now.states ≡ states }
    requires input { input * states + states ≤ length rows.old }
    requires few { length rows.old ≤ 64 }
    requires output { output * states + states ≤ 64 }
    ensures as_many { length rows.new ≡ length rows.old }
    ensures added { AreAdded (lift_pairs automaton.now m.0 ((input, output) ∷ [])) rows.old rows.new }
{
    let _formed = automaton.states();
    for s in 0..states {
        let i = in_state(states, s, input);
        let t = automaton.next(s, m);
        let o = in_state(states, t, output);
        rows[i as usize] |= 1 << o;
    }
}

/// Adds a pair of a module, from each state to the next, if its bit is set in the row of the input.
fn add_if_set(
    rows: &mut [u64],
    automaton: &Automaton,
    states: u8,
    m: ModNo,
    input: u8,
    row: u64,
    output: u8,
)
    requires same { automaton.now.states ≡ states }
    requires input { input * states + states ≤ length rows.old }
    requires few { length rows.old ≤ 64 }
    requires output { output * states + states ≤ 64 }
    requires low { output < 64 }
    ensures as_many { length rows.new ≡ length rows.old }
    ensures added { AreAdded (lift_pairs automaton.now m.0 (bit_pair input row output)) rows.old rows.new }
{
    if has_bit(row, output) {
        add_pair(rows, automaton, states, m, input, output);
    }
}

/// Adds the pairs of an input of a module, from each state to the next.
fn add_row(
    rows: &mut [u64],
    automaton: &Automaton,
    states: u8,
    m: ModNo,
    input: u8,
    row: u64,
    outputs: u8,
)
    requires same { automaton.now.states ≡ states }
    requires input { input * states + states ≤ length rows.old }
    requires few { length rows.old ≤ 64 }
    requires outputs { outputs * states ≤ 64 }
    requires few_outputs { outputs ≤ 64 }
    ensures as_many { length rows.new ≡ length rows.old }
    ensures added { AreAdded (lift_pairs automaton.now m.0 (row_pairs input row outputs)) rows.old rows.new }
{
    let _formed = automaton.states();
    for o in 0..outputs {
        add_if_set(rows, automaton, states, m, input, row, o);
    }
}

/// Adds the pairs of the inputs of a module, from each state to the next.
fn add_rows(
    rows: &mut [u64],
    automaton: &Automaton,
    states: u8,
    m: ModNo,
    shown: &[u64],
    outputs: u8,
)
    requires same { automaton.now.states ≡ states }
    requires room { length rows.old ≡ length shown.now * states }
    requires few { length rows.old ≤ 64 }
    requires few_inputs { length shown.now ≤ 64 }
    requires outputs { outputs * states ≤ 64 }
    requires few_outputs { outputs ≤ 64 }
    ensures as_many { length rows.new ≡ length rows.old }
    ensures added { AreAdded (lift_pairs automaton.now m.0 (set_pairs shown.now outputs)) rows.old rows.new }
{
    let _formed = automaton.states();
    for i in 0..shown.len() {
        add_row(rows, automaton, states, m, i as u8, shown[i], outputs);
    }
}

/// The rows of the pairs of a module in each state, from those of its pairs.
pub fn lift_rows(
    alloc: Global,
    automaton: &Automaton,
    states: u8,
    m: ModNo,
    rows: &[u64],
    outputs: u8,
) -> Result<Vec<u64>, AllocError>
    requires same { automaton.now.states ≡ states }
    requires inputs { length rows.now * states ≤ 64 }
    requires few_inputs { length rows.now ≤ 64 }
    requires outputs { outputs * states ≤ 64 }
    requires few_outputs { outputs ≤ 64 }
    ensures as_many { IfOk result (λ list. length list.items ≡ length rows.now * states) }
    ensures added { IfOk result (λ list.
        AreAdded (lift_pairs automaton.now m.0 (set_pairs rows.now outputs)) (replicate (length rows.now * states) 0) list.items) }
{
    let mut lifted = same_rows(alloc, rows.len() * states as usize, 0)?;
    add_rows(&mut lifted, automaton, states, m, rows, outputs);
    Ok(lifted)
}
