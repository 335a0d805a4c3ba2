// The ranks and the cycles of grammars, by number. The values are worked by hand.
ghost use Rattle.wf_check.specs.Proper.{IsRankingOf};

use std::alloc::{AllocError, Global};
use std::test::Fail;
use wf_accept::Accepted;
use wf_check::{Proper, proper};
use wf_recur::CycleNo;
use wf_samples::{LINE, LOOP, PAIR, grammar, sample};
use wf_spec::{Grammar, ProdNo};

/// An S is done by an S and a P, by a B and a C, or by a P and an A; an A by two of A, by a P, or by two of P; a B by an A and a P; and a C by two of B. As an A stands twice in a body of its own it is not strictly linear, so no command takes it.
const RANKED: &str =
    r#"{"start":"S","modules":[{"name":"S"},{"name":"A"},{"name":"B"},{"name":"C"},{"name":"P"}],"productions":[{"head":"S","body":[["a","S"],["b","P"]]},{"head":"S","body":[["a","B"],["b","C"]]},{"head":"S","body":[["a","P"],["b","A"]]},{"head":"A","body":[["a","A"],["b","A"]]},{"head":"A","body":[["a","P"]]},{"head":"A","body":[["a","P"],["b","P"]]},{"head":"B","body":[["a","A"],["b","P"]]},{"head":"C","body":[["a","B"],["b","B"]]}]}"#;

/// The letter of a composite module of `RANKED`, its rank and its choice. An A ends with a P, by production 4. An S then ends by production 2 and a B by production 6, with an A and a P each, and a C by production 7, with two of B.
const RANKS: [(u8, u32, u16); 4] = [(b'S', 2, 2), (b'A', 1, 4), (b'B', 2, 6), (b'C', 3, 7)];

/// Whether the composite modules of `RANKED` have their ranks and choices, and the atomic one the rank 0.
fn are_ranked(g: &Grammar, p: &Proper) -> bool
    requires { IsRankingOf g.now.core p.now }
{
    for &(letter, rank, choice) in &RANKS {
        let Some(m) = g.find(&[letter]) else {
            return false;
        };
        if (p.rank(m), p.choice(m)) != (rank, ProdNo(choice)) {
            return false;
        }
    }
    match g.find(b"P") {
        Some(m) => p.rank(m) == 0,
        None => false,
    }
}

fn is_ranked(alloc: Global) -> Result<bool, Fail> {
    let g = grammar(alloc, RANKED)?;
    match proper(alloc, &g) {
        Ok(p) => Ok(are_ranked(&g, &p)),
        Err(_) => Err(Fail::new("a proper grammar")),
    }
}

#[test]
fn modules_have_ranks(rt: HostRuntime) -> Result<(), Fail> {
    assert!(rt; is_ranked(rt.alloc())?);
    Ok(())
}

/// S, A, B, C and D have the numbers 0 to 4. An S is done by a D and a B, an A by a P and a D, a B by a P and a B, a C by a P and an A, and a D by a C and a P; an A and a B also by a P alone.
const TWO_CYCLES: &str =
    r#"{"start":"S","modules":[{"name":"S"},{"name":"A"},{"name":"B"},{"name":"C"},{"name":"D"},{"name":"P"}],"productions":[{"head":"S","body":[["u","D"],["v","B"]]},{"head":"A","body":[["u","P"],["v","D"]]},{"head":"A","body":[["u","P"]]},{"head":"B","body":[["u","P"],["v","B"]]},{"head":"B","body":[["u","P"]]},{"head":"C","body":[["u","P"],["v","A"]]},{"head":"D","body":[["u","C"],["v","P"]]}]}"#;

/// The places of all cycles, each as the cycle, the place on it and the module there. In `LINE` nothing leads back. In `LOOP` an L leads to an L. In `PAIR` an A leads to a B and a B to an A, and A is the lesser. In `TWO_CYCLES` the cycle of A is the first, as A is lesser than B, and it goes from A to D, and from there to C, which leads back to A.
const PLACES: [(&str, &[(u16, u16, u16)]); 4] = [
    (LINE, &[]),
    (LOOP, &[(0, 0, 1)]),
    (PAIR, &[(0, 0, 0), (0, 1, 1)]),
    (TWO_CYCLES, &[(0, 0, 1), (0, 1, 4), (0, 2, 3), (1, 0, 2)]),
];

/// The places of all cycles of a grammar, by cycle and then by place.
fn places_of(alloc: Global, s: &Accepted) -> Result<Vec<(u16, u16, u16)>, AllocError> {
    let mut list = Vec::new(alloc);
    for cycle in 0..s.cycles().count() {
        for place in 0..s.cycles().length(CycleNo(cycle)) {
            let module = s.cycles().at(CycleNo(cycle), place);
            list.push((cycle, place, module.0))?;
        }
    }
    Ok(list)
}

/// Whether an atomic module P stands on no cycle.
fn is_off(s: &Accepted) -> bool {
    match s.grammar().find(b"P") {
        Some(m) => s.cycles().on(m).is_none(),
        None => false,
    }
}

/// Whether the cycles of the grammar of a text have these places, and its P stands on none.
fn has_places(alloc: Global, text: &str, places: &[(u16, u16, u16)]) -> Result<bool, Fail> {
    let s = sample(alloc, text)?;
    let found = places_of(alloc, &s)?;
    Ok(found.as_slice() == places && is_off(&s))
}

#[test]
fn cycles_are_gone_round_from_their_least_modules(rt: HostRuntime) -> Result<(), Fail> {
    for &(text, places) in &PLACES {
        assert!(rt; has_places(rt.alloc(), text, places)?, "at {text}");
    }
    Ok(())
}
