// Witnesses, true ones and false ones, whose truth was worked out by hand.
ghost use Rattle.std.specs.Prelude.{◌≡◌};
ghost use Rattle.wf_model.specs.Proper.{IsProper};
ghost use Rattle.wf_check.specs.Proper.{IsRankingOf};

use std::alloc::{AllocError, Global};
use std::test::Fail;
use wf_accept::Accepted;
use wf_safe::{Choice, SafeFault, Witness, check_witness, full_deps};
use wf_samples::{grammar, sample, view};
use wf_spec::{ModNo, PortNo, ProdNo, Seq};
use wf_view::GrammarView;

/// An S is done by an L, an L by a W and an L behind it, or by a W, and a W by a T or by a U. T keeps its two ports. U does too, and also leads its second input to its first output.
const CIRCLING: &str =
    r#"{"start":"S","modules":[{"name":"S","in":["a1","a2"],"out":["b1","b2"]},{"name":"L","in":["x1","x2"],"out":["y1","y2"]},{"name":"W","in":["x1","x2"],"out":["y1","y2"]},{"name":"T","in":["x1","x2"],"out":["y1","y2"]},{"name":"U","in":["x1","x2"],"out":["y1","y2"]}],"productions":[{"head":"S","body":[["u","L"]],"edges":[],"in":[["a1","u.x1"],["a2","u.x2"]],"out":[["u.y1","b1"],["u.y2","b2"]]},{"head":"L","body":[["w","W"],["l","L"]],"edges":[["w.y1","l.x1"],["w.y2","l.x2"]],"in":[["x1","w.x1"],["x2","w.x2"]],"out":[["l.y1","y1"],["l.y2","y2"]]},{"head":"L","body":[["w","W"]],"edges":[],"in":[["x1","w.x1"],["x2","w.x2"]],"out":[["w.y1","y1"],["w.y2","y2"]]},{"head":"W","body":[["t","T"]],"edges":[],"in":[["x1","t.x1"],["x2","t.x2"]],"out":[["t.y1","y1"],["t.y2","y2"]]},{"head":"W","body":[["t","U"]],"edges":[],"in":[["x1","t.x1"],["x2","t.x2"]],"out":[["t.y1","y1"],["t.y2","y2"]]}],"deps":[{"module":"T","pairs":[["x1","y1"],["x2","y2"]]},{"module":"U","pairs":[["x1","y1"],["x2","y1"],["x2","y2"]]}]}"#;

/// A choice of modules and productions.
type Chosen<'a> = &'a [(u16, u16)];

/// An L by a W, and a W by a T.
const ENDING: Chosen = &[(0, 0), (1, 2), (2, 3)];

/// An L by a W and an L, without end, and a W by a T.
const ENDLESS: Chosen = &[(0, 0), (1, 1), (2, 3)];

/// Each line: a choice; a module and two productions of it; a pair, and whether the first expansion joins it; and whether such a witness is true.
const MADE: [(Chosen, (u16, u16, u16), (u8, u8, bool), bool); 16] = [
    // Pairs and productions of W, right ones and wrong ones.
    (ENDING, (2, 3, 4), (1, 0, false), true),
    (ENDING, (2, 3, 4), (1, 0, true), false),
    (ENDING, (2, 3, 4), (0, 0, true), false),
    (ENDING, (2, 3, 3), (1, 0, false), false),
    (ENDING, (2, 4, 3), (1, 0, true), false),
    (ENDING, (2, 3, 2), (1, 0, false), false),
    (ENDING, (2, 3, 99), (1, 0, false), false),
    (ENDING, (9, 3, 4), (1, 0, false), false),
    (ENDING, (2, 3, 4), (2, 0, false), false),
    (ENDING, (1, 2, 1), (1, 0, false), false),
    // A choice that leaves a module out, one that is out of order, and one of a production of another module.
    (&[(0, 0), (2, 3)], (2, 3, 4), (1, 0, false), false),
    (&[(1, 2), (0, 0), (2, 3)], (2, 3, 4), (1, 0, false), false),
    (&[(0, 0), (1, 3), (2, 3)], (2, 3, 4), (1, 0, false), false),
    // A choice that runs in a circle, and one whose circle neither expansion meets.
    (ENDLESS, (1, 1, 2), (1, 0, false), false),
    (ENDLESS, (1, 1, 2), (1, 0, true), false),
    (ENDLESS, (2, 3, 4), (1, 0, false), true),
];

/// A witness: the choice as modules and productions; the module and its two productions; the pair, and whether the first expansion joins it.
fn made(
    alloc: Global,
    choice: Chosen,
    productions: (u16, u16, u16),
    pair: (u8, u8, bool),
) -> Result<Witness, AllocError> {
    let mut list = Vec::new(alloc);
    for (m, p) in choice {
        list.push(Choice {
            module: ModNo(*m),
            production: ProdNo(*p),
        })?;
    }
    Ok(Witness {
        module: ModNo(productions.0),
        one: ProdNo(productions.1),
        other: ProdNo(productions.2),
        input: PortNo(pair.0),
        output: PortNo(pair.1),
        joined_by_one: pair.2,
        choice: Seq::from_vec(list),
    })
}

/// Whether a witness that is made of these parts is true.
fn is_true(
    alloc: Global,
    choice: Chosen,
    productions: (u16, u16, u16),
    pair: (u8, u8, bool),
) -> Result<bool, Fail> {
    let g = grammar(alloc, CIRCLING)?;
    let v = view(alloc, &g, r#"{"expand":["S","L","W"]}"#)?;
    let w = made(alloc, choice, productions, pair)?;
    let sight = GrammarView {
        grammar: &g,
        view: &v,
    };
    Ok(check_witness(alloc, sight, &w)?)
}

#[test]
fn made_witnesses_are_checked(rt: HostRuntime) -> Result<(), Fail> {
    for &(choice, productions, pair, wanted) in &MADE {
        assert!(rt;
            is_true(rt.alloc(), choice, productions, pair)? == wanted,
            "{choice:?} {productions:?} {pair:?}"
        );
    }
    Ok(())
}

/// An S is done by an L, and an L by a W and an L behind it, or by a T. W exchanges its two ports, T keeps them.
const SKEWED: &str =
    r#"{"start":"S","modules":[{"name":"S","in":["a1","a2"],"out":["b1","b2"]},{"name":"L","in":["x1","x2"],"out":["y1","y2"]},{"name":"W","in":["x1","x2"],"out":["y1","y2"]},{"name":"T","in":["x1","x2"],"out":["y1","y2"]}],"productions":[{"head":"S","body":[["u","L"]],"edges":[],"in":[["a1","u.x1"],["a2","u.x2"]],"out":[["u.y1","b1"],["u.y2","b2"]]},{"head":"L","body":[["w","W"],["l","L"]],"edges":[["w.y1","l.x1"],["w.y2","l.x2"]],"in":[["x1","w.x1"],["x2","w.x2"]],"out":[["l.y1","y1"],["l.y2","y2"]]},{"head":"L","body":[["t","T"]],"edges":[],"in":[["x1","t.x1"],["x2","t.x2"]],"out":[["t.y1","y1"],["t.y2","y2"]]}],"deps":[{"module":"W","pairs":[["x1","y2"],["x2","y1"]]},{"module":"T","pairs":[["x1","y1"],["x2","y2"]]}]}"#;

/// The view that expands S and L.
const S_AND_L: &str = r#"{"expand":["S","L"]}"#;

/// The witness that a view is not safe.
fn witness(alloc: Global, s: &Accepted, sight: GrammarView<'_>) -> Result<Witness, Fail>
    requires grammar { sight.grammar.now ≡ s.now.grammar }
{
    match full_deps(alloc, sight, s.ranking()) {
        Err(SafeFault::Unsafe { witness }) => Ok(witness),
        _ => Err(Fail::new("a view that is not safe")),
    }
}

/// Whether a witness that is told is true, and whether it still is once it tells the other expansion.
fn told_and_changed(alloc: Global) -> Result<(bool, bool), Fail> {
    let s = sample(alloc, SKEWED)?;
    let v = view(alloc, s.grammar(), S_AND_L)?;
    let sight = GrammarView {
        grammar: s.grammar(),
        view: &v,
    };
    let mut w = witness(alloc, &s, sight)?;
    let told = check_witness(alloc, sight, &w)?;
    w.joined_by_one = !w.joined_by_one;
    let changed = check_witness(alloc, sight, &w)?;
    Ok((told, changed))
}

#[test]
fn told_witnesses_are_true(rt: HostRuntime) -> Result<(), Fail> {
    assert!(rt; told_and_changed(rt.alloc())? == (true, false));
    Ok(())
}
