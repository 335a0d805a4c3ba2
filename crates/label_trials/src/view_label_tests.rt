// Labels of views, whose matrices were worked by hand. A row of a matrix is a number, in which bit `j` stands for column `j`: so the rows 1 and 2 keep two ports, and the rows 2 and 1 exchange them.
ghost use Rattle.std.specs.Prelude.{◌≡◌, IsTrue};
ghost use Rattle.wf_body.specs.Matrices.{step_of};
ghost use Rattle.wf_vlabel.specs.Seen.{IsLabelOfView, Opens};

use std::alloc::Global;
use std::test::Fail;
use wf_recur::CycleNo;
use wf_safe::SafeView;
use wf_samples::{PAIR, TWISTING, safe, sample};
use wf_spec::{PosNo, ProdNo, Step};
use wf_vlabel::ViewLabel;

const KEPT: &[u64] = &[1, 2];

const EXCHANGED: &[u64] = &[2, 1];

const UNJOINED: &[u64] = &[0, 0];

/// The rows of a matrix of one pair.
const ONE: &[u64] = &[1];

/// What is told of a matrix that a view does not show.
const HIDDEN: &[u64] = &[];

/// What the label of a view tells: the rows of the pairs of a module; those of the way in and of the way out of a step, by its production and its position; those of the matrix from a step to another position of its body; or how many continuing steps lead from a place of the first cycle to the first module that is not expanded.
enum Told {
    Full(&'static str, &'static [u64]),
    Ways((u16, u8), &'static [u64], &'static [u64]),
    Between((u16, u8), u8, &'static [u64]),
    Cut(u16, Option<u32>),
}

/// Each line: a specification, a view, and what its label tells.
const LABELS: [(&str, &str, &[Told]); 6] = [
    (
        TWISTING,
        "{}",
        &[
            Told::Full("S", KEPT),
            Told::Full("L", KEPT),
            Told::Full("W", EXCHANGED),
            Told::Full("T", KEPT),
            Told::Ways((0, 0), KEPT, KEPT),
            Told::Ways((1, 0), KEPT, EXCHANGED),
            Told::Ways((1, 1), EXCHANGED, EXCHANGED),
            Told::Ways((1, 2), EXCHANGED, KEPT),
            Told::Ways((2, 0), KEPT, KEPT),
            Told::Between((1, 0), 1, KEPT),
            Told::Between((1, 1), 2, KEPT),
            Told::Between((1, 0), 2, KEPT),
            Told::Between((1, 1), 0, UNJOINED),
            Told::Between((1, 1), 1, UNJOINED),
            Told::Cut(0, None),
        ],
    ),
    (TWISTING, r#"{"expand":["S"]}"#, &[Told::Cut(0, Some(0))]),
    (PAIR, "{}", &[Told::Cut(0, None), Told::Cut(1, None)]),
    (
        PAIR,
        r#"{"expand":["A"]}"#,
        &[
            Told::Full("A", ONE),
            Told::Full("B", ONE),
            Told::Full("P", ONE),
            Told::Full("Q", HIDDEN),
            Told::Ways((0, 0), ONE, ONE),
            Told::Ways((0, 1), ONE, ONE),
            Told::Ways((2, 1), HIDDEN, HIDDEN),
            Told::Between((0, 0), 1, ONE),
            Told::Between((2, 0), 1, HIDDEN),
            Told::Cut(0, Some(1)),
            Told::Cut(1, Some(0)),
        ],
    ),
    (
        PAIR,
        r#"{"expand":["B"]}"#,
        &[Told::Cut(0, Some(0)), Told::Cut(1, Some(1))],
    ),
    (PAIR, r#"{"expand":[]}"#, &[Told::Cut(1, Some(0))]),
];

/// A step by a production to a position.
fn step(at: (u16, u8)) -> Step {
    Step {
        production: ProdNo(at.0),
        position: PosNo(at.1),
    }
}

/// The rows of the pairs of a module; none of a module that is not seen.
fn full_rows<'v>(v: &SafeView<'_>, label: &'v ViewLabel<'_>, name: &[u8]) -> &'v [u64]
    requires grammar { label.now.grammar ≡ v.now.accepted.grammar.core }
    requires label { IsLabelOfView label.now v.now.view.core }
{
    let Some(m) = label.grammar().find(name) else {
        return HIDDEN;
    };
    if !v.view().seen(m) {
        return HIDDEN;
    }
    label.full(m).rows
}

/// Whether a step leaves a module that is seen and expanded.
fn is_open(v: &SafeView<'_>, label: &ViewLabel<'_>, s: Step) -> bool
    requires grammar { label.now.grammar ≡ v.now.accepted.grammar.core }
    requires label { IsLabelOfView label.now v.now.view.core }
    ensures { IsTrue result → Opens label.now (step_of s) }
{
    let g = label.grammar();
    if s.production.0 as usize >= g.productions().len() {
        return false;
    }
    let rule = g.production(s.production);
    let head = rule.head();
    let view = v.view();
    (s.position.0 as usize) < rule.positions().len() && view.seen(head) && view.expanded(head)
}

/// The rows of the way in and of the way out of a step; none of a step that the view does not show.
fn way_rows<'v>(v: &SafeView<'_>, label: &'v ViewLabel<'_>, s: Step) -> (&'v [u64], &'v [u64])
    requires grammar { label.now.grammar ≡ v.now.accepted.grammar.core }
    requires label { IsLabelOfView label.now v.now.view.core }
{
    if !is_open(v, label, s) {
        return (HIDDEN, HIDDEN);
    }
    (label.into_position(s).rows, label.out_of_position(s).rows)
}

/// The rows of the matrix from a position to another; none where the view does not show their body.
fn between_rows<'v>(v: &SafeView<'_>, label: &'v ViewLabel<'_>, s: Step, to: PosNo) -> &'v [u64]
    requires grammar { label.now.grammar ≡ v.now.accepted.grammar.core }
    requires label { IsLabelOfView label.now v.now.view.core }
{
    let other = Step {
        production: s.production,
        position: to,
    };
    if !is_open(v, label, s) || !is_open(v, label, other) {
        return HIDDEN;
    }
    label.between(s, to).rows
}

/// Whether so many continuing steps lead from a place of the first cycle to the first module that is not expanded.
fn is_cut(label: &ViewLabel<'_>, place: u16, wanted: Option<u32>) -> bool {
    let cycles = label.cycles();
    if cycles.count() == 0 || place >= cycles.length(CycleNo(0)) {
        return false;
    }
    label.cut(CycleNo(0), place) == wanted
}

/// Whether the label of a view tells this.
fn tells(v: &SafeView<'_>, label: &ViewLabel<'_>, told: &Told) -> bool
    requires grammar { label.now.grammar ≡ v.now.accepted.grammar.core }
    requires label { IsLabelOfView label.now v.now.view.core }
{
    match *told {
        Told::Full(name, wanted) => full_rows(v, label, name.as_bytes()) == wanted,
        Told::Ways(at, into, out) => {
            let ways = way_rows(v, label, step(at));
            ways.0 == into && ways.1 == out
        }
        Told::Between(at, to, wanted) => between_rows(v, label, step(at), PosNo(to)) == wanted,
        Told::Cut(place, wanted) => is_cut(label, place, wanted),
    }
}

/// The number of the first of these that the label of a view of a grammar does not tell.
fn first_wrong(alloc: Global, spec: &str, view: &str, all: &[Told]) -> Result<Option<usize>, Fail> {
    let s = sample(alloc, spec)?;
    let safe = safe(alloc, &s, view)?;
    let label = ViewLabel::build(alloc, &safe)?;
    for k in 0..all.len() {
        if !tells(&safe, &label, &all[k]) {
            return Ok(Some(k));
        }
    }
    Ok(None)
}

#[test]
fn labels_of_views_have_their_matrices(rt: HostRuntime) -> Result<(), Fail> {
    for (spec, view, all) in &LABELS {
        let wrong = first_wrong(rt.alloc(), spec, view, all)?;
        assert!(rt; wrong.is_none(), "{wrong:?} under {view} of {spec}");
    }
    Ok(())
}
