// What a label tells, part by part.
ghost use Rattle.std.specs.Prelude.{◌≡◌, ◌<◌, length, IfSome, MatchOption};
ghost use Rattle.label_model.specs.Labels.{Label, label_bits, IsLabel};
ghost use Rattle.wf_label.specs.Marks.{marks_of, mark_of, HasMarks, IsMarkOf, IsFirst, IsNext, AreLeft};
ghost use Rattle.wf_label.specs.Values.{AreLabelBits};

use crate::codes::Codes;
use crate::parts::continuing_step;
use crate::passing::passed;
use crate::place::{Front, Part, read_chain, read_front, read_part};
use crate::reference::LabelRef;
use bit_pack::BitReader;
use std::marker::Model;
use wf_recur::Linear;
use wf_spec::{EdgeNo, Grammar, ModNo, PortNo, ProdNo, Step};

/// What a label tells next.
#[derive(Clone, Copy, Debug, PartialEq, Eq)]
pub enum Mark {
    /// An input of the root.
    Input(PortNo),
    /// An output of the root.
    Output(PortNo),
    /// So many continuing steps.
    Chain(u32),
    /// A step that is not the continuing one.
    Into(Step),
    /// The production and the edge at which a place ends.
    End { production: ProdNo, edge: EdgeNo },
}

/// What is ahead in a label.
#[derive(Clone, Copy)]
enum Ahead {
    /// All of it.
    Whole,
    /// A place at a module, with a chain number first if the module is on a cycle.
    Entered(ModNo),
    /// A step or an ending at a module.
    Passed(ModNo),
    /// Nothing.
    Nothing,
}

/// Reads a step or an ending at a module.
#[inline(always)]
fn part_mark<R: Codes>(g: &Grammar, bits: &mut R, m: ModNo) -> (Mark, Ahead)
    requires { HasMarks g.now.core (Ahead.Passed m) (R.reading bits.old).left }
    ensures first { IsFirst g.now.core (Ahead.Passed m) (R.reading bits.old).left result.0 result.1 (R.reading bits.new).left }
    ensures fewer { length (R.reading bits.new).left < length (R.reading bits.old).left }
{
    match read_part(g, bits, m) {
        Part::Into { step, to } => (Mark::Into(step), Ahead::Entered(to)),
        Part::End { production, edge } => (Mark::End { production, edge }, Ahead::Nothing),
    }
}

/// Reads the chain number of a module, or what comes next if the module is on no cycle.
#[inline(always)]
fn place_mark<R: Codes>(g: Linear<'_>, bits: &mut R, m: ModNo) -> (Mark, Ahead)
    requires marks { HasMarks g.grammar.now.core (Ahead.Entered m) (R.reading bits.old).left }
    ensures first { IsFirst g.entry.grammar.now.core (Ahead.Entered m) (R.reading bits.old).left result.0 result.1 (R.reading bits.new).left }
    ensures fewer { length (R.reading bits.new).left < length (R.reading bits.old).left }
{
    // A grammar is well-formed.
    let _formed = g.grammar.start();
    if continuing_step(g, m).is_none() {
        return part_mark(g.grammar, bits, m);
    }
    let c = read_chain(g.grammar, bits, m);
    (Mark::Chain(c), Ahead::Passed(passed(g, m, c)))
}

/// Reads a port of the root, or the first mark of the place of an edge.
#[inline(always)]
fn label_mark<R: Codes>(g: Linear<'_>, bits: &mut R) -> (Mark, Ahead)
    requires marks { HasMarks g.grammar.now.core Ahead.Whole (R.reading bits.old).left }
    ensures first { IsFirst g.entry.grammar.now.core Ahead.Whole (R.reading bits.old).left result.0 result.1 (R.reading bits.new).left }
    ensures fewer { length (R.reading bits.new).left < length (R.reading bits.old).left }
{
    match read_front(g.grammar, bits) {
        Front::Input(port) => (Mark::Input(port), Ahead::Nothing),
        Front::Output(port) => (Mark::Output(port), Ahead::Nothing),
        Front::OfEdge => place_mark(g, bits, g.grammar.start()),
    }
}

/// Reads the first mark of what is ahead, and tells what is ahead then.
#[inline(always)]
fn read_mark<R: Codes>(g: Linear<'_>, bits: &mut R, ahead: Ahead) -> Option<(Mark, Ahead)>
    requires marks { HasMarks g.grammar.now.core ahead (R.reading bits.old).left }
    ensures first { MatchOption result ((ahead ≡ Ahead.Nothing) × (bits.new ≡ bits.old)) (λ r. IsFirst g.entry.grammar.now.core ahead (R.reading bits.old).left r.0 r.1 (R.reading bits.new).left) }
    ensures fewer { IfSome result (λ _. length (R.reading bits.new).left < length (R.reading bits.old).left) }
{
    match ahead {
        Ahead::Whole => Some(label_mark(g, bits)),
        Ahead::Entered(m) => Some(place_mark(g, bits, m)),
        Ahead::Passed(m) => Some(part_mark(g.grammar, bits, m)),
        Ahead::Nothing => None,
    }
}

/// A reader of the marks of a label, one after another.
///
/// It takes no memory. A chain number is told as one mark, however many steps it stands for, and is not walked step by step.
#[derive(Drop)]
pub struct Cursor<'g, R: Codes> {
    g: Linear<'g>,
    bits: R,
    ahead: Ahead,
}

impl<'g, R: Codes> Model for Cursor<'g, R> {
    ghost use Rattle.wf_label.specs.Marks.{CursorSeen, HasMarks};

    ghost Value = { CursorSeen };

    ghost view = { λ c. record { grammar = c.g.grammar.now.core; ahead = c.ahead; left = (R.reading c.bits).left } };

    ghost invariant = { λ c. HasMarks c.g.grammar.now.core c.ahead (R.reading c.bits).left };
}

impl<'g, R: Codes> Cursor<'g, R> {
    /// The next mark, and None behind the last.
    ///
    /// Cost: linear in the bits of the mark.
    #[inline(always)]
    pub fn next(&mut self) -> Option<Mark>
        ensures next { IsNext self.old result self.new }
        ensures named { IfSome result (λ k. IsMarkOf self.old.grammar (mark_of k)) }
        ensures fewer { IfSome result (λ _. length self.new.left < length self.old.left) }
        ensures same { self.new.grammar ≡ self.old.grammar }
    {
        let (mark, ahead) = read_mark(self.g, &mut self.bits, self.ahead)?;
        self.ahead = ahead;
        Some(mark)
    }
}

impl<'a> LabelRef<'a> {
    /// A reader of the marks of a label of the grammar, from its first on.
    pub fn cursor<'g>(&self, g: Linear<'g>) -> Cursor<'g, BitReader<'a>>
        requires label { AreLabelBits g.grammar.now.core self.now }
        ensures marks { (l : Label) → IsLabel g.entry.grammar.now.core l → self.now ≡ label_bits l → AreLeft result (marks_of g.entry.grammar.now.core l) }
        ensures grammar { result.grammar ≡ g.entry.grammar.now.core }
    {
        Cursor {
            g,
            bits: self.reader(),
            ahead: Ahead::Whole,
        }
    }
}
