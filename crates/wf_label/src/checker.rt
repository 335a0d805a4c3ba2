// Labels that are tried one after another, each from where it parts from those before it.
ghost use Rattle.std.specs.Prelude.{◌≡◌, ◌*◌, ◌<◌, ◌≤◌, length, take, drop, IfOk, IfErr, IfSome, IsErr, OnOk, IsTrue};
ghost use Rattle.std.specs.List.{All};
ghost use Rattle.wf_model.specs.Grammar.{Grammar};
ghost use Rattle.bit_pack.specs.Bits.{bits_of, number, Holds};
ghost use Rattle.label_model.specs.Reading.{IsPadding, IsLabelBytes, IsLabelLeft, IsPartLeft};
ghost use Rattle.wf_label.specs.Parts.{IsPassed, IsNextLeft, at_front};
ghost use Rattle.wf_label.specs.Checkpoints.{IsLeftAt, GoesOn, IsCheckpoint, IsShared};
ghost use Rattle.wf_label.specs.Values.{AreLabelBits};

use crate::check::Malformed;
use crate::parts::{pass_chain, pass_part};
use crate::reference::LabelRef;
use crate::short::{ShortBytes, ShortReader};
use std::marker::Model;
use wf_recur::Linear;
use wf_spec::ModNo;

/// How many checkpoints are kept.
const CHECKPOINTS: usize = 32;

/// The first bits of some label, from 1 to 63 of them, as a number, and the module at which the label goes on behind them: with a place, or, where the
/// chain number was passed, with a step or an ending.
#[derive(Clone, Copy)]
pub(crate) struct Checkpoint {
    pub(crate) front: u64,
    pub(crate) bits: u8,
    pub(crate) chained: bool,
    pub(crate) at: ModNo,
}

/// The checkpoint at a place.
#[inline(always)]
fn checkpoint_at(checkpoints: &[Checkpoint; CHECKPOINTS], i: usize) -> Checkpoint
    requires { i < 32 }
    ensures { (g : Grammar) → All (IsCheckpoint g) checkpoints.now → IsCheckpoint g result }
{
    checkpoints[i]
}

/// Whether a label begins with the bits of a checkpoint.
#[inline(always)]
fn begins_with(short: ShortBytes<'_>, checkpoint: Checkpoint) -> bool
    requires some { 0 < checkpoint.bits }
    ensures inside { IsTrue result → checkpoint.bits ≤ 8 * length short.entry.bytes.now }
    ensures front { IsTrue result → number (take checkpoint.bits (bits_of short.entry.bytes.now)) ≡ checkpoint.front }
{
    let bits = checkpoint.bits as usize;
    if bits > 8 * short.bytes.len() {
        return false;
    }
    short.front(bits) == checkpoint.front
}

/// Tries bytes as labels of a grammar, one label after another.
///
/// The labels of one event share all but their last codes. So what was read of a label is kept as checkpoints, and the next label is read from the last
/// checkpoint with whose bits it begins. A caller sees the grammar alone: the answer for a label is the same, whatever was tried before it.
#[derive(Drop)]
pub struct Checker<'g> {
    g: Linear<'g>,
    checkpoints: [Checkpoint; CHECKPOINTS],
    count: usize,
}

impl<'g> Model for Checker<'g> {
    ghost use Rattle.std.specs.Prelude.{◌≤◌};
    ghost use Rattle.std.specs.List.{All};
    ghost use Rattle.wf_model.specs.Grammar.{Grammar};
    ghost use Rattle.wf_label.specs.Checkpoints.{IsCheckpoint};

    ghost Value = { Grammar };

    ghost view = { λ c. c.g.grammar.now.core };

    ghost invariant = { λ c. (c.count ≤ 32) × All (IsCheckpoint c.g.grammar.now.core) c.checkpoints };
}

impl<'g> Checker<'g> {
    /// A checker of labels of this grammar.
    pub fn new(g: Linear<'g>) -> Checker<'g>
        ensures { result ≡ g.entry.grammar.now.core }
    {
        let first = Checkpoint {
            front: 1,
            bits: 1,
            chained: false,
            at: g.grammar.start(),
        };
        Checker {
            g,
            checkpoints: [first; CHECKPOINTS],
            count: 1,
        }
    }

    /// Tries bytes as a label, as `LabelRef::check` does.
    ///
    /// Takes no memory. Cost: one comparison for each checkpoint that is given up, and linear in the bits behind the last that is not. A label of a port
    /// of the root, or of more than eight bytes, costs what `LabelRef::check` does.
    #[inline(always)]
    pub fn check<'a>(&mut self, bytes: &'a [u8]) -> Result<LabelRef<'a>, Malformed>
        ensures label { IfOk result (λ r. AreLabelBits self.old r × Holds bytes.now r) }
        ensures malformed { IfErr result (λ _. IsLabelBytes self.old bytes.now → ⊥) }
        ensures same { self.new ≡ self.old }
    {
        let Some(short) = ShortBytes::of(bytes) else {
            return LabelRef::check(self.g, bytes);
        };
        let Some(checkpoint) = self.go_back(short) else {
            return LabelRef::check(self.g, bytes);
        };
        self.check_from(short, checkpoint)
    }

    /// The last checkpoint with whose bits a label begins; None where there is none. Those behind it are given up.
    #[inline(always)]
    fn go_back(&mut self, short: ShortBytes<'_>) -> Option<Checkpoint>
        ensures shared { IfSome result (IsShared self.old (bits_of short.entry.bytes.now)) }
        ensures same { self.new ≡ self.old }
    {
        let mut left = self.count;
        while left > 0 {
            let checkpoint = checkpoint_at(&self.checkpoints, left - 1);
            if begins_with(short, checkpoint) {
                self.count = left;
                return Some(checkpoint);
            }
            left -= 1;
        }
        None
    }

    /// Tries a label from a checkpoint on.
    #[inline(always)]
    fn check_from<'a>(
        &mut self,
        short: ShortBytes<'a>,
        checkpoint: Checkpoint,
    ) -> Result<LabelRef<'a>, Malformed>
        requires shared { IsShared self.old (bits_of short.bytes.now) checkpoint }
        ensures label { IfOk result (λ r. AreLabelBits self.old r × Holds short.entry.bytes.now r) }
        ensures malformed { IfErr result (λ _. IsLabelBytes self.old short.entry.bytes.now → ⊥) }
        ensures same { self.new ≡ self.old }
    {
        let mut reader = ShortReader::new(short, checkpoint.bits as usize);
        self.pass_rest(short, &mut reader, checkpoint)?;
        if reader.padding() {
            Ok(LabelRef::new(short.bytes, reader.at() as u32))
        } else {
            Err(Malformed)
        }
    }

    /// Passes a label from a checkpoint on, up to its padding.
    #[inline(always)]
    fn pass_rest(
        &mut self,
        short: ShortBytes<'_>,
        reader: &mut ShortReader<'_>,
        checkpoint: Checkpoint,
    ) -> Result<(), Malformed>
        requires in_range { checkpoint.at.0 < length self.old.modules }
        requires passed { IsPassed (IsLabelLeft self.old) (IsLeftAt self.old checkpoint.chained checkpoint.at.0) (at_front short.bytes.now) reader.old }
        ensures passed { OnOk result (IsPassed (IsLabelLeft self.old) IsPadding (at_front short.entry.bytes.now) reader.new) }
        ensures malformed { IsErr result → ¬ IsLabelLeft self.old (bits_of short.entry.bytes.now) }
        ensures same { self.new ≡ self.old }
    {
        let mut next = self.pass_next(short, reader, checkpoint.chained, checkpoint.at)?;
        while let Some(m) = next {
            self.keep(short, reader.at(), false, m);
            next = self.pass_next(short, reader, false, m)?;
        }
        Ok(())
    }

    /// Passes a step or an ending, and before it the chain number, unless that was passed. Of a step it gives the module to which the step leads.
    #[inline(always)]
    fn pass_next(
        &mut self,
        short: ShortBytes<'_>,
        reader: &mut ShortReader<'_>,
        chained: bool,
        m: ModNo,
    ) -> Result<Option<ModNo>, Malformed>
        requires in_range { m.0 < length self.old.modules }
        requires passed { IsPassed (IsLabelLeft self.old) (IsLeftAt self.old chained m.0) (at_front short.bytes.now) reader.old }
        ensures in_range { IfOk result (λ o. IfSome o (λ k. k.0 < length self.old.modules)) }
        ensures passed { IfOk result (λ o. IsPassed (IsLabelLeft self.old) (IsNextLeft self.old o) (at_front short.entry.bytes.now) reader.new) }
        ensures fewer { OnOk result (length reader.new.left < length reader.old.left) }
        ensures malformed { IsErr result → ¬ IsLabelLeft self.old (bits_of short.entry.bytes.now) }
        ensures same { self.new ≡ self.old }
    {
        let k = self.pass_to_part(short, reader, chained, m)?;
        pass_part(self.g, reader, k)
    }

    /// Passes the chain number of a module, unless it was passed, and keeps a checkpoint behind it. Gives the module to which it leads.
    #[inline(always)]
    fn pass_to_part(
        &mut self,
        short: ShortBytes<'_>,
        reader: &mut ShortReader<'_>,
        chained: bool,
        m: ModNo,
    ) -> Result<ModNo, Malformed>
        requires in_range { m.0 < length self.old.modules }
        requires passed { IsPassed (IsLabelLeft self.old) (IsLeftAt self.old chained m.0) (at_front short.bytes.now) reader.old }
        ensures in_range { IfOk result (λ k. k.0 < length self.old.modules) }
        ensures passed { IfOk result (λ k. IsPassed (IsLabelLeft self.old) (IsPartLeft self.old k.0) (at_front short.entry.bytes.now) reader.new) }
        ensures fewer { OnOk result (length reader.new.left ≤ length reader.old.left) }
        ensures malformed { IsErr result → ¬ IsLabelLeft self.old (bits_of short.entry.bytes.now) }
        ensures same { self.new ≡ self.old }
    {
        if chained {
            return Ok(m);
        }
        let k = pass_chain(self.g, reader, m)?;
        self.keep(short, reader.at(), true, k);
        Ok(k)
    }

    /// Keeps a checkpoint behind the first bits of a label, so many, if there is room.
    #[inline(always)]
    fn keep(&mut self, short: ShortBytes<'_>, bits: usize, chained: bool, at: ModNo)
        requires in_range { at.0 < length self.old.modules }
        requires inside { bits ≤ 8 * length short.bytes.now }
        requires goes_on { GoesOn self.old (take bits (bits_of short.bytes.now)) chained at.0 }
        ensures { self.new ≡ self.old }
    {
        if bits == 0 || bits >= 64 || self.count == CHECKPOINTS {
            return;
        }
        self.checkpoints[self.count] = Checkpoint {
            front: short.front(bits),
            bits: bits as u8,
            chained,
            at,
        };
        self.count += 1;
    }
}
