// The lines of a chain, as they are taken one after the other.
ghost use Rattle.std.specs.Prelude.{◌≡◌, [], List};
ghost use Rattle.wf_message.specs.Endings.{End};
ghost use Rattle.wf_stage.specs.LineEnds.{told_end};
ghost use Rattle.wf_chain.specs.ViewedRuns.{ViewedRunValue};
ghost use Rattle.wf_reason.specs.HandedIn.{HandedLine, chain_ends, TakesHanded, RefusesHanded};
ghost use Rattle.wf_reason.specs.Standing.{AreTakenSo, IsOfRun};
ghost use Rattle.wf_reason.specs.Taking.{NothingMade, MakesNothing, NeverStops, IsTakenBy};
ghost use Rattle.wf_reason.specs.Faults.{wrong_end};

use crate::fault::LineWrong;
use crate::line::read_line;
use crate::standing::Standing;
use crate::turn::Turn;
use wf_chain::ViewedRun;
use wf_lines::Taker;

/// What takes the lines of a chain of a run: whose turn the next line is, how those before it stand, and the number of the last.
#[derive(Drop)]
pub(crate) struct Checking<'c, 'r> {
    pub(crate) run: &'c ViewedRun<'r>,
    pub(crate) turn: Turn,
    pub(crate) standing: Standing,
    pub(crate) last: u64,
}

impl Taker for Checking<'_, '_> {
    type Fault = LineWrong;

    ghost State = { List HandedLine };

    ghost End = { End };

    ghost is_ready = { λ t. IsOfRun t.run.now t.standing };

    ghost is_at = { λ t. AreTakenSo t.run.now t.turn t.last t.standing };

    ghost is_sound = { λ lines. Unit {0} };

    ghost takes = { TakesHanded };

    ghost stops = { RefusesHanded };

    ghost begins = { NothingMade };

    ghost is_within = { λ t. IsTakenBy (AreTakenSo t.run.now t.turn t.last t.standing) };

    ghost left = { λ t. 0 };

    ghost finishes = { MakesNothing };

    ghost stops_at_end = { NeverStops };

    ghost ends = { chain_ends };

    ghost end_of = { λ f. told_end (wrong_end f) };

    ghost wants_memory = { ⊥ };

    ghost made = { λ t. [] };

    ghost Known = { ViewedRunValue };

    ghost is_known = { λ t v. (t.run.now ≡ v) × IsOfRun t.run.now t.standing };

    fn take(&mut self, number: u64, text: &[u8]) -> Result<(), LineWrong> {
        let Some(name) = read_line(self.turn, text) else {
            return Err(LineWrong { line: number });
        };
        self.standing = self.standing.with_line(self.run, number, name);
        self.turn = self.turn.next();
        self.last = number;
        Ok(())
    }

    fn more(&mut self) -> Result<bool, LineWrong> {
        Ok(false)
    }

    fn finish(&mut self) -> Result<(), LineWrong> {
        Ok(())
    }

    fn made(&self) -> &[u8] {
        &[]
    }
}
