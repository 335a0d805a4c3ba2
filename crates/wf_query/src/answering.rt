// What answers queries, as what takes the lines of a file.
ghost use Rattle.std.specs.Prelude.{◌≡◌, ◌++◌, [], codes};
ghost use Rattle.wf_lines.specs.BegunLines.{MakesAtOnce};
ghost use Rattle.wf_query.specs.Lines.{Ended, IsOneWord, TakesQuery, StopsQueries, query_ends};
ghost use Rattle.wf_query.specs.Answering.{IsAnswered, NeverStops, Kept, MakesNothing, query_end};

use crate::answerer::Answerer;
use crate::answers::line_of;
use crate::query::read_query;
use wf_lines::Taker;

/// Why the query of a line is not answered.
#[derive(Clone, Copy, Debug, PartialEq, Eq)]
pub(crate) enum QueryFault {
    /// The line of this number, from 1, is not two item names with one space between.
    Wrong { line: u64 },
    /// Memory was refused.
    NoMemory,
}

/// What answers queries, and the line of the last answer. A query makes its line at once.
pub(crate) struct Answering<'a, A> {
    pub(crate) answerer: &'a mut A,
    pub(crate) made: &'static [u8],
}

impl<A: Answerer> Taker for Answering<'_, A> {
    type Fault = QueryFault;

    ghost State = { A.Known };

    ghost End = { Ended };

    ghost is_ready = { λ s. A.is_ready s.answerer.now };

    ghost is_at = { λ s k. A.is_known s.answerer.now k };

    ghost is_sound = { λ k. IsOneWord (A.words k) };

    ghost takes = { TakesQuery A.words };

    ghost stops = { StopsQueries };

    ghost begins = { MakesAtOnce (TakesQuery A.words) };

    ghost is_within = { λ s p. IsAnswered A.words p × A.is_known s.answerer.now p.state };

    ghost left = { λ s. 0 };

    ghost finishes = { MakesNothing };

    ghost stops_at_end = { NeverStops };

    ghost ends = { query_ends };

    ghost end_of = { query_end };

    ghost wants_memory = { A.wants_memory };

    ghost made = { λ s. s.made.now };

    ghost Known = { Kept A.Known };

    ghost is_known = { λ s k. (s.answerer.ghost_name ≡ k.name) × A.is_ready s.answerer.now × A.is_known s.answerer.now k.known };

    fn look_ahead(&mut self, text: &[u8]) {
        self.answerer.look_ahead(text);
    }

    fn take(&mut self, number: u64, text: &[u8]) -> Result<(), QueryFault> {
        self.made = b"";
        let Ok(query) = read_query(text) else {
            return Err(QueryFault::Wrong { line: number });
        };
        let Ok(told) = self.answerer.answer(&query) else {
            return Err(QueryFault::NoMemory);
        };
        self.made = line_of(told);
        Ok(())
    }

    fn more(&mut self) -> Result<bool, QueryFault> {
        self.made = b"";
        Ok(false)
    }

    fn finish(&mut self) -> Result<(), QueryFault> {
        self.made = b"";
        Ok(())
    }

    fn made(&self) -> &[u8] {
        self.made
    }
}
