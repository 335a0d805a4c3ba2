// The generator of the events of a run.
ghost use Rattle.std.specs.Prelude.{◌≡◌, ◌<◌, [], true, IfOk, OnErr};
ghost use Rattle.wf_gen.specs.Draws.{draw, drawn};
ghost use Rattle.wf_gen.specs.Turns.{generated};
ghost use Rattle.wf_gen.specs.Coming.{IsNext, IsNextLine, all_of};

use crate::choice::draw;
use crate::next::{next_event, next_line};
use crate::turn::State;
use rand_core::SeedableRng;
use rand_pcg::Pcg32;
use std::alloc::{AllocError, Global};
use std::marker::Model;
use wf_recur::Linear;
use wf_spec::Event;

/// A generator of a valid run: its events, one after the other, each of which extends the run of those before it. The grammar, the number of expansions, the seed and the limit determine them, the same on every machine.
#[derive(Drop)]
pub struct Gen<'a> {
    alloc: Global,
    linear: Linear<'a>,
    most: u32,
    left: u32,
    state: State,
}

impl<'a> Model for Gen<'a> {
    ghost use Rattle.wf_gen.specs.Coming.{Coming, coming};
    ghost use Rattle.wf_gen.specs.Held.{IsKept, state_of};

    ghost Value = { Coming };

    ghost view = { λ g. coming g.linear.grammar.now.core g.most g.left (state_of g.state) };

    ghost invariant = { λ g. IsKept g.linear.grammar.now.core g.most (state_of g.state) };
}

impl<'a> Gen<'a> {
    /// A generator of the run of at most `n` expansions that a seed gives, with at most `most` instances. Takes no memory.
    ///
    /// The root is named `n0`, and further instances `n1`, `n2` and so on as they are made. Each turn draws two 32-bit words, `d` and then `e`, of the PCG32 generator that the seed gives, and expands the pending instance at place `d` modulo their number. Where its module stands on a cycle, and it is the only one pending or `e` modulo 4 is not 0, the production is the one that stays on the cycle, and else the alternative `e` / 4 modulo their number. The last pending instance then takes the place of the one that was expanded, and the composite children follow.
    pub fn new(alloc: Global, linear: Linear<'a>, n: u32, seed: u64, most: u32) -> Gen<'a>
        requires room { 0 < most }
        ensures { result ≡ all_of (generated linear.entry.grammar.now.core n seed most) }
    {
        Gen {
            alloc,
            linear,
            most,
            left: n,
            state: State {
                made: 0,
                pending: Vec::new(alloc),
                draws: Pcg32::seed_from_u64(seed),
            },
        }
    }

    /// The next event, and None where there is none: `n` instances were expanded, nothing is pending, or the next event would pass the limit of instances. The two draws of a turn that would pass the limit are spent.
    ///
    /// The only error is that memory is refused, and then the generator is as it was.
    ///
    /// Cost: two draws, and one look at each position of the body, however long the run is.
    pub fn next(&mut self) -> Result<Option<Event>, AllocError>
        ensures next { IfOk result (λ e. IsNext self.old e self.new) }
        ensures unchanged { OnErr result (self.new ≡ self.old) }
    {
        next_event(
            self.alloc,
            self.linear,
            self.most,
            &mut self.left,
            &mut self.state,
        )
    }

    /// Appends the line of the next event: the text that `wf_events::write_event` appends for what `next` gives, and a newline. The answer is whether there is one, as for `next`; otherwise nothing is appended.
    ///
    /// The only error is that memory is refused, and then the generator and the text are as they were.
    ///
    /// Cost: that of `next`, and linear in the line. No name is made: memory is taken for the text and for the pending instances alone.
    pub fn write_next(&mut self, to: &mut Vec<u8>) -> Result<bool, AllocError>
        ensures next { IfOk result (λ given. IsNextLine self.old given self.new to.old.items to.new.items) }
        ensures unchanged { OnErr result (self.new ≡ self.old) }
        ensures same_text { OnErr result (to.new.items ≡ to.old.items) }
    {
        next_line(self.linear, self.most, &mut self.left, &mut self.state, to)
    }

    /// The next draw after the last event, once `next` has answered None, or `write_next` false. Takes no memory.
    pub fn draw(&mut self) -> u32
        requires { self.old.ended ≡ true }
        ensures draw { result ≡ draw self.old.draws }
        ensures after { self.new ≡ record { events = []; draws = drawn self.old.draws; ended = true } }
    {
        draw(&mut self.state.draws)
    }
}
