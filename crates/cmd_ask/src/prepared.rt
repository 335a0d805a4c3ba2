// What queries on a run are answered from.
use std::marker::Model;
use wf_flat::{Flat, PlainRun};
use wf_safe::SafeView;

/// A run of a grammar, and its flat graph under a safe view.
#[derive(Drop)]
pub struct Prepared<'p> {
    pub(crate) viewed: &'p SafeView<'p>,
    pub(crate) run: &'p PlainRun,
    pub(crate) flat: Flat,
}

impl<'p> Model for Prepared<'p> {
    ghost use Rattle.cmd_ask.specs.Prepared.{PreparedSeen};
    ghost use Rattle.cmd_ask.specs.Told.{IsReady};

    ghost Value = { PreparedSeen };

    ghost view = { λ p. record { viewed = p.viewed.now; run = p.run.now; flat = p.flat } };

    ghost invariant = { λ p. IsReady (record { viewed = p.viewed.now; run = p.run.now; flat = p.flat }) };
}
