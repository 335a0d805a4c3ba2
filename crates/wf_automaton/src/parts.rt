// An automaton as it is read, by names that may hold any bytes.
ghost use Rattle.std.specs.Prelude.{◌≡◌};
ghost use Rattle.wf_automaton.specs.Forms.{move_form};

use serde_json::Value;
use std::alloc::{AllocError, Global};
use wf_json::{FromJson, triple};
use wf_model::{Name, Seq};

/// A move, as read.
#[derive(Drop)]
pub struct MovePart {
    pub from: u64,
    pub module: Name,
    pub to: u64,
}

/// An automaton, as read.
#[derive(Drop)]
pub struct AutoParts {
    pub states: u64,
    pub start: u64,
    pub accept: Seq<u64>,
    pub moves: Seq<MovePart>,
}

impl FromJson for MovePart {
    ghost form = { move_form };

    fn from_json(alloc: Global, value: &Value) -> Result<Option<MovePart>, AllocError> {
        let Some((from, (module, to))) = triple::<u64, Name, u64>(alloc, value)? else {
            return Ok(None);
        };
        Ok(Some(MovePart { from, module, to }))
    }
}
