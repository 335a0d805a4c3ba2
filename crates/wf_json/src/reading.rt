// The value of a JSON text.
ghost use Rattle.std.specs.Prelude.{◌≡◌, IfOk, IfErr};
ghost use Rattle.serde_json.specs.View.{view};
ghost use Rattle.wf_json.specs.Reading.{IsReading, IsUnread};

use serde_json::Value;
use std::alloc::Global;

/// Why bytes give no value, in the order of trial.
#[derive(Clone, Copy, Debug, PartialEq, Eq)]
pub enum TextFault {
    /// The bytes are not UTF-8, or no JSON value.
    NotJson,
    /// Memory was refused.
    NoMemory,
}

/// Reads one JSON value, which is the whole text.
///
/// Errors: NotJson where the bytes are not UTF-8 or no JSON value of at most 127 levels; NoMemory where memory was refused.
///
/// Cost: one reading of the text by `serde_json`.
pub fn read_value(alloc: Global, bytes: &[u8]) -> Result<Value, TextFault>
    ensures ok { IfOk result (λ v. IsReading bytes.now (view v)) }
    ensures refused { IfErr result (λ f. IsUnread bytes.now f) }
{
    match Value::from_slice(alloc, bytes) {
        Ok(value) => Ok(value),
        Err(e) => {
            if e.is_memory() {
                Err(TextFault::NoMemory)
            } else {
                Err(TextFault::NotJson)
            }
        }
    }
}
