// LABELS: from bytes to the entries of a label file.
ghost use Rattle.std.specs.Prelude.{◌≡◌, ◌⊎◌, ◌≤◌, ◌^◌, List, None, IfOk, IfErr, length, codes};
ghost use Rattle.label_model.specs.Files.{Entry};
ghost use Rattle.label_file.specs.Stored.{AreHeldOf};
ghost use Rattle.wf_message.specs.Endings.{end_of, Refused, NoMemory};
ghost use Rattle.wf_stage.specs.Stages.{Declines, OfWhole};
ghost use Rattle.label_file.specs.FaultText.{store_text};
ghost use Rattle.wf_inputs.specs.LabelsTold.{TellsEntries, RefusesLabels};

use crate::faults::store_refusal;
use crate::kinds::LABELS;
use label_file::{Store, StoreFault};
use std::alloc::Global;
use wf_accept::Accepted;
use wf_json::digests;
use wf_message::{Stop, refused_whole};

/// The stop at a fault of a label file.
fn store_stop(fault: StoreFault) -> Stop
    ensures memory { fault ≡ StoreFault.NoMemory → end_of result ≡ NoMemory }
    ensures refused { (fault ≡ StoreFault.NoMemory) ⊎ (end_of result ≡ Refused (codes "labels") None (store_text fault)) }
{
    match fault {
        StoreFault::NoMemory => Stop::NoMemory,
        _ => refused_whole(LABELS.place, store_refusal(fault)),
    }
}

/// The entries of a label file of a grammar or of one of its earlier versions, which lie in its bytes. Their names are hashed with this key.
///
/// Refused with the first that there is of: NotLabels; OtherSpec; and, entry by entry, Truncated, BadName, NameTwice and BadLabel. `NoMemory` may come at any time.
///
/// Cost: those of `digests` and of `Store::open`.
pub fn store_of<'b>(
    alloc: Global,
    key: u64,
    spec: &Accepted,
    bytes: &'b [u8],
) -> Result<Store<'b>, Stop>
    requires few { length bytes.now ≤ 2 ^ 30 }
    ensures store { IfOk result (λ s. (entries : List Entry) × TellsEntries spec.now.grammar bytes.now entries × AreHeldOf spec.now.grammar.core entries s) }
    ensures declines { IfErr result (λ e. Declines (codes "labels") (OfWhole (RefusesLabels spec.now.grammar) bytes.now) (end_of e)) }
{
    let g = spec.linear();
    let Ok(digests) = digests(alloc, g.grammar) else {
        return Err(Stop::NoMemory);
    };
    match Store::open_with_key(alloc, key, g, &digests, bytes) {
        Ok(store) => Ok(store),
        Err(fault) => Err(store_stop(fault)),
    }
}
