// A text for a sink, as the last part of a stage.
ghost use Rattle.wf_stage.specs.Ends.{IsWritten};
ghost use Rattle.wf_stage.specs.Promises.{Writes};
ghost use Rattle.std.specs.Prelude.{◌≡◌, ◌≢◌, [], IsOk};
ghost use Rattle.wf_message.specs.Endings.{end_after, NoMemory};

use wf_io::Sink;
use wf_message::Stop;

/// Puts a text that was made whole. Where it has no bytes, nothing is put. It wants no memory.
pub fn put_text<O: Sink>(out: &mut O, text: &[u8]) -> Result<(), Stop>
    ensures writes { Writes O.put_bytes O.faults O.at_last [] (IsWritten text.now) out.old out.new (end_after result) }
    ensures idle { text.now ≡ [] → IsOk result × (out.new ≡ out.old) }
    ensures made { end_after result ≢ NoMemory }
{
    if text.is_empty() {
        return Ok(());
    }
    match out.put(text) {
        Ok(()) => Ok(()),
        Err(_) => Err(Stop::WriteFault),
    }
}
