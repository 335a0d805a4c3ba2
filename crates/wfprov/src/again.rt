// Calls of the system that are made again.
ghost use Rattle.std.specs.Prelude.{◌≡◌};
ghost use Rattle.std.specs.IoError.{error_kind};
ghost use Rattle.wfprov.specs.Calls.{is_passing};

use std::io::{Error, ErrorKind};
use std::thread;
use std::time::Duration;

/// How long it waits before it makes a call again that would have had to wait, in milliseconds.
const PAUSE: u64 = 1;

/// Whether a call that failed is made again: at once where a signal interrupted it, and after a pause where it would have had to wait.
///
/// A stream that does not wait by itself is so waited for. A pause takes no processor, and a pipe of 64 KiB that is emptied in each still moves 64 MB a second.
pub fn is_made_again(rt: &HostRuntime, error: &Error) -> bool
    ensures { result ≡ is_passing (error_kind error.now) }
{
    match error.kind() {
        ErrorKind::Interrupted => true,
        ErrorKind::WouldBlock => {
            thread::sleep(rt, Duration::from_millis(PAUSE));
            true
        }
        _ => false,
    }
}
