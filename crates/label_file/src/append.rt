// The parts of a label file, appended to bytes.
ghost use Rattle.std.specs.Prelude.{◌≡◌, ◌+◌, ◌/◌, ◌%◌, ◌<◌, ◌≤◌, [], ◌∷◌, ◌++◌, length, take, vec_len, vec_capacity, OnOk, OnErr};
ghost use Rattle.wf_model.specs.Items.{dotted};
ghost use Rattle.label_model.specs.Files.{entry_bytes, head_bytes};

use crate::laying::{lay, lay_byte};
use std::alloc::AllocError;

/// Appends the head of a label file: the four letters `WFL1` and the digest of a grammar.
///
/// The only error is that memory is refused, and then nothing is appended. Memory for the head is taken at once.
pub fn append_head(digest: &[u8; 32], to: &mut Vec<u8>) -> Result<(), AllocError>
    ensures head { OnOk result (to.new.items ≡ to.old.items ++ head_bytes digest.now) }
    ensures err { OnErr result (to.new.items ≡ to.old.items) }
{
    to.reserve(36)?;
    put(b"WFL1", to);
    put(digest, to);
    Ok(())
}

/// Puts a part for which there is room.
fn put(part: &[u8], to: &mut Vec<u8>)
    requires { vec_len to.old + length part.now ≤ vec_capacity to.old }
    ensures items { to.new.items ≡ to.old.items ++ part.now }
    ensures len { vec_len to.new ≡ vec_len to.old + length part.now }
    ensures capacity { vec_capacity to.old ≤ vec_capacity to.new }
{
    to.extend_from_slice(part).unwrap();
}

/// Puts the length of a label in two bytes, the higher first, and the label. There is room for both.
fn put_label(label: &[u8], to: &mut Vec<u8>)
    requires label { length label.now ≤ 65535 }
    requires room { vec_len to.old + length label.now + 2 ≤ vec_capacity to.old }
    ensures { to.new.items ≡ to.old.items ++ (length label.now / 256 ∷ length label.now % 256 ∷ []) ++ label.now }
{
    put(&(label.len() as u16).to_be_bytes(), to);
    put(label, to);
}

/// Appends an entry: one byte with the length of the name, the name, two bytes with the length of the label in bytes, the higher byte first, and the label.
///
/// The only error is that memory is refused, and then nothing is appended. Cost: linear in the entry, for which memory is taken at once.
pub fn append_entry(name: &[u8], label: &[u8], to: &mut Vec<u8>) -> Result<(), AllocError>
    requires name { length name.now ≤ 129 }
    requires label { length label.now ≤ 65535 }
    ensures entry { OnOk result (to.new.items ≡ to.old.items ++ entry_bytes (record { name = name.now; label = label.now })) }
    ensures err { OnErr result (to.new.items ≡ to.old.items) }
{
    to.reserve(name.len() + label.len() + 3)?;
    to.push_reserved(name.len() as u8);
    put(name, to);
    put_label(label, to);
    Ok(())
}

/// Lays a short entry into bytes from a place on. Gives the place behind it.
#[inline(always)]
fn lay_item(out: &mut [u8], begin: usize, instance: &[u8], port: &[u8], label: &[u8]) -> usize
    requires room { begin + (length (dotted instance.now port.now) + length label.now + 3) ≤ length out.old }
    requires short { length (dotted instance.now port.now) + length label.now < 256 }
    ensures { take result out.new ≡ take begin out.old ++ entry_bytes (record { name = dotted instance.now port.now; label = label.now }) }
{
    let name = instance.len() + port.len() + 1;
    let first = lay_byte(out, begin, name as u8);
    let dot = lay(out, first, instance);
    let second = lay_byte(out, dot, b'.');
    let high = lay(out, second, port);
    let low = lay_byte(out, high, 0);
    let third = lay_byte(out, low, label.len() as u8);
    lay(out, third, label)
}

/// How many bytes a short entry has at most: as many as are stored at once, before its parts are laid over them.
const SHORT: usize = 48;

/// Appends a short entry. The only error is that memory is refused, and then nothing is appended.
#[inline(always)]
fn append_short(
    instance: &[u8],
    port: &[u8],
    label: &[u8],
    to: &mut Vec<u8>,
) -> Result<(), AllocError>
    requires { length (dotted instance.now port.now) + length label.now + 3 ≤ 48 }
    ensures entry { OnOk result (to.new.items ≡ to.old.items ++ entry_bytes (record { name = dotted instance.now port.now; label = label.now })) }
    ensures err { OnErr result (to.new.items ≡ to.old.items) }
{
    let begin = to.len();
    to.extend_from_slice(&[0; SHORT])?;
    let end = lay_item(to, begin, instance, port, label);
    to.truncate(end);
    Ok(())
}

/// Appends the entry of the item that is named by an instance and a port, as `append_entry` does: its name is these two with a dot between.
///
/// The only error is that memory is refused, and then nothing is appended. Cost: linear in the entry, for which memory is taken at once.
pub fn append_item(
    instance: &[u8],
    port: &[u8],
    label: &[u8],
    to: &mut Vec<u8>,
) -> Result<(), AllocError>
    requires name { length (dotted instance.now port.now) ≤ 129 }
    requires label { length label.now ≤ 65535 }
    ensures entry { OnOk result (to.new.items ≡ to.old.items ++ entry_bytes (record { name = dotted instance.now port.now; label = label.now })) }
    ensures err { OnErr result (to.new.items ≡ to.old.items) }
{
    let count = instance.len() + port.len() + 1;
    if count + label.len() + 3 <= SHORT {
        return append_short(instance, port, label, to);
    }
    to.reserve(count + label.len() + 3)?;
    to.push_reserved(count as u8);
    put(instance, to);
    to.push_reserved(b'.');
    put(port, to);
    put_label(label, to);
    Ok(())
}
