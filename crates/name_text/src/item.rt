// Item names.
ghost use Rattle.std.specs.Prelude.{◌≡◌, ◌++◌, ℕ, List, IfSome, IfNone};
ghost use Rattle.wf_model.specs.Items.{IsNameOf, IsItemName};
ghost use Rattle.name_text.specs.Fronts.{BeginsOtherwise, HasItemFirst};

use crate::short::{is_sized, names_first};

/// The names of the instance and of the port of an item whose name stands at the front, and the bytes behind it, which begin with no byte of a name. None where no item's name stands there so.
///
/// Cost: linear in the bytes, each of which is looked at once. Takes no memory.
#[inline(always)]
fn front_item(bytes: &[u8]) -> Option<(&[u8], &[u8], &[u8])>
    ensures some { IfSome result (λ p. HasItemFirst bytes.now p.0.now p.1.now p.2.now) }
    ensures none { IfNone result ((a b c : List ℕ) → HasItemFirst bytes.now a b c → ⊥) }
{
    let (instance, behind) = names_first(bytes);
    let Some((next, after)) = behind.split_first() else {
        return None;
    };
    if *next != b'.' {
        return None;
    }
    let (port, rest) = names_first(after);
    if !is_sized(instance) {
        return None;
    }
    if !is_sized(port) {
        return None;
    }
    Some((instance, port, rest))
}

/// The name of an item at the front, and the bytes behind it, which begin with no byte of a name. None where none stands there so.
///
/// Cost: linear in the bytes, each of which is looked at once. Takes no memory.
#[inline]
pub fn cut_item(bytes: &[u8]) -> Option<(&[u8], &[u8])>
    ensures whole { IfSome result (λ p. bytes.now ≡ p.0.now ++ p.1.now) }
    ensures item { IfSome result (λ p. IsItemName p.0.now) }
    ensures ends { IfSome result (λ p. BeginsOtherwise p.1.now) }
    ensures none { IfNone result ((item rest : List ℕ) → bytes.now ≡ item ++ rest → IsItemName item → BeginsOtherwise rest → ⊥) }
{
    let Some((_, _, rest)) = front_item(bytes) else {
        return None;
    };
    Some((&bytes[..bytes.len() - rest.len()], rest))
}

/// Splits the name of an item into the name of its instance and that of its port.
///
/// None where the bytes are no item name. Cost: linear in the name. Takes no memory.
#[inline]
pub fn split_item(name: &[u8]) -> Option<(&[u8], &[u8])>
    ensures some { IfSome result (λ p. IsNameOf name.now p.0.now p.1.now) }
    ensures none { IfNone result (IsItemName name.now → ⊥) }
{
    let Some((instance, port, rest)) = front_item(name) else {
        return None;
    };
    if !rest.is_empty() {
        return None;
    }
    Some((instance, port))
}
