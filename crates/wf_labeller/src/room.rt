// Names whose lengths have room in an entry.
ghost use Rattle.std.specs.Prelude.{◌≡◌, nat_le, length};
ghost use Rattle.std.specs.List.{list_all};

use wf_spec::Name;

/// Whether a name has at most 64 bytes. A run refuses a longer one.
pub(crate) fn has_room(name: &[u8]) -> bool
    ensures { result ≡ nat_le (length name.now) 64 }
{
    name.len() <= 64
}

/// Whether each name has at most 64 bytes.
pub(crate) fn have_room(names: &[Name]) -> bool
    ensures { result ≡ list_all (λ n. nat_le (length n) 64) names.now }
{
    names.iter().all(|name| has_room(name.bytes()))
}
