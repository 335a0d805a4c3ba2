// Why bytes are refused as a label file.
ghost use Rattle.std.specs.Prelude.{◌≡◌};
ghost use Rattle.label_file.specs.declared.fault.StoreFault.TheVariants.{NoMemory};

use std::alloc::AllocError;

/// The place in a label file that a fault is about: an offset in bytes, or an entry by its number, both from 0.
#[derive(Clone, Copy, Debug, PartialEq, Eq)]
pub enum StoreSpot {
    Offset(u64),
    Entry(u32),
}

/// Why bytes are refused as a label file, in the order of trial: the head first, and then entry by entry. Want of memory may come at any place.
#[derive(Clone, Copy, Debug, PartialEq, Eq)]
pub enum StoreFault {
    /// There are fewer than 36 bytes, or they do not begin with `WFL1`.
    NotLabels,
    /// The digest is none of those that were given.
    OtherSpec,
    /// The entry at this offset is not whole.
    Truncated { offset: u64 },
    /// The name of the entry of this number, from 0, is not that of an item.
    BadName { entry: u32 },
    /// An entry before the entry of this number has its name.
    NameTwice { entry: u32 },
    /// The label of the entry of this number is none of the grammar.
    BadLabel { entry: u32 },
    /// Memory was refused.
    NoMemory,
}

impl From<AllocError> for StoreFault {
    ghost from_gives = { λ _ e. e ≡ NoMemory };

    fn from(_fault: AllocError) -> StoreFault {
        StoreFault::NoMemory
    }
}
