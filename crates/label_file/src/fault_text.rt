// How a fault of a label file is told.
ghost use Rattle.std.specs.Prelude.{◌≡◌};
ghost use Rattle.label_file.specs.FaultText.{store_name, store_spot};

use crate::fault::{StoreFault, StoreSpot};

impl StoreFault {
    /// The name of the fault in messages.
    pub fn name(self) -> &'static [u8]
        ensures { result.now ≡ store_name self }
    {
        match self {
            StoreFault::NotLabels => b"NotLabels",
            StoreFault::OtherSpec => b"OtherSpec",
            StoreFault::Truncated { offset: _ } => b"Truncated",
            StoreFault::BadName { entry: _ } => b"BadName",
            StoreFault::NameTwice { entry: _ } => b"NameTwice",
            StoreFault::BadLabel { entry: _ } => b"BadLabel",
            StoreFault::NoMemory => b"NoMemory",
        }
    }

    /// The place in a label file that the fault is about, if it is about one.
    pub fn spot(self) -> Option<StoreSpot>
        ensures { result ≡ store_spot self }
    {
        match self {
            StoreFault::NotLabels => None,
            StoreFault::OtherSpec => None,
            StoreFault::Truncated { offset } => Some(StoreSpot::Offset(offset)),
            StoreFault::BadName { entry } => Some(StoreSpot::Entry(entry)),
            StoreFault::NameTwice { entry } => Some(StoreSpot::Entry(entry)),
            StoreFault::BadLabel { entry } => Some(StoreSpot::Entry(entry)),
            StoreFault::NoMemory => None,
        }
    }
}
