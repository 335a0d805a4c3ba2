// What keeps entries.
ghost use Rattle.std.specs.Prelude.{◌≡◌, ◌≤◌, ◌++◌, ℕ, List, length, OnOk, OnErr};
ghost use Rattle.wf_model.specs.Items.{dotted};
ghost use Rattle.label_model.specs.Files.{Entry, entry_bytes};

use label_file::append_item;
use std::alloc::AllocError;

/// What keeps entries, one behind another: a list of them, or the text of a label file.
pub(crate) trait Keeper {
    /// What an entry is made of here.
    ghost Part: { Type 0 };

    /// The parts of an entry.
    ghost parts_of: { Entry → List Part };

    /// The parts that are kept.
    ghost kept: { Self → List Part };

    /// Keeps the entry of the item that is named by an instance and a port. The only error is that memory is refused, and then all is as it was.
    fn keep(&mut self, instance: &[u8], port: &[u8], label: &[u8]) -> Result<(), AllocError>
        requires name { length (dotted instance.now port.now) ≤ 129 }
        requires label { length label.now ≤ 65535 }
        ensures ok { OnOk result (kept self.new ≡ kept self.old ++ parts_of (record { name = dotted instance.now port.now; label = label.now })) }
        ensures err { OnErr result (kept self.new ≡ kept self.old) };
}

/// A text keeps the bytes of an entry, as they stand in a label file.
impl Keeper for Vec<u8> {
    ghost Part = { ℕ };

    ghost parts_of = { entry_bytes };

    ghost kept = { λ text. text.items };

    fn keep(&mut self, instance: &[u8], port: &[u8], label: &[u8]) -> Result<(), AllocError> {
        append_item(instance, port, label, self)
    }
}
