// Files that can be read once alone.
ghost use Rattle.std.specs.Prelude.{◌≡◌, ◌++◌, ◌∷◌, ◌≤◌, true, false, [], List, take};
ghost use Rattle.wfprov.specs.Files.{is_noted};

use std::fs::Metadata;
use std::marker::Model;
use std::os::unix::fs::MetadataExt;

/// What tells a file from every other, whatever the path: its device, and its number on the device.
#[derive(Clone, Copy, PartialEq, Eq)]
pub struct FileId {
    device: u64,
    inode: u64,
}

/// The file of which the system tells this.
pub fn id_of(metadata: &Metadata) -> FileId {
    FileId {
        device: metadata.dev(),
        inode: metadata.ino(),
    }
}

/// More files than a command reads.
const MOST: usize = 8;

/// The files that were opened and can be read once alone: pipes, terminals and others that cannot be read at a place. Takes no memory.
#[derive(Drop)]
pub struct ReadOnce {
    ids: [FileId; MOST],
    count: usize,
}

impl Model for ReadOnce {
    ghost use Rattle.std.specs.Prelude.{◌≤◌, List, take};
    ghost use Rattle.wfprov.specs.declared.read_once.FileId.{FileId};

    ghost Value = { List FileId };

    ghost view = { λ s. take s.count s.ids };

    ghost invariant = { λ s. s.count ≤ 8 };
}

impl ReadOnce {
    /// No file.
    pub fn new() -> ReadOnce
        ensures { result ≡ [] }
    {
        let none = FileId {
            device: 0,
            inode: 0,
        };
        ReadOnce {
            ids: [none; MOST],
            count: 0,
        }
    }

    /// Whether the file was noted.
    pub fn has(&self, id: FileId) -> bool
        ensures { result ≡ is_noted id self.now }
    {
        self.ids[..self.count].contains(&id)
    }

    /// Notes the file. False where it was noted before, or where there is no room: then nothing changes.
    pub fn note(&mut self, id: FileId) -> bool
        ensures first { result ≡ true → is_noted id self.old ≡ false }
        ensures noted { result ≡ true → self.new ≡ self.old ++ (id ∷ []) }
        ensures same { result ≡ false → self.new ≡ self.old }
    {
        if self.has(id) || self.count == MOST {
            return false;
        }
        self.ids[self.count] = id;
        self.count += 1;
        true
    }
}
