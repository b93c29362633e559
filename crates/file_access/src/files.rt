// Files by name.
#![tactic(auto)]

ghost use Rattle.std.specs.Prelude.{◌≡◌, ◌<◌, ◌≤◌, ℕ, List, Option, Some, None, length, IfOk};
ghost use Rattle.std.specs.Prelude.{OnErr, OnOk, IsErrOf};
ghost use Rattle.file_access.specs.Holding.{Rose, SameFiles, IsReplaced};

use std::alloc::Global;

/// The longest file that is read: 64 MiB.
pub const FILE_LIMIT: usize = 67_108_864;

/// Why a file isn't read.
#[derive(Clone, Copy, PartialEq, Eq, Debug)]
pub enum ReadFault {
    /// There is no file of that name.
    Absent,
    /// The device failed.
    Device,
    /// The file is longer than the limit.
    TooLong,
    /// Memory was refused.
    Memory,
}

/// The device failed: a file isn't replaced.
#[derive(Clone, Copy, PartialEq, Eq, Debug)]
pub struct Device;

/// Files by name. The rest of the program knows nothing of them but this trait's calls.
pub trait Files {
    /// What the file of a name may hold: these bytes, or none where there is no such file. For files whose content a
    /// proof can know, as those of a map in memory, it is what they hold; for a folder of a disk it is anything.
    ghost holds: { Self → List ℕ → Option (List ℕ) → Type 0 };

    /// How often the device failed, as far as 2^64 - 1.
    ghost failed: { Self → ℕ };

    /// Reads a file of at most so many bytes. `Device` is answered only where the count of device failures rose in
    /// this call, or is at its greatest; it never falls. No file changes: what the files may hold stays as it was.
    fn read(&mut self, alloc: Global, name: &str, limit: usize) -> Result<Vec<u8>, ReadFault>
        ensures found { IfOk result (λ bytes. holds self.old name.now (Some bytes.items)
            × (length bytes.items ≤ limit)) }
        ensures absent { IsErrOf result ReadFault.Absent → holds self.old name.now None }
        ensures long { IsErrOf result ReadFault.TooLong → (bytes : List ℕ) × holds self.old name.now (Some bytes)
            × (limit < length bytes) }
        ensures device { IsErrOf result ReadFault.Device → Rose (failed self.old) (failed self.new) }
        ensures counted { failed self.old ≤ failed self.new }
        ensures kept { SameFiles (holds self.old) (holds self.new) };

    /// Replaces a file by these bytes, or makes it, whole or not at all: on a refusal no file changes, and the count of
    /// device failures rose in this call, or is at its greatest. Refused memory is a failure of the device.
    fn replace(&mut self, name: &str, bytes: Vec<u8>) -> Result<(), Device>
        ensures replaced { OnOk result (IsReplaced (holds self.old) name.now bytes.items (holds self.new)) }
        ensures device { OnErr result (Rose (failed self.old) (failed self.new)) }
        ensures counted { failed self.old ≤ failed self.new }
        ensures kept { OnErr result (SameFiles (holds self.old) (holds self.new)) };

    /// How often the device failed. At 2^64 - 1 the count stays.
    fn failures(&self) -> u64
        ensures { result ≡ failed self.now };
}
