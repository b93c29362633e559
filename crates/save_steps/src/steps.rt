//! What a save does, one step at a time.

/// What tells of a save that isn't at its end.
#[derive(Clone, Copy, PartialEq, Eq, Debug)]
pub enum Paper {
    /// Nothing does.
    Absent,
    /// A plan: the new files that it names may stand in part, and no file is replaced.
    Plan,
    /// A note: all new files stood, and each takes its file's place.
    Note,
}

/// A step of a save, or of finishing one. Files go by their number, in the order in which they are declared.
#[derive(Clone, Copy, PartialEq, Eq, Debug)]
pub enum Step {
    /// The plan is written as a draft and brought to the device, takes its place, and the folder is brought to the
    /// device.
    WritePlan,
    /// The new file beside a file is made, and brought to the device.
    Make(usize),
    /// The folder is brought to the device.
    Sync,
    /// The note is written as a draft and brought to the device, takes the plan's place, and the folder is brought to
    /// the device. From then on the save counts.
    WriteNote,
    /// The new file beside a file takes its place, if it still stands beside it.
    Place(usize),
    /// The new file beside a file is removed, if there is one.
    Unmake(usize),
    /// A draft is removed, if there is one.
    RemoveDraft,
    /// The plan or the note is removed.
    RemovePaper,
}
