//! What stands at a file that a note names.

ghost use Rattle.std.specs.Prelude.{◌≡◌, position};
ghost use Rattle.std.specs.List.{list_any};
ghost use Rattle.save_steps.specs.Finishing.{is_foreign, slot_of as slot_between};

/// The SHA-256 sum of a file.
pub type Sum = [u8; 32];

/// What stands at a file that a note names.
#[derive(Clone, Copy, PartialEq, Eq, Debug)]
pub enum Slot {
    /// The new file stands beside the file, which is as it was, or as it is to be already.
    Waiting,
    /// The new file has taken the file's place.
    Placed,
    /// Another program has changed one of the two.
    Foreign,
}

/// What stands at a file. `target` and `beside` are the sums of what stands now under its name and under its new file's
/// name. `old` and `new` are the sums of what it was and of what it is to be.
#[tactic(auto, unfolding(crate::specs::Finishing::slot_of))]
pub fn slot_of(target: Option<Sum>, beside: Option<Sum>, old: Option<Sum>, new: Sum) -> Slot
    ensures { result ≡ slot_between target beside old new }
{
    if beside == Some(new) {
        if target == old || target == Some(new) {
            return Slot::Waiting;
        }
        return Slot::Foreign;
    }
    if beside.is_none() && target == Some(new) {
        return Slot::Placed;
    }
    Slot::Foreign
}

/// Whether another program has changed a file.
pub(crate) fn has_foreign(slots: &[Slot]) -> bool
    ensures { result ≡ list_any is_foreign slots.now }
{
    slots.iter().any(|slot| matches!(slot, Slot::Foreign))
}

/// The number of the first file that another program has changed.
pub fn first_foreign(slots: &[Slot]) -> Option<usize>
    ensures { result ≡ position is_foreign slots.now }
{
    slots.iter().position(|slot| matches!(slot, Slot::Foreign))
}
