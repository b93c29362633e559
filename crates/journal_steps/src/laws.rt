//! What follows of it. The function does nothing: its contract is the law.

ghost use Rattle.std.specs.Prelude.{List};
ghost use Rattle.journal_steps.specs.Folder.{Visit};
ghost use Rattle.journal_steps.specs.Promise.{AreClean, IsKeptAndSavedOnce};

/// What holds over any number of sessions of a conversation. Each session may be stopped at any moment. Between two of
/// them its save may be forgotten, and other programs may change the tables or put them back. No line that a machine
/// has taken is lost. Each session begins with all lines that are kept. No save is made twice in the same tables. No
/// machine runs over tables in which one was made, and none goes on over changed ones.
pub fn nothing_typed_is_lost()
    ensures { (visits : List Visit) → AreClean visits → IsKeptAndSavedOnce visits }
{}
