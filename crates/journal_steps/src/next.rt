//! What becomes of a conversation by what stands of it.

ghost use Rattle.std.specs.Prelude.{◌≡◌};
ghost use Rattle.journal_steps.specs.Next.{next_of as next_for};

/// What stands of a conversation in the folder.
#[derive(Clone, Copy)]
pub struct Remains {
    /// Whether the journal stands. An empty one alone, without a text of its beginning or of its end, counts as none.
    pub journal: bool,
    /// Whether the text of its beginning stands.
    pub begun: bool,
    /// Whether a note tells of its save.
    pub noted: bool,
    /// Whether the text of its end stands.
    pub done: bool,
    /// Whether each file of its run that was read is as the text of its beginning says.
    pub same: bool,
}

/// What becomes of a conversation.
#[derive(Clone, Copy)]
pub enum Next {
    /// It begins.
    Begin,
    /// It goes on behind the lines of its journal.
    GoOn,
    /// Its save is carried to its end, and nothing is run.
    Finish,
    /// Nothing: it came to its end.
    Ended,
    /// Nothing: a file isn't as it was at its beginning.
    Changed,
    /// Nothing: it was begun, and isn't to be begun anew.
    Taken,
    /// Nothing: it wasn't begun.
    Missing,
}

/// What becomes of a conversation that is to be begun, or to go on.
#[tactic(auto, unfolding(crate::specs::Next::next_of))]
pub fn next_of(found: Remains, goes_on: bool) -> Next
    ensures { result ≡ next_for found goes_on }
{
    if found.noted {
        return Next::Finish;
    }
    if goes_on {
        if found.done {
            return Next::Ended;
        }
        if found.journal && found.begun {
            if found.same {
                return Next::GoOn;
            }
            return Next::Changed;
        }
        return Next::Missing;
    }
    if found.journal || found.begun || found.done {
        return Next::Taken;
    }
    Next::Begin
}
