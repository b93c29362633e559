//! What follows from the definitions. The functions do nothing: their contracts are the laws.

ghost use Rattle.std.specs.Prelude.{◌≡◌, [], length};
ghost use Rattle.code_items.specs.declared.state.State.{State as AnyState};
ghost use Rattle.prg_code.specs.declared.seen.Seen.{Seen as AnySeen};
ghost use Rattle.prg_code.specs.Merging.{DoMeet, MergesWays};
ghost use Rattle.prg_code.specs.Remembering.{Remembers, state_remembered};

/// Where ways meet, all is known that is known on both of them, and nothing else.
pub fn ways_merge()
    ensures { (one two : AnyState) → DoMeet one two → MergesWays one two }
{}

/// A state of ten work areas that was seen is known again, with an empty stack.
pub fn states_are_known_again()
    ensures { (seen : AnySeen) (state : AnyState) → Remembers seen state → length state.desk.areas ≡ 10
        → state_remembered seen (length state.slots) ≡ record state { stack = [] } }
{}
