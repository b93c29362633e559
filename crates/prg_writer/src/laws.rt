//! What follows from the definitions. The function does nothing: its contract is the law.

ghost use Rattle.code_items.specs.declared.state.State.{State as AnyState};
ghost use Rattle.prg_writer.specs.declared.writer.Writer.{Writer as AnyWriter};
ghost use Rattle.prg_writer.specs.declared.writer.WrittenMark.{WrittenMark as AnyMark};
ghost use Rattle.prg_writer.specs.Writing.{IsMark, IsBackAt, StillStands, IsWrittenAs};

/// What was written since a mark is given up whole, and nothing that stood before it.
pub fn rounds_are_given_up()
    ensures { (mark : AnyMark) (known : AnyState) (marked written back : AnyWriter) → IsMark marked mark
        → StillStands marked written → IsBackAt mark known written back → IsWrittenAs marked back }
{}
