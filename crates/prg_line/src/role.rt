//! What a line is to the blocks around it.

/// What a line is to the blocks around it.
#[derive(Clone, Copy, Debug)]
pub enum Role {
    /// A line without meaning.
    Nothing,
    /// A command of one line.
    Plain,
    /// `LOOP` or `EXIT`.
    Leap,
    /// `PROCEDURE`, which begins without blocks.
    Procedure,
    /// `IF`.
    If,
    /// `ELSE`.
    Else,
    /// `ENDIF`.
    EndIf,
    /// `DO CASE`.
    DoCase,
    /// `CASE`.
    Case,
    /// `OTHERWISE`.
    Otherwise,
    /// `ENDCASE`.
    EndCase,
    /// `DO WHILE`.
    DoWhile,
    /// `ENDDO`.
    EndDo,
    /// `SCAN`.
    Scan,
    /// `ENDSCAN`.
    EndScan,
}
