// What a code may have most of, and programs that are long or deep. Between two backquotes stand a number and a piece
// that is repeated so many times. In the piece `#` is the number of the repetition, from 1 on, and `~` is one more.

/// Constants; filters; maps; slots, and copies with a slot each.
pub(crate) const LIMITS: &str = "\
`4096 ^?? #`|accepted
`4097 ^?? #`|0 4098 Limit
USE AA`64 ^SET FILTER TO N > #`|accepted
USE AA`65 ^SET FILTER TO N > #`|0 66 Limit
`4096 ^IF .T.^ENDIF && #`|accepted
`4097 ^IF .T.^ENDIF && #`|0 8195 Limit
`256 ^STORE 1 TO V#`|accepted
`257 ^STORE 1 TO V#`|0 258 Limit
`255 ^DO P WITH #`^PROCEDURE P^PARAMETERS X|accepted
`256 ^DO P WITH #`^PROCEDURE P^PARAMETERS X|0 257 Copies
";

/// Too many instructions: the END behind the last command, the last command itself, or a part of it. Another fault is
/// told first, though it stands behind.
pub(crate) const INSTRUCTIONS: &str = "\
`65534 ^CLEAR && #`|accepted
`65535 ^CLEAR && #`|0 65536 Limit
`65536 ^CLEAR && #`^CLEAR|0 65537 Limit
`65534 ^CLEAR && #`^? 1|0 65536 Limit
`65536 ^CLEAR && #`^? X|0 65538 Name
";

/// Too many instructions in all. A procedure's code stands behind that of the main one, and its RETURN is told at its
/// last command; a filter's block stands behind all procedures, and is told where the filter is set first.
pub(crate) const IN_ALL: &str = "\
DO P`65532 ^CLEAR && #`^PROCEDURE P^CLEAR|0 65535 Limit
DO P`65532 ^CLEAR && #`{P}CLEAR|1 1 Limit
USE AA^SET FILTER TO N > 1`65529 ^CLEAR && #`|accepted
USE AA^SET FILTER TO N > 1`65530 ^CLEAR && #`^SET FILTER TO N > 1|0 2 Limit
";

/// Procedures of which each calls the next, once with each call within 32 blocks. Blocks within one another, each
/// behind an assignment to a variable that its body gives another kind. Functions within one another, for each of which
/// three values wait on the stack.
pub(crate) const DEEP: &str = "\
DO P1`19 ^PROCEDURE P#^DO P~`^PROCEDURE P20^CLEAR|accepted
DO P1`20 ^PROCEDURE P#^DO P~`^PROCEDURE P21^CLEAR|0 41 Limit
`20 IF .T.^IF .T.^IF .T.^IF .T.^IF .T.^IF .T.^IF .T.^IF .T.^IF .T.^IF .T.^IF .T.^IF .T.^IF .T.^IF .T.^IF .T.^IF .T.^\
IF .T.^IF .T.^IF .T.^IF .T.^IF .T.^IF .T.^IF .T.^IF .T.^IF .T.^IF .T.^IF .T.^IF .T.^IF .T.^IF .T.^IF .T.^IF .T.^DO P#^\
ENDIF^ENDIF^ENDIF^ENDIF^ENDIF^ENDIF^ENDIF^ENDIF^ENDIF^ENDIF^ENDIF^ENDIF^ENDIF^ENDIF^ENDIF^ENDIF^ENDIF^ENDIF^ENDIF^\
ENDIF^ENDIF^ENDIF^ENDIF^ENDIF^ENDIF^ENDIF^ENDIF^ENDIF^ENDIF^ENDIF^ENDIF^ENDIF^PROCEDURE P#^`|accepted
`32 V# = 1^DO WHILE .T.^V# = 'A'^``32 ENDDO^`|accepted
?? `21 STUFF('A',1,1,`'B'`21 )`|accepted
?? `22 STUFF('A',1,1,`'B'`22 )`|0 1 Limit
";
