//! Expressions, their trees and their faults.

use prg_expr::{ParseFault, ParseRefusal, expr, expression, is_word, name_of, words};
use std::alloc::{AllocError, Global};
use std::test::Fail;

/// How an expression is shown, or its fault.
pub(crate) fn shown(alloc: Global, text: &[u8]) -> Result<String, AllocError> {
    match expr(alloc, text) {
        Ok(tree) => format!(in alloc; "{tree:?}"),
        Err(ParseRefusal::Fault(ParseFault { line, kind })) => format!(in alloc; "{line} {kind:?}"),
        Err(ParseRefusal::Memory) => String::from_str(alloc, "memory"),
    }
}

/// Whether a text is an expression, or its fault.
pub(crate) fn verdict(alloc: Global, text: &[u8]) -> Result<String, AllocError> {
    match expr(alloc, text) {
        Ok(_) => String::from_str(alloc, "fine"),
        Err(ParseRefusal::Fault(ParseFault { line, kind })) => format!(in alloc; "{line} {kind:?}"),
        Err(ParseRefusal::Memory) => String::from_str(alloc, "memory"),
    }
}

/// How operators group.
pub(crate) const TREES: &str = "\
     A-B-C|Binary(Minus, Binary(Minus, Name([65]), Name([66])), Name([67]))\n\
     (A-B)-C|Binary(Minus, Parentheses(Binary(Minus, Name([65]), Name([66]))), Name([67]))\n\
     A-(B-C)|Binary(Minus, Name([65]), Parentheses(Binary(Minus, Name([66]), Name([67]))))\n\
     A/B*C|Binary(Times, Binary(Over, Name([65]), Name([66])), Name([67]))\n\
     A+B*C|Binary(Plus, Name([65]), Binary(Times, Name([66]), Name([67])))\n\
     -A*B|Binary(Times, Prefixed(Negative, Name([65])), Name([66]))\n\
     A--B|Binary(Minus, Name([65]), Prefixed(Negative, Name([66])))\n\
     --A|Prefixed(Negative, Prefixed(Negative, Name([65])))\n\
     A+B=C-D|Binary(Equal, Binary(Plus, Name([65]), Name([66])), Binary(Minus, Name([67]), Name([68])))\n\
     A$B+C|Binary(Contains, Name([65]), Binary(Plus, Name([66]), Name([67])))\n\
     .NOT. A=B|Prefixed(Not, Binary(Equal, Name([65]), Name([66])))\n\
     .not. .not. A|Prefixed(Not, Prefixed(Not, Name([65])))\n\
     .NOT. A .AND. B|Binary(And, Prefixed(Not, Name([65])), Name([66]))\n\
     A.OR.B.AND.C|Binary(Or, Name([65]), Binary(And, Name([66]), Name([67])))\n\
     A.AND.B.OR.C|Binary(Or, Binary(And, Name([65]), Name([66])), Name([67]))\n\
     A.OR.B.OR.C|Binary(Or, Binary(Or, Name([65]), Name([66])), Name([67]))\n\
     A.AND.B.AND.C|Binary(And, Binary(And, Name([65]), Name([66])), Name([67]))\n\
     A\t+ \tb && a % comment '|Binary(Plus, Name([65]), Name([66]))\n\
     max(A, B)-C|Binary(Minus, Call(Max, [Name([65]), Name([66])]), Name([67]))\n\
     X123456789|Name([88, 49, 50, 51, 52, 53, 54, 55, 56, 57])\n\
     1234567890123456789|Number(\n\
     1234.123456789012345|Number(\n\
     ((A))|Parentheses(Parentheses(Name([65])))\n\
     A.or.B|Binary(Or, Name([65]), Name([66]))\n\
     A .AND. B|Binary(And, Name([65]), Name([66]))\n\
     A=B|Binary(Equal, Name([65]), Name([66]))\n\
     A<>B|Binary(NotEqual, Name([65]), Name([66]))\n\
     A#B|Binary(NotEqual, Name([65]), Name([66]))\n\
     A<B|Binary(Less, Name([65]), Name([66]))\n\
     A>B|Binary(Greater, Name([65]), Name([66]))\n\
     A<=B|Binary(AtMost, Name([65]), Name([66]))\n\
     A>=B|Binary(AtLeast, Name([65]), Name([66]))\n\
     A$B|Binary(Contains, Name([65]), Name([66]))\n\
     A+B|Binary(Plus, Name([65]), Name([66]))\n\
     A-B|Binary(Minus, Name([65]), Name([66]))\n\
     A*B|Binary(Times, Name([65]), Name([66]))\n\
     A/B|Binary(Over, Name([65]), Name([66]))\n\
     -a|Prefixed(Negative, Name([65]))\n\
     +a|Prefixed(Positive, Name([65]))\n\
     .Not.a|Prefixed(Not, Name([65]))\n\
    ";

/// Functions by their names, whole or cut.
pub(crate) const CALLS: &str = "\
     len(T)|Call(Len, [\n\
     SUBSTR(T,1,2)|Call(Substr, [\n\
     Substr(T,1)|Call(Substr, [\n\
     LEFT(T,1)|Call(Left, [\n\
     RIGHT(T,1)|Call(Right, [\n\
     TRIM(T)|Call(Trim, [\n\
     RTRIM(T)|Call(Trim, [\n\
     LTRIM(T)|Call(Ltrim, [\n\
     UPPER(T)|Call(Upper, [\n\
     LOWER(T)|Call(Lower, [\n\
     SPACE(1)|Call(Space, [\n\
     REPLICATE(T,1)|Call(Replicate, [\n\
     REPL(T,1)|Call(Replicate, [\n\
     AT(T,T)|Call(At, [\n\
     STUFF(T,1,2,T)|Call(Stuff, [\n\
     ASC(T)|Call(Asc, [\n\
     CHR(1)|Call(Chr, [\n\
     ISALPHA(T)|Call(IsAlpha, [\n\
     ISUPPER(T)|Call(IsUpper, [\n\
     ISLOWER(T)|Call(IsLower, [\n\
     IIF(L,1,2)|Call(Iif, [\n\
     VAL(T)|Call(Val, [\n\
     STR(1)|Call(Str, [\n\
     STR(1,2)|Call(Str, [\n\
     STR(1,2,3)|Call(Str, [\n\
     ABS(1)|Call(Abs, [\n\
     INT(1)|Call(Int, [\n\
     MOD(1,2)|Call(Mod, [\n\
     ROUND(1,2)|Call(Round, [\n\
     MAX(1,2)|Call(Max, [\n\
     MIN(1,2)|Call(Min, [\n\
     CTOD(T)|Call(Ctod, [\n\
     DTOC(D)|Call(Dtoc, [\n\
     DAY(D)|Call(Day, [\n\
     MONTH(D)|Call(Month, [\n\
     YEAR(D)|Call(Year, [\n\
     DOW(D)|Call(Dow, [\n\
     CDOW(D)|Call(Cdow, [\n\
     CMONTH(D)|Call(Cmonth, [\n\
     RECNO()|Call(Recno, [])\n\
     RECCOUNT()|Call(Reccount, [])\n\
     EOF()|Call(Eof, [])\n\
     BOF()|Call(Bof, [])\n\
     FOUND()|Call(Found, [])\n\
     DELETED()|Call(Deleted, [])\n\
     DATE( )|Call(Date, [])\n\
    ";

/// Texts that spell nothing, and their faults.
pub(crate) const FAULTS: &str = "\
     A % B|1 Character\n\
     A ] B|1 Character\n\
     {1}|1 Character\n\
     A;B|1 Character\n\
     12345678901234567890 !|1 Character\n\
     'AB|1 Text\n\
     [AB'|1 Text\n\
     'AB\"|1 Text\n\
     12345678901234567890|1 Number\n\
     0.1234567890123456|1 Number\n\
     1 2 12345678901234567890|1 Number\n\
     X = = 3|1 Expression\n\
     1.|1 Expression\n\
     .X.|1 Expression\n\
     A = B = C|1 Expression\n\
     A = .NOT. B|1 Expression\n\
     A < = B|1 Expression\n\
     A - > B|1 Expression\n\
     . AND . B|1 Expression\n\
     FOO(1)|1 Expression\n\
     SQRT(2)|1 Expression\n\
     LEN()|1 Expression\n\
     LEN(1,2)|1 Expression\n\
     SUBSTR('A')|1 Expression\n\
     SUB('A',1)|1 Expression\n\
     ROU(1,2)|1 Expression\n\
     EOF(1)|1 Expression\n\
     MAX(1,)|1 Expression\n\
     MAX(,1)|1 Expression\n\
     1 2|1 Expression\n\
     (1|1 Expression\n\
     1)|1 Expression\n\
     A->1|1 Expression\n\
     'A'->B|1 Expression\n\
     ? X|1 Expression\n\
     X1234567890 = = 1|1 Expression\n\
     (1 2 &X|1 Expression\n\
     X1234567890|1 TooLong\n\
     X1234567890 + &Y|1 TooLong\n\
     &X|1 Macro\n\
     A + &X +|1 Macro\n\
     (1 + &X|1 Macro\n\
     X &Y|1 Macro\n\
    ";

/// Two spellings of one tree a row.
pub(crate) const SAMES: &str = "\
     .Y.|.T.\n\
     .n.|.F.\n\
     .t.|.T.\n\
     .N.|.f.\n\
     A<>B|A # B\n\
     \"a'b\"|[a'b]\n\
     1.AND.2|1 .AND. 2\n\
     \"x y\"|[x y]\n\
     'x y'|[x y]\n\
     .5|0.5\n\
     subs([A],1)|SUBSTR('A',1)\n\
     rtri(a)|TRIM(A)\n\
     m->total|M -> TOTAL\n\
    ";

/// How deep expressions are nested, and how long names, expressions and texts may be. What is `refused` has any fault.
pub(crate) const LENGTHS: &str = "\
     `32 (`1`32 )`|fine\n\
     `33 (`1`33 )`|1 TooDeep\n\
     `32 ABS(`1`32 )`|fine\n\
     `33 ABS(`1`33 )`|1 TooDeep\n\
     `31 (`EOF()`31 )`|fine\n\
     `32 (`EOF()`32 )`|1 TooDeep\n\
     `10 X`|fine\n\
     `11 X`|1 TooLong\n\
     `1023  `1|fine\n\
     `1024  `1|1 TooLong\n\
     `1024  `1 2|1 Expression\n\
     `5000  `1 2|1 Expression\n\
     `5000  `!|1 Character\n\
     `1023 -`X|fine\n\
     `511 1+`1|fine\n\
     `100000 -`X|1 TooLong\n\
     '`127 a `'|fine\n\
     [a`127 a `]|1 TooLong\n\
     `100000 (`|refused\n\
     `100000 -`|refused\n\
     `100000 '`|refused\n\
     `100000 1`|refused\n\
     `100000 X`|refused\n\
     `100000 &`|refused\n\
     `100000 .`|refused\n\
     `100000  `|refused\n\
    ";

/// The first byte that by itself is no character of expressions and should be, or is one and shouldn't.
fn first_misjudged(alloc: Global) -> Result<Option<u8>, AllocError> {
    let begins: &[u8] = b" \t'\"[.&()*+,-/<=>#$?@";
    for b in 0..=255u8 {
        let known = b.is_ascii_alphanumeric() || begins.contains(&b);
        let found = verdict(alloc, &[b])?;
        if (found.as_str() == "1 Character") == known {
            return Ok(Some(b));
        }
    }
    Ok(None)
}

#[test]
fn judges_every_byte(rt: HostRuntime) -> Result<(), Fail> {
    assert_eq!(rt; first_misjudged(rt.alloc())?, None);
    assert!(rt; verdict(rt.alloc(), b"")?.as_str() == "1 Expression");
    assert!(rt; verdict(rt.alloc(), b"A\x80")?.as_str() == "1 Character");
    Ok(())
}

/// The words of a line, as they are shown.
pub(crate) fn words_shown(alloc: Global, line: &[u8]) -> Result<String, AllocError> {
    let line = words(alloc, line)?;
    format!(in alloc; "{line:?}")
}

/// Lines and their words.
pub(crate) const LINES_OF_WORDS: &str = "\
     ?? X, @ && 'A|Line { words: [ShowOn, Name([88]), Comma, At], fault: None }\n\
     ? &X|Line { words: [Show, Macro, Name([88])], fault: Some(Macro) }\n\
     a->b<=1.5|Line { words: [Name([97]), Arrow, Name([98]), Operator(AtMost), Number([49, 46, 53])], fault: None }\n\
     [a'b] %.t.|Line { words: [Text([97, 39, 98]), Faulty, Logical(true)], fault: Some(Character) }\n\
     .(.|Line { words: [Point, Open, Point], fault: None }\n\
     'a|Line { words: [Text([97])], fault: Some(Text) }\n\
    ";

/// How many words stand behind the expression at the front.
fn words_behind(alloc: Global, line: &[u8]) -> Option<usize> {
    let Ok(line) = words(alloc, line) else {
        return None;
    };
    match expression(alloc, &line.words) {
        Ok((_, rest)) => Some(rest.len()),
        Err(_) => None,
    }
}

#[test]
fn front_of_words(rt: HostRuntime) -> Result<(), Fail> {
    assert!(rt; words_behind(rt.alloc(), b"A = B = C") == Some(2));
    assert!(rt; words_behind(rt.alloc(), b"A = B C") == Some(1));
    Ok(())
}

#[test]
fn names(rt: HostRuntime) -> Result<(), Fail> {
    let name = name_of(b"abc_1");
    assert!(rt; name.as_slice() == b"ABC_1".as_slice());
    assert!(rt; is_word(b"repl", b"REPLACE"));
    assert!(rt; is_word(b"REPLACE", b"REPLACE"));
    assert!(rt; is_word(b"go", b"GO"));
    assert!(rt; !is_word(b"rep", b"REPLACE"));
    assert!(rt; !is_word(b"replacer", b"REPLACE"));
    assert!(rt; !is_word(b"repla_", b"REPLACE"));
    Ok(())
}
