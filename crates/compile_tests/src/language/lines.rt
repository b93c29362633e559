//! Lines by themselves, and what is read of them.

use prg_line::{ParseFaultKind, least, read_line};
use std::alloc::{AllocError, Global};
use std::test::Fail;

pub(crate) fn shown(alloc: Global, line: &[u8]) -> Result<String, AllocError> {
    let read = read_line(alloc, line)?;
    format!(in alloc; "{read:?}")
}

/// Lines and what is read of them.
pub(crate) const LINES: &str = "\
     clea|ReadLine { role: Plain, fault: None, sentence: Whole(Clear) }\n\
     SELECT 10 && the last area|ReadLine { role: Plain, fault: None, sentence: Whole(Select { area: Number(10) }) }\n\
     LOOP|ReadLine { role: Leap, fault: None, sentence: Whole(Loop) }\n\
     SCAN FOR A|ReadLine { role: Scan, fault: None, sentence: Scan(Some(Name([65]))) }\n\
     endd of the loop 'x|ReadLine { role: EndDo, fault: None, sentence: EndDo }\n\
     PROCEDURE p|ReadLine { role: Procedure, fault: None, sentence: Procedure([80]) }\n\
     set talk off|ReadLine { role: Nothing, fault: None, sentence: Nothing }\n\
     IF|ReadLine { role: If, fault: Some(Expression), sentence: Nothing }\n\
     ELSE %|ReadLine { role: Else, fault: Some(Character), sentence: Nothing }\n\
     READ X12345678901|ReadLine { role: Plain, fault: Some(Word), sentence: Nothing }\n\
    ";

#[test]
fn tells_the_lesser_fault(rt: HostRuntime) -> Result<(), Fail> {
    let (word, text) = (Some(ParseFaultKind::Word), Some(ParseFaultKind::Text));
    assert!(rt; least(None, None).is_none());
    assert!(rt; least(None, word) == word);
    assert!(rt; least(word, None) == word);
    assert!(rt; least(text, word) == text);
    assert!(rt; least(word, text) == text);
    Ok(())
}
