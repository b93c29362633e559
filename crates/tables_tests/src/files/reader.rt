// Readers read to their end: short reads, interruptions, failures, and readers that never end.
#![tactic(auto)]

ghost use Rattle.std.specs.Prelude.{◌≤◌, length};

use file_access::{ReadFault, read_in_turns, read_within};
use std::alloc::Global;
use std::io;
use std::io::{ErrorKind, Read};

/// What a reader does at each of its reads.
#[derive(Clone, Copy)]
enum Turn {
    /// Gives the byte, this often at the most, and less where less is asked for.
    Gives(u8, usize),
    /// Is interrupted.
    Interrupted,
    /// Fails.
    Fails,
}

/// A reader that goes through its turns and then begins anew, or is at its end.
#[derive(Drop)]
struct Fake<'a> {
    turns: &'a [Turn],
    next: usize,
    goes_on: bool,
    given: usize,
}

impl<'a> Fake<'a> {
    fn new(turns: &'a [Turn], goes_on: bool) -> Fake<'a> {
        Fake {
            turns,
            next: 0,
            goes_on,
            given: 0,
        }
    }

    fn turn(&mut self) -> Option<Turn> {
        if self.next >= self.turns.len() {
            if !self.goes_on {
                return None;
            }
            self.next = 0;
        }
        let turn = self.turns.get(self.next).copied();
        self.next = self.next.saturating_add(1);
        turn
    }
}

/// Fills the front of the buffer with the byte, and says how much of it.
fn filled(buf: &mut [u8], byte: u8, count: usize) -> usize
    ensures { result ≤ length buf.new }
{
    let count = count.min(buf.len());
    buf[..count].fill(byte);
    count
}

impl Read for Fake<'_> {
    fn read(&mut self, buf: &mut [u8]) -> io::Result<usize> {
        match self.turn() {
            None => Ok(0),
            Some(Turn::Interrupted) => Err(io::Error::from(ErrorKind::Interrupted)),
            Some(Turn::Fails) => Err(io::Error::from(ErrorKind::TimedOut)),
            Some(Turn::Gives(byte, count)) => {
                let count = filled(buf, byte, count);
                self.given = self.given.saturating_add(count);
                Ok(count)
            }
        }
    }
}

/// What comes of reading at most four bytes: what was read, and how many bytes were asked of the reader.
fn read_four(alloc: Global, turns: &[Turn], goes_on: bool) -> (Result<Vec<u8>, ReadFault>, usize) {
    let mut reader = Fake::new(turns, goes_on);
    let result = read_within(alloc, &mut reader, 4);
    (result, reader.given)
}

/// Whether short and interrupted reads give all.
fn gives_all(alloc: Global) -> bool {
    let turns = [
        Turn::Gives(b'a', 1),
        Turn::Interrupted,
        Turn::Interrupted,
        Turn::Gives(b'b', 3),
    ];
    let (result, given) = read_four(alloc, &turns, false);
    match result {
        Ok(bytes) => bytes.as_slice() == b"abbb".as_slice() && given == 4,
        Err(_) => false,
    }
}

/// Whether a reader is refused so, with a byte above the limit asked of it at the most.
fn is_refused(alloc: Global, turns: &[Turn], goes_on: bool, wanted: ReadFault) -> bool {
    let (result, given) = read_four(alloc, turns, goes_on);
    match result {
        Ok(_) => false,
        Err(fault) => fault == wanted && given <= 5,
    }
}

fn are_refused(alloc: Global) -> bool {
    let broken = [Turn::Gives(b'a', 2), Turn::Fails];
    is_refused(alloc, &broken, false, ReadFault::Device)
        && is_refused(alloc, &[Turn::Interrupted], true, ReadFault::Device)
        && is_refused(alloc, &[Turn::Gives(b'a', 1)], true, ReadFault::TooLong)
        && is_refused(alloc, &[Turn::Gives(b'a', 4096)], false, ReadFault::TooLong)
}

/// What comes of so many reads of two bytes, each of one.
fn read_two(alloc: Global, turns: usize) -> Result<Vec<u8>, ReadFault> {
    let given = [
        Turn::Gives(b'a', 1),
        Turn::Interrupted,
        Turn::Gives(b'b', 1),
    ];
    let mut reader = Fake::new(&given, false);
    read_in_turns(alloc, &mut reader, 2, turns)
}

// an interrupted read counts, and so does the one that finds the end
fn has_its_turns(alloc: Global) -> bool {
    match (read_two(alloc, 4), read_two(alloc, 3)) {
        (Ok(bytes), Err(fault)) => {
            bytes.as_slice() == b"ab".as_slice() && fault == ReadFault::Device
        }
        _ => false,
    }
}

// at limit 4 there are ten turns: four bytes, five interruptions and the end
fn has_two_turns_more_than_twice_the_limit(alloc: Global) -> bool {
    let turns = [
        Turn::Interrupted,
        Turn::Interrupted,
        Turn::Interrupted,
        Turn::Interrupted,
        Turn::Interrupted,
        Turn::Interrupted,
        Turn::Gives(b'a', 1),
        Turn::Gives(b'a', 1),
        Turn::Gives(b'a', 1),
        Turn::Gives(b'a', 1),
    ];
    let (ten, _) = read_four(alloc, &turns[1..], false);
    let (eleven, _) = read_four(alloc, &turns, false);
    match (ten, eleven) {
        (Ok(bytes), Err(fault)) => {
            bytes.as_slice() == b"aaaa".as_slice() && fault == ReadFault::Device
        }
        _ => false,
    }
}

#[test]
fn readers_are_read_to_their_end(rt: HostRuntime) {
    assert!(rt; gives_all(rt.alloc()));
    assert!(rt; are_refused(rt.alloc()));
    assert!(rt; has_its_turns(rt.alloc()));
    assert!(rt; has_two_turns_more_than_twice_the_limit(rt.alloc()));
}
