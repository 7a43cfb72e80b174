// Readers and writers that move little at a time, are interrupted, or fail in between.
use super::{MarkError, mark_script};
use std::alloc::Global;
use std::io;
use std::io::{Error, ErrorKind, Read, Write};
use std::test::Fail;

// A key of two states, the same language by four, and one by one state.
const SCRIPT: [u8; 101] =
    *b"NXA\x01\0\x02\x02\x01\0\0\0\x03\0\0\0\x02\0\0\0\x03\0\0\0\x01\0\0\0\x01\0\0\0\
    NXA\x01\0\x04\x02\x01\0\0\0\x03\0\0\0\x02\0\0\0\x04\0\0\0\x01\0\0\0\x08\0\0\0\x01\0\0\0\x01\0\0\0\x08\0\0\0\x08\0\0\0\
    NXA\x01\0\x01\x02\x01\0\0\0\x01\0\0\0\x01\0\0\0\x01\0\0\0";

const LINES: &str = "0 key dim 2\n1 same dim 2\n2 differ dim 1 word 00 accepted-by answer\n";

// Gives at most seven bytes a call, and each second call is interrupted. Behind its bytes it ends or fails.
#[derive(Drop)]
struct Pieces<'a> {
    rest: &'a [u8],
    interrupted: bool,
    fails: bool,
}

impl<'a> Read for Pieces<'a> {
    fn read(&mut self, buf: &mut [u8]) -> io::Result<usize> {
        self.interrupted = !self.interrupted;
        if self.interrupted {
            return Err(Error::from(ErrorKind::Interrupted));
        }
        if self.rest.is_empty() && self.fails {
            return Err(Error::from(ErrorKind::IsADirectory));
        }
        let n = self.rest.len().min(buf.len()).min(7);
        buf[..n].copy_from_slice(&self.rest[..n]);
        self.rest = &self.rest[n..];
        Ok(n)
    }
}

fn in_pieces(rest: &[u8], fails: bool) -> Pieces<'_> {
    Pieces {
        rest,
        interrupted: false,
        fails,
    }
}

// Takes at most five bytes a call, and each second call is interrupted. It fails once it has `room` bytes.
#[derive(Drop)]
struct Narrow {
    got: Vec<u8>,
    interrupted: bool,
    room: usize,
}

impl Write for Narrow {
    fn write(&mut self, buf: &[u8]) -> io::Result<usize> {
        self.interrupted = !self.interrupted;
        if self.interrupted {
            return Err(Error::from(ErrorKind::Interrupted));
        }
        if self.got.len() >= self.room {
            return Err(Error::from(ErrorKind::StorageFull));
        }
        let n = buf.len().min(5);
        self.got.extend_from_slice(&buf[..n])?;
        Ok(n)
    }

    fn flush(&mut self) -> io::Result<()> {
        Ok(())
    }
}

fn with_room(alloc: Global, room: usize) -> Narrow {
    Narrow {
        got: Vec::new(alloc),
        interrupted: false,
        room,
    }
}

#[test]
fn what_moves_in_pieces_goes_on_to_the_whole_text(rt: HostRuntime) {
    let mut writer = with_room(rt.alloc(), 1000);
    let ends = mark_script(&mut in_pieces(&SCRIPT, false), &mut writer);
    assert!(rt; ends.is_ok());
    assert_eq!(rt; writer.got.as_slice(), LINES.as_bytes());
}

#[test]
fn nothing_is_printed_where_a_read_fails(rt: HostRuntime) {
    let mut writer = with_room(rt.alloc(), 1000);
    match mark_script(&mut in_pieces(&SCRIPT[..50], true), &mut writer) {
        Err(MarkError::Unreadable(error)) => assert!(rt; error.kind() == ErrorKind::IsADirectory),
        _ => assert!(rt; false),
    }
    assert!(rt; writer.got.is_empty());
}

#[test]
fn a_write_that_fails_is_told(rt: HostRuntime) {
    let mut writer = with_room(rt.alloc(), 20);
    match mark_script(&mut in_pieces(&SCRIPT, false), &mut writer) {
        Err(MarkError::Unwritable(error)) => assert!(rt; error.kind() == ErrorKind::StorageFull),
        _ => assert!(rt; false),
    }
    assert_eq!(rt; writer.got.as_slice(), &LINES.as_bytes()[..20]);
}

#[test]
fn an_empty_script_has_no_text(rt: HostRuntime) {
    let mut writer = with_room(rt.alloc(), 0);
    let ends = mark_script(&mut in_pieces(b"", false), &mut writer);
    assert!(rt; ends.is_ok());
}
