// `play` on a stand-in for the host: what is printed of an input, and what is handed on where a read or a write fails.
use super::*;
use std::alloc::Allocator;
use std::cell::Cell;
use std::fmt::Display;
use std::io::{BufRead, ErrorKind, Lines};
use std::string::String;

// Prints the input, a byte a part.
#[derive(Drop)]
struct Bytes {
    at: usize,
}

impl Parts for Bytes {
    fn put(&mut self, input: &[u8], out: &mut [u8]) -> Part {
        if self.at >= input.len() || out.is_empty() {
            return Part { len: 0, next: None };
        }
        out[0] = input[self.at];
        self.at += 1;
        Part {
            len: 1,
            next: Some(self.at),
        }
    }
}

// An input that may break off at its end, how many writes there may still be, the last eight bytes that they wrote as one number, and how
// often something was told.
#[derive(Drop)]
struct Host<'a> {
    input: &'a [u8],
    breaks: bool,
    writes: Cell<u32>,
    written: Cell<u64>,
    told: Cell<u32>,
}

#[derive(Drop)]
struct Source<'a> {
    left: &'a [u8],
    breaks: bool,
}

impl Read for Source<'_> {
    fn read(&mut self, buf: &mut [u8]) -> io::Result<usize> {
        if self.breaks && self.left.is_empty() {
            return Err(ErrorKind::Other.into());
        }
        self.left.read(buf)
    }
}

impl BufRead for Source<'_> {
    fn fill_buf(&mut self) -> io::Result<&[u8]> {
        Ok(self.left)
    }

    fn consume(&mut self, amount: usize) {
        self.left.consume(amount);
    }
}

impl<'a> Input for Host<'a> {
    type Reader = Source<'a>;

    fn read_line<A: Allocator + Clone>(&self, buf: &mut String<A>) -> io::Result<usize> {
        self.reader().read_line(buf)
    }

    fn lines<A: Allocator>(&self, alloc: A) -> Lines<Source<'a>, A> {
        self.reader().lines(alloc)
    }

    fn reader(&self) -> Source<'a> {
        Source {
            left: self.input,
            breaks: self.breaks,
        }
    }
}

impl Print for Host<'_> {
    fn print<D: Display + Drop>(&self, value: D) -> io::Result<()> {
        Err(ErrorKind::Unsupported.into())
    }

    fn println<D: Display + Drop>(&self, value: D) -> io::Result<()> {
        Err(ErrorKind::Unsupported.into())
    }

    fn write_all(&self, bytes: &[u8]) -> io::Result<()> {
        let Some(left) = self.writes.get().checked_sub(1) else {
            return Err(ErrorKind::Other.into());
        };
        self.writes.set(left);
        for byte in bytes {
            self.written.set(self.written.get() << 8 | *byte as u64);
        }
        Ok(())
    }
}

impl Eprint for Host<'_> {
    fn eprint<D: Display + Drop>(&self, value: D) -> io::Result<()> {
        Err(ErrorKind::Unsupported.into())
    }

    fn eprintln<D: Display + Drop>(&self, value: D) -> io::Result<()> {
        self.told.set(self.told.get().saturating_add(1));
        Ok(())
    }
}

// Where the text has come to if it is handed on, what was written and how often something was told.
fn played(input: &[u8], breaks: bool, writes: u32) -> (Option<usize>, u64, u32) {
    let host = Host {
        input,
        breaks,
        writes: Cell::new(writes),
        written: Cell::new(0),
        told: Cell::new(0),
    };
    let text = play(&host, Bytes { at: 0 });
    (text.map(|t| t.at), host.written.get(), host.told.get())
}

#[test]
fn hands_on_the_text(rt: HostRuntime) {
    assert_eq!(rt; played(b"reef", false, 9), (Some(4), 0x7265_6566, 0));
    assert_eq!(rt; played(b"", false, 9), (Some(0), 0, 0));
}

#[test]
fn tells_a_read_that_fails(rt: HostRuntime) {
    assert_eq!(rt; played(b"reef", true, 9), (None, 0, 1));
}

#[test]
fn tells_a_write_that_fails(rt: HostRuntime) {
    assert_eq!(rt; played(b"reef", false, 2), (None, 0x7265, 1));
}
