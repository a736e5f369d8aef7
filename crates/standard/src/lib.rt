// Standard input read whole, and a text printed of it, part after part. A program tells a read or a write that fails on standard error and
// not by its exit status, and what was to follow is not printed.
#![tactic(auto)]

ghost use Rattle.std.specs.Prelude.{◌≡◌, ◌≤◌, ℕ, IfSome, length, take};
ghost use Rattle.standard.specs.Taken.{got_of};

use std::io;
use std::io::{Eprint, Input, Print, Read};

#[cfg(test)]
mod tests;

// One byte more than the longest log or script, so that a longer one shows.
const ROOM: usize = 65537;

// As much as a part of a text has room for.
const PART: usize = 65536;

// A read failed after so many bytes.
#[derive(Clone, Copy)]
pub struct Broken {
    pub got: usize,
}

// How long a part of a text is, and where in the input the next goes on, if one follows.
#[derive(Clone, Copy)]
pub struct Part {
    pub len: usize,
    pub next: Option<usize>,
}

// What makes a text of an input, part after part.
pub trait Parts {
    // Puts the next part at the start of the lent buffer.
    fn put(&mut self, input: &[u8], out: &mut [u8]) -> Part
        ensures { result.len ≤ length out.new };
}

// What makes a text of an input, part after part, and says how far it has come.
pub trait Onward {
    // How far into the input the parts so far have come.
    ghost reached: { Self → ℕ };

    // Puts the next part at the start of the lent buffer. What goes on goes on from there.
    fn put(&mut self, input: &[u8], out: &mut [u8]) -> Part
        ensures inside { result.len ≤ length out.new }
        ensures on { IfSome result.next (λ n. n ≡ reached self.new) };
}

pub fn room() -> [u8; ROOM]
    ensures { 65537 ≡ length result }
{
    [0; ROOM]
}

// Reads until the buffer is full, the input ends or a read fails, and answers how many bytes came. The library's read_exact does not tell
// that of an input that ends before.
pub fn take<R: Read>(reader: &mut R, input: &mut [u8]) -> Result<usize, Broken>
    ensures in_bounds { got_of result ≤ length input.new }
    ensures prefix { got_of result ≡ length (take (got_of result) input.new) }
{
    let mut got = 0;
    while got < input.len() {
        match reader.read(&mut input[got..]) {
            Ok(0) => break,
            Ok(more) => got += more,
            Err(_) => return Err(Broken { got }),
        }
    }
    Ok(got)
}

// Prints the text by way of the lent buffer. It ends where a part took nothing of the input.
fn print<P: Print, T: Onward>(
    to: &P,
    text: &mut T,
    input: &[u8],
    out: &mut [u8],
) -> io::Result<()> {
    let mut offset = 0;
    loop {
        let part = text.put(input, out);
        to.write_all(&out[..part.len])?;
        match part.next {
            Some(next) if next > offset => offset = next,
            _ => return Ok(()),
        }
    }
}

// Prints the text of standard input, and answers whether all of it was printed: else a read or a write failed, which is told.
pub fn play_onward<R: Input + Print + Eprint, T: Onward>(rt: &R, text: &mut T) -> bool {
    let mut input = room();
    let Ok(got) = take(&mut rt.reader(), &mut input) else {
        tell_unread(rt);
        return false;
    };
    let mut out = [0; PART];
    if print(rt, text, &input[..got], &mut out).is_err() {
        tell_unwritten(rt);
        return false;
    }
    true
}

// Parts, and the last place that one of them told.
#[derive(Drop)]
struct Placed<'a, T> {
    parts: &'a mut T,
    next: usize,
}

impl<T: Parts> Onward for Placed<'_, T> {
    ghost reached = { λ p. p.next };

    fn put(&mut self, input: &[u8], out: &mut [u8]) -> Part {
        let part = self.parts.put(input, out);
        if let Some(next) = part.next {
            self.next = next;
        }
        part
    }
}

// Prints the text of standard input, and hands on what made it; None where a read or a write failed, which is told.
pub fn play<R: Input + Print + Eprint, T: Parts + Drop>(rt: &R, mut text: T) -> Option<T> {
    let mut placed = Placed {
        parts: &mut text,
        next: 0,
    };
    play_onward(rt, &mut placed).then_some(text)
}

// Tells that the input did not come, or not all of it.
pub fn tell_unread<R: Eprint>(rt: &R) {
    let _ = rt.eprintln("standard input cannot be read: nothing was replayed");
}

// Tells that what was to be printed was not, or not all of it.
pub fn tell_unwritten<R: Eprint>(rt: &R) {
    let _ = rt.eprintln("standard output cannot be written: what was printed is not whole");
}
