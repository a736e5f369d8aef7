// The script on standard input, read a byte at a time.
ghost use Rattle.std.specs.Prelude.{◌≡◌, ◌≤◌, length, take};

use crate::{operands, print};
use std::io;

// What a script's calls are made on.
pub trait Tables {
    // Makes the call of this number and prints its answer.
    fn call<P: Print>(&mut self, to: &P, op: u8, w: &[u64]);
}

// The most numbers that a line has.
pub const ROOM: usize = 12;

// Nothing says that the input ends, and a proved loop has to: no script has as many bytes, nor as many calls.
const MOST_BYTES: u32 = u32::MAX;

pub const MOST_CALLS: u32 = u32::MAX;

// The digits of a u64, and what follows them.
const MOST_DIGITS: u32 = 21;

// A u64 without its last digit is below this, and ten times that is a u64 too.
const SHIFTED: u64 = 1844674407370955162;

// The next byte, 0 where there is none or the read fails.
fn byte<R: io::Read>(reader: &mut R) -> u8 {
    let mut one = [0];
    match reader.read(&mut one) {
        Ok(1) => one[0],
        _ => 0,
    }
}

// Copies the text up to the next colon, headings and empty lines with it, and says whether there is one.
fn call_follows<R: io::Read, P: Print>(reader: &mut R, to: &P) -> bool {
    for _ in 0..MOST_BYTES {
        let c = byte(reader);
        if c == 0 {
            return false;
        }
        print::text(to, &[c]);
        if c == b':' {
            return true;
        }
    }
    false
}

// One digit more; the greatest number where there is none so great.
fn with_digit(value: u64, digit: u8) -> u64 {
    let tens = value % SHIFTED * 10;
    tens.saturating_add(digit as u64)
}

// A number, and whether the line ended with it.
#[derive(Clone, Copy)]
struct Read {
    value: u64,
    last: bool,
}

// Reads a number with the space or the line's end that follows it.
fn number<R: io::Read>(reader: &mut R) -> Read {
    let mut value = 0;
    for _ in 0..MOST_DIGITS {
        match byte(reader) {
            c @ b'0'..=b'9' => value = with_digit(value, c - b'0'),
            c => {
                let last = c != b' ';
                return Read { value, last };
            }
        }
    }
    Read { value, last: false }
}

// Reads the numbers after the colon, each after a space, for as many as there is room, and says how many there are.
fn numbers<R: io::Read>(reader: &mut R, room: &mut [u64]) -> usize
    ensures in_bounds { result ≤ length room.new }
    ensures prefix { result ≡ length (take result room.new) }
{
    byte(reader);
    for (i, place) in room.iter_mut().enumerate() {
        let read = number(reader);
        *place = read.value;
        if read.last {
            return i + 1;
        }
    }
    room.len()
}

// Copies the text up to the next call and reads the call's numbers. Says how many there are, 0 where no call is left.
pub fn call<R: io::Read, P: Print>(reader: &mut R, to: &P, room: &mut [u64]) -> usize
    ensures in_bounds { result ≤ length room.new }
    ensures prefix { result ≡ length (take result room.new) }
{
    if call_follows(reader, to) {
        return numbers(reader, room);
    }
    0
}

// Copies the script, with the answer to each call in the place of its numbers: which one, and its operands.
pub fn play<R: io::Read, P: Print, T: Tables>(reader: &mut R, to: &P, tables: &mut T) {
    for _ in 0..MOST_CALLS {
        let mut words = [0; ROOM];
        let n = call(reader, to, &mut words);
        if n == 0 {
            return;
        }
        let line = &words[..n];
        tables.call(to, operands::byte(line, 0), operands::rest(line, 1));
        print::end(to);
    }
}
