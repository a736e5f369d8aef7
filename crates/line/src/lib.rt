// The lines that replay prints. Each is built in a local buffer, measured, and put at the start of the free tail of the answer buffer, which
// is what a writer here is lent, where it fits.
#![tactic(auto)]

ghost use Rattle.std.specs.Prelude.{◌≡◌, ◌+◌, ◌*◌, ◌<◌, length, take};
ghost use Rattle.line.specs.Line.{text_of, line_of, end_of, bad_of};
ghost use Rattle.line.specs.Put.{written, put_of, room_error_number, written_number, written_values};
ghost use Rattle.shown.specs.Shown.{shown as shown_of};

use laws::refusals;
use shown::{Answer, Shown};

mod text;

// No line is longer: a number of 20 digits, 14 of them after a space, and the newline.
const LONGEST: usize = 315;

// The line stands before this place of what was lent.
pub type Written = Result<usize, RoomError>;

#[derive(Clone, Copy, PartialEq, Eq)]
pub enum RoomError {
    NoRoom = refusals::NO_ROOM as isize,
}

impl Answer for RoomError {
    ghost number_of = { room_error_number };

    fn shown(self) -> Shown {
        Shown::new(self as u8, &[])
    }
}

// What a line would show of a line that was put, or not.
pub fn written_shown(answer: Written) -> Shown
    ensures { result ≡ shown_of (written_number answer) (written_values answer) }
{
    answer.shown()
}

// The text at the start of the free tail, if all of it fits there; else nothing of it.
#[tactic(auto, unfolding(crate::specs::Put::put_of, crate::specs::Put::written, laws::specs::Pick::pick))]
fn put(free: &mut [u8], text: &[u8]) -> Written
    ensures answer { result ≡ put_of free.old 0 text.now }
    ensures buffer { free.new ≡ written free.old 0 text.now }
{
    let n = text.len();
    if free.len() < n {
        return Err(RoomError::NoRoom);
    }
    free[..n].copy_from_slice(text);
    Ok(n)
}

// The line of a record, with what is shown of its answer: there are no more than twelve values, whatever its count says.
pub fn write_line(free: &mut [u8], number: u64, op: u64, shown: Shown) -> Written
    ensures answer { result ≡ put_of free.old 0 (line_of number op shown.number (take shown.count shown.values)) }
    ensures buffer { free.new ≡ written free.old 0 (line_of number op shown.number (take shown.count shown.values)) }
{
    let mut b = [0u8; LONGEST];
    let values = shown.values;
    let count = shown.count.min(values.len());
    let n = text::line(&mut b, number, op, shown.number as u64, &values[..count]);
    put(free, &b[..n])
}

// A line that starts with a word.
fn write_said(free: &mut [u8], word: &[u8], values: &[u64]) -> Written
    requires { length word.now + 21 * length values.now < 315 }
    ensures answer { result ≡ put_of free.old 0 (text_of word.now values.now) }
    ensures buffer { free.new ≡ written free.old 0 (text_of word.now values.now) }
{
    let mut b = [0u8; LONGEST];
    let n = text::said(&mut b, word, values);
    put(free, &b[..n])
}

// The last line of a finished log.
pub fn write_end(free: &mut [u8], records: u64) -> Written
    ensures answer { result ≡ put_of free.old 0 (end_of records) }
    ensures buffer { free.new ≡ written free.old 0 (end_of records) }
{
    write_said(free, b"end", &[records])
}

// The last line of a log with a fault.
pub fn write_bad(free: &mut [u8], offset: u64, fault: u64) -> Written
    ensures answer { result ≡ put_of free.old 0 (bad_of offset fault) }
    ensures buffer { free.new ≡ written free.old 0 (bad_of offset fault) }
{
    write_said(free, b"bad", &[offset, fault])
}
