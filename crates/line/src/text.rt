// A line's text, piece after piece, in a buffer with room for it. Each function answers the place past what it wrote.
ghost use Rattle.std.specs.Prelude.{◌≡◌, ◌∷◌, ◌++◌, ◌+◌, ◌*◌, ◌≤◌, ◌<◌, length, take};
ghost use Rattle.line.specs.Line.{decimal_of, spaced_of, closed_by, text_of, line_of};

use itoa::Buffer;

// The decimal digits of `n`.
fn digits(out: &mut [u8], at: usize, n: u64) -> usize
    requires { at + 20 ≤ length out.old }
    ensures within { result ≤ at + 20 }
    ensures text { take result out.new ≡ take at out.old ++ decimal_of n }
{
    let mut buffer = Buffer::new();
    let text = buffer.format(n).as_bytes();
    let end = at + text.len();
    out[at..end].copy_from_slice(text);
    end
}

// A space and the number.
fn spaced(out: &mut [u8], at: usize, n: u64) -> usize
    requires { at + 21 ≤ length out.old }
    ensures within { result ≤ at + 21 }
    ensures text { take result out.new ≡ take at out.old ++ (32 ∷ decimal_of n) }
{
    out[at] = b' ';
    digits(out, at + 1, n)
}

// The values, each after a space.
fn fields(out: &mut [u8], at: usize, values: &[u64]) -> usize
    requires { at + 21 * length values.now ≤ length out.old }
    ensures within { result ≤ at + 21 * length values.now }
    ensures text { take result out.new ≡ take at out.old ++ spaced_of values.now }
{
    let mut end = at;
    for value in values {
        end = spaced(out, end, *value);
    }
    end
}

// The values and the newline.
fn closed(out: &mut [u8], at: usize, values: &[u64]) -> usize
    requires { at + 21 * length values.now < length out.old }
    ensures within { result ≤ at + 21 * length values.now + 1 }
    ensures text { take result out.new ≡ take at out.old ++ closed_by values.now }
{
    let last = fields(out, at, values);
    out[last] = b'\n';
    last + 1
}

// The line of a record.
pub fn line(out: &mut [u8], number: u64, op: u64, answer: u64, values: &[u64]) -> usize
    requires { 63 + 21 * length values.now ≤ length out.old }
    ensures within { result ≤ 63 + 21 * length values.now }
    ensures text { take result out.new ≡ line_of number op answer values.now }
{
    let a = digits(out, 0, number);
    let b = spaced(out, a, op);
    let c = spaced(out, b, answer);
    closed(out, c, values)
}

// A line that starts with a word.
pub fn said(out: &mut [u8], word: &[u8], values: &[u64]) -> usize
    requires { length word.now + 21 * length values.now < length out.old }
    ensures within { result ≤ length word.now + 21 * length values.now + 1 }
    ensures text { take result out.new ≡ text_of word.now values.now }
{
    let at = word.len();
    out[..at].copy_from_slice(word);
    closed(out, at, values)
}
