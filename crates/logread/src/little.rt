// Little-endian numbers at a place of the log. A byte past the end reads as 0.
ghost use Rattle.std.specs.Prelude.{◌≡◌, ℕ, ◌+◌, ◌<◌, length, slice_index};
ghost use Rattle.logread.specs.Little.{little_at, byte_at};

use std::array;

pub fn byte_at(s: &[u8], at: usize) -> u8
    ensures { result ≡ byte_at s.now at }
{
    s.get(at).copied().unwrap_or(0)
}

// The `N` bytes from a place on.
fn bytes_at<const N: usize>(s: &[u8], at: usize) -> [u8; N]
    ensures long { length result ≡ N }
    ensures each { (i : ℕ) → i < N → slice_index result i ≡ byte_at s.now (at + i) }
{
    let rest = &s[at.min(s.len())..];
    array::from_fn(|i| byte_at(rest, i))
}

pub fn u16_at(s: &[u8], at: usize) -> u16
    ensures { result ≡ little_at s.now at 2 }
{
    u16::from_le_bytes(bytes_at(s, at))
}

pub fn u32_at(s: &[u8], at: usize) -> u32
    ensures { result ≡ little_at s.now at 4 }
{
    u32::from_le_bytes(bytes_at(s, at))
}

pub fn u64_at(s: &[u8], at: usize) -> u64
    ensures { result ≡ little_at s.now at 8 }
{
    u64::from_le_bytes(bytes_at(s, at))
}
