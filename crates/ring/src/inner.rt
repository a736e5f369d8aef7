// Steps of a ring of depth d that is known to have room, or something in it, and the test of a ring whose depth is no huge number.
ghost use Rattle.std.specs.Prelude.{◌≡◌, ◌+◌, ◌<◌, ◌^◌};
ghost use Rattle.ring.specs.Ring.{put_in, taken_out, ring_test};

use crate::Ring;

// One place more is taken, the one at `head`.
pub fn put_in(r: Ring, d: usize) -> Ring
    requires { (r.head < d) × (r.len < d) }
    ensures { result ≡ put_in d r }
{
    Ring {
        head: (r.head + 1) % d,
        len: r.len + 1,
        ..r
    }
}

// The place at `tail` is free again.
pub fn take_out(r: Ring, d: usize) -> Ring
    requires { (r.tail < d) × (0 < r.len) }
    ensures { result ≡ taken_out d r }
{
    Ring {
        tail: (r.tail + 1) % d,
        len: r.len - 1,
        ..r
    }
}

// Whether it is a ring of depth d.
pub fn is_ring(r: Ring, d: usize) -> bool
    requires { d + d < 2 ^ 64 }
    ensures { result ≡ ring_test d r }
{
    r.len <= d && r.head < d && r.tail < d && r.head == (r.tail + r.len) % d
}
