// A ring of d places: where it is written next, where it is read next, and how many of its places are taken. What stands in the places is
// kept elsewhere, and who waits for it is no part of it.
#![tactic(auto)]

pub mod inner;

ghost use Rattle.std.specs.Prelude.{◌≡◌};
ghost use Rattle.ring.specs.Ring.{is_fresh_ring};

#[derive(Clone, Copy, PartialEq, Eq)]
pub struct Ring {
    pub head: usize,
    pub tail: usize,
    pub len: usize,
}

impl Ring {
    // Nothing is in it.
    pub const FRESH: Ring = Ring {
        head: 0,
        tail: 0,
        len: 0,
    };
}

// Whether a ring is as when fresh.
pub fn is_fresh(r: Ring) -> bool
    ensures { result ≡ is_fresh_ring r }
{
    r == Ring::FRESH
}
