// What an id opens: a mailbox, or nothing. A task is not told why nothing: that would tell a forger what to mend. The supervisor is.
ghost use Rattle.std.specs.Prelude.{◌≡◌};
ghost use Rattle.ipc_rules.specs.Why.{reason_number};

#[derive(Clone, Copy, PartialEq, Eq)]
pub enum Opening {
    Opens(usize),
    Shut,
}

// Why an id opens nothing, in the order of the tests.
#[derive(Clone, Copy, PartialEq, Eq)]
pub enum Reason {
    PastEnd,
    Dead,
    OtherGeneration,
    NoRight,
}

// What an id is tried for. `Either` is one of the first two; a revocation asks for no right.
#[derive(Clone, Copy, PartialEq, Eq)]
pub enum Asked {
    Send,
    Receive,
    Either,
    Revocation,
}

impl Reason {
    pub fn number(self) -> u8
        ensures { result ≡ reason_number self }
    {
        match self {
            Reason::PastEnd => 1,
            Reason::Dead => 2,
            Reason::OtherGeneration => 3,
            Reason::NoRight => 4,
        }
    }
}
