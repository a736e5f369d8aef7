// What a line of the log shows of an answer, its number and its values, and how each answer says it.
#![tactic(auto)]

ghost use Rattle.std.specs.Prelude.{◌≡◌, ℕ, List, [], ◌∷◌};
ghost use Rattle.laws.specs.Refusals.{none};
ghost use Rattle.shown.specs.Shown.{shown, pushed, of_either};

use laws::refusals;

// `count` of the values are shown, from the first on; the others are 0.
#[derive(Clone, Copy)]
pub struct Shown {
    pub number: u8,
    pub values: [u64; 12],
    pub count: usize,
}

// The places of a line's values.
const ROOM: usize = 12;

impl Shown {
    // There is room for twelve values.
    pub fn new(number: u8, first: &[u64]) -> Self
        ensures { result ≡ shown number first.now }
    {
        let mut values = [0; ROOM];
        let fits = first.len().min(ROOM);
        values[..fits].copy_from_slice(&first[..fits]);
        Shown {
            number,
            values,
            count: first.len(),
        }
    }

    // One value more. There is no thirteenth.
    pub fn push(mut self, x: u64) -> Self
        ensures { result ≡ pushed self x }
    {
        let i = self.count;
        if i < ROOM {
            self.values[i] = x;
            self.count = i + 1;
        }
        self
    }
}

// An answer, and the table that it was asked of, as it is afterwards.
#[derive(Drop)]
pub struct Answered<A, T> {
    pub answer: A,
    pub table: T,
}

// What a line can show: what a call has done, why it has not, or either.
pub trait Answer: Copy {
    ghost number_of: { Self → ℕ } = { λ _. none };

    ghost values_of: { Self → List ℕ } = { λ _. [] };

    fn shown(self) -> Shown
        ensures { result ≡ shown (number_of self) (values_of self) };

    // 0, or the refusal's.
    fn number(self) -> u8
        ensures { result ≡ number_of self }
    {
        self.shown().number
    }
}

impl Answer for () {
    fn shown(self) -> Shown {
        Shown::new(refusals::NONE, &[])
    }
}

impl Answer for u32 {
    ghost values_of = { λ n. n ∷ [] };

    fn shown(self) -> Shown {
        Shown::new(refusals::NONE, &[self as u64])
    }
}

impl Answer for usize {
    ghost values_of = { λ n. n ∷ [] };

    fn shown(self) -> Shown {
        Shown::new(refusals::NONE, &[self as u64])
    }
}

impl<T: Answer, E: Answer> Answer for Result<T, E> {
    ghost number_of = { of_either T.number_of E.number_of };

    ghost values_of = { of_either T.values_of E.values_of };

    fn shown(self) -> Shown {
        match self {
            Ok(done) => done.shown(),
            Err(refusal) => refusal.shown(),
        }
    }
}
