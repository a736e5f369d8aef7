// Plays a log: reads it on standard input and prints its text on standard output. What is printed is the library's, part after part.
#![tactic(auto)]

use laws::refusals;
use operations::Tables;
use oplog::replay;
use shown::Answer;
use standard::{Onward, Part};
use std::io::Input;

// The tables afterwards, and whether the whole text was printed: else a read or a write failed, which is told.
#[derive(Drop)]
pub struct Played {
    pub tables: Tables,
    pub whole: bool,
}

// How far the log has been replayed.
#[derive(Drop)]
struct Replay {
    place: replay::Place,
}

impl Onward for Replay {
    ghost reached = { λ r. r.place.offset };

    // A part that ends for want of room has taken a record or more, and the next goes on from there.
    fn put(&mut self, log: &[u8], out: &mut [u8]) -> Part {
        let part = replay::replay(log, out, self.place);
        let full = part.answer.number() == refusals::NO_ROOM;
        self.place = part.place;
        Part {
            len: part.at,
            next: full.then_some(part.place.offset),
        }
    }
}

// Plays standard input.
pub fn play<R: Input + Print + Eprint>(rt: &R) -> Played {
    let place = replay::start();
    let mut text = Replay { place };
    let whole = standard::play_onward(rt, &mut text);
    let tables = text.place.tables;
    Played { tables, whole }
}
