// Reads a job script on standard input and prints a line for each record, then `end` and their number, or `bad`, an offset and a fault's
// number. What is printed is the library's, part after part.
#![tactic(auto)]

use jobtext::Place;
use laws::refusals;
use shown::Answer;
use standard::{Onward, Part};

// How far the script has been answered.
#[derive(Drop)]
struct Answers {
    place: Place,
}

impl Onward for Answers {
    ghost reached = { λ a. a.place.offset };

    // A part that ends for want of room has taken a record or more, and the next goes on from there.
    fn put(&mut self, script: &[u8], out: &mut [u8]) -> Part {
        let part = jobtext::answer(script, out, self.place);
        let full = part.answer.number() == refusals::NO_ROOM;
        self.place = part.place;
        Part {
            len: part.at,
            next: full.then_some(part.place.offset),
        }
    }
}

fn main(rt: HostRuntime) {
    let place = jobtext::begin();
    standard::play_onward(&rt, &mut Answers { place });
}
