// Lines of decimal numbers on standard output. A write that fails is not told.
use cap::Slot;
use manifest::{BindError, Binding, bind_shown};
use shown::{Answer, Shown};
use std::fmt;

// A place of a row as a line shows it: 0, or 1 and the id.
#[derive(Drop)]
struct Place(Option<u32>);

impl fmt::Display for Place {
    fn fmt<W: fmt::Write>(&self, f: &mut fmt::Formatter<W>) -> fmt::Result {
        match self.0 {
            Some(raw) => write!(f, "1 {raw}"),
            None => write!(f, "0"),
        }
    }
}

// The id that a slot holds, if it does.
fn raw(slot: &Slot) -> Option<u32> {
    slot.present.then_some(slot.id.raw)
}

// Whether two answers show the same.
fn same_shown(a: Shown, b: Shown) -> bool {
    (a.number == b.number) & (a.values == b.values)
}

// Whether two bindings are one: answers, values and places.
pub(crate) fn same(a: Binding, b: Binding) -> bool {
    let places = a.slots.iter().zip(&b.slots).all(|(s, t)| raw(s) == raw(t));
    same_shown(bind_shown(a.answer), bind_shown(b.answer)) & places
}

pub(crate) fn write<P: Print>(to: &P, binding: Binding) {
    let number = binding.answer.number();
    let _ = match binding.answer {
        Ok(()) => {
            let [a, b, c, d] = binding.slots.map(|s| Place(raw(&s)));
            println!(to; "{number} {a} {b} {c} {d}")
        }
        Err(BindError::NoSuchCapability { slot, index, held }) => {
            println!(to; "{number} {slot} {index} {held}")
        }
        Err(BindError::PacketPoolRequired { slot, index })
        | Err(BindError::HeldVacant { slot, index }) => println!(to; "{number} {slot} {index}"),
        Err(BindError::BadWord) => println!(to; "{number}"),
    };
}

pub(crate) fn write_bad<P: Print>(to: &P, at: u64) {
    let _ = println!(to; "bad {at}");
}
