// A dispatcher made, and parts of it set: this way come dispatchers that no making answers.
use crate::op;
use dispatcher_rules::state::{Dispatcher, MAX_VARIANTS, NO_VARIANT, Tag, Variant};
use edgescript::operands::{byte, rest, size};
use edgescript::print;
use shown::Answer;
use std::array;

// Five bytes.
pub(crate) fn tag(w: &[u64]) -> Tag {
    Tag {
        bytes: array::from_fn(|i| byte(w, i)),
    }
}

// Its place; tag, row.
fn set_variant(mut d: Dispatcher, w: &[u64]) -> Dispatcher {
    d.variants[size(w, 0) % MAX_VARIANTS] = Variant {
        tag: tag(rest(w, 1)),
        row: size(w, 6),
    };
    d
}

fn set_count(mut d: Dispatcher, w: &[u64]) -> Dispatcher {
    d.count = size(w, 0);
    d
}

fn make<P: Print>(to: &P, d: Dispatcher, w: &[u64]) -> Dispatcher {
    let x = dispatcher::make(size(w, 0), d.variants);
    print::answer(to, x.answer.shown());
    x.dispatcher
}

pub(crate) fn call<P: Print>(to: &P, op: u8, d: Dispatcher, w: &[u64]) -> Dispatcher {
    match op {
        op::MAKE => make(to, d, w),
        op::SET_VARIANT => set_variant(d, w),
        op::SET_COUNT => set_count(d, w),
        _ => d,
    }
}

pub(crate) fn fresh() -> Dispatcher {
    dispatcher::make(0, [NO_VARIANT; MAX_VARIANTS]).dispatcher
}
