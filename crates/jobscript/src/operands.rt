// The operands of a record, each at its place: the mark is at 0 and 1, the operation at 2.
ghost use Rattle.std.specs.Prelude.{◌≡◌, ◌<◌};
ghost use Rattle.logread.specs.Little.{byte_at};
ghost use Rattle.jobscript.specs.Operands.{sizes_at, tag_at, variant_at, variants_at, payload_at, task_at};

use dispatcher_rules::state::{MAX_VARIANTS, Tag, Variant};
use ipc_rules::state::{Payload, Sizes, TaskId};
use logread::{byte_at, u16_at, u32_at, u64_at};
use std::array;

// Where the variants of `new` start, and how many bytes each has: a tag and a row.
const VARIANTS: usize = 7;

const VARIANT: usize = 6;

// A row, a slot, a place, a size or a count: one byte.
pub fn index_at(script: &[u8], at: usize) -> usize
    ensures { result ≡ byte_at script.now at }
{
    byte_at(script, at) as usize
}

pub fn tag_at(script: &[u8], at: usize) -> Tag
    requires { at < 128 }
    ensures { result ≡ tag_at script.now at }
{
    Tag {
        bytes: array::from_fn(|k| byte_at(script, at + k)),
    }
}

fn variant_at(script: &[u8], i: usize) -> Variant
    requires { i < 16 }
    ensures { result ≡ variant_at script.now i }
{
    let at = VARIANTS + VARIANT * i;
    Variant {
        tag: tag_at(script, at),
        row: index_at(script, at + 5),
    }
}

// All sixteen of `new`: how many are bound is making's to look at.
pub fn variants(script: &[u8]) -> [Variant; MAX_VARIANTS]
    ensures { result ≡ variants_at script.now }
{
    array::from_fn(|i| variant_at(script, i))
}

// Those of `new`.
pub fn sizes(script: &[u8]) -> Sizes
    ensures { result ≡ sizes_at script.now }
{
    Sizes {
        mailboxes: index_at(script, 3),
        endpoints: index_at(script, 4),
        depth: index_at(script, 5),
    }
}

// That of `send`, after row and slot.
pub fn payload(script: &[u8]) -> Payload
    ensures { result ≡ payload_at script.now }
{
    Payload {
        tag: u32_at(script, 5),
        a: u64_at(script, 9),
        b: u64_at(script, 17),
    }
}

// That of `park`, after row and slot.
pub fn task(script: &[u8]) -> TaskId
    ensures { result ≡ task_at script.now }
{
    TaskId {
        slot: u16_at(script, 5),
        epoch: u16_at(script, 7),
    }
}
