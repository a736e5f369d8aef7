// The operands of a record, each at its place.
ghost use Rattle.std.specs.Prelude.{◌≡◌, ◌<◌};
ghost use Rattle.logread.specs.Little.{byte_at};
ghost use Rattle.operations.specs.Operands.{id_at, task_at, payload_at, sizes_at};

use cap::CapId;
use ipc_rules::state::{Payload, Sizes, TaskId};
use logread::{byte_at, u16_at, u32_at, u64_at};

// A row, a slot or a size: one byte.
pub fn index_at(log: &[u8], at: usize) -> usize
    ensures { result ≡ byte_at log.now at }
{
    byte_at(log, at) as usize
}

pub fn id_at(log: &[u8], at: usize) -> CapId
    ensures { result ≡ id_at log.now at }
{
    CapId {
        raw: u32_at(log, at),
    }
}

pub fn task_at(log: &[u8], at: usize) -> TaskId
    requires { at < 64 }
    ensures { result ≡ task_at log.now at }
{
    TaskId {
        slot: u16_at(log, at),
        epoch: u16_at(log, at + 2),
    }
}

pub fn payload_at(log: &[u8], at: usize) -> Payload
    requires { at < 64 }
    ensures { result ≡ payload_at log.now at }
{
    Payload {
        tag: u32_at(log, at),
        a: u64_at(log, at + 4),
        b: u64_at(log, at + 12),
    }
}

pub fn sizes_at(log: &[u8], at: usize) -> Sizes
    requires { at < 64 }
    ensures { result ≡ sizes_at log.now at }
{
    Sizes {
        mailboxes: index_at(log, at),
        endpoints: index_at(log, at + 1),
        depth: index_at(log, at + 2),
    }
}
