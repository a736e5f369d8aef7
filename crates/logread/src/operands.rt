// Refusal 25: the flag of create, the lists of register, release, seed and spawn, and the row of send.
ghost use Rattle.std.specs.Prelude.{◌≡◌};
ghost use Rattle.logread.specs.Operands.{operands_ok};

use crate::lists::{flag_ok, list_ok};
use crate::little::byte_at;
use crate::op;
use cap::ROWS;

// A send's row comes last, after id, tag, a and b.
const SEND_ROW: usize = 27;

#[tactic(auto, unfolding(crate::specs::Operands::operands_ok, laws::specs::Pick::pick))]
pub fn operands_ok(op: u8, log: &[u8]) -> bool
    ensures { result ≡ operands_ok op log.now }
{
    match op {
        op::CREATE => flag_ok(byte_at(log, 3)),
        op::REGISTER | op::RELEASE => list_ok(log, 3),
        op::SEED | op::SPAWN => list_ok(log, 4),
        op::SEND => (byte_at(log, SEND_ROW) as usize) < ROWS,
        _ => true,
    }
}
