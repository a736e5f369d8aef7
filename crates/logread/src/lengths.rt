// How many bytes of operands each operation has.
ghost use Rattle.std.specs.Prelude.{◌≡◌, ◌<◌};
ghost use Rattle.logread.specs.Read.{length_of};

// By operation, 0 upward.
const LENGTHS: [u8; 28] = [
    3, 1, 25, 4, 8, 4, 4, 20, 20, 4, 4, 0, 0, 2, 5, 21, 6, 4, 1, 4, 4, 4, 4, 4, 21, 1, 6, 0,
];

#[tactic(auto, using(crate::proofs::Few::operands_few), unfolding(crate::specs::Read::length_of, crate::specs::Read::lengths))]
pub fn operand_length(op: u8) -> usize
    requires { op < 28 }
    ensures { result ≡ length_of op }
{
    LENGTHS[op as usize] as usize
}
