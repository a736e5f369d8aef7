// How many bytes of operands each operation has.
ghost use Rattle.std.specs.Prelude.{◌≡◌, ◌<◌};
ghost use Rattle.jobscript.specs.Read.{length_of};

// By operation, 0 upward.
const LENGTHS: [u8; 8] = [100, 6, 1, 22, 2, 6, 1, 0];

pub fn operand_length(op: u8) -> usize
    requires { op < 8 }
    ensures { result ≡ length_of op }
{
    let i = op as usize;
    LENGTHS[i] as usize
}
