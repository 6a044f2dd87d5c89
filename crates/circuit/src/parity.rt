// The wires of a parity. What depends on the width of a parity stands here, once.
ghost use Rattle.std.specs.Prelude.{◌≢◌, ◌≡◌, ◌<◌, ◌^◌};
ghost use Rattle.std.specs.Int.Count.{ones};
ghost use Rattle.gf2.specs.Parity.{lowest};
ghost use Rattle.circuit.specs.Limits.{max_wires, parities};

use crate::limits::Parity;

// The parity of wire i alone.
pub fn unit(i: usize) -> Parity
    requires { i < max_wires }
    ensures { result ≡ 2 ^ i }
{
    1 << i
}

// How many wires p names.
pub fn wires_of(p: Parity) -> u32
    ensures { result ≡ ones p }
{
    p.count_ones()
}

// The lowest wire that p names.
pub fn lowest(p: Parity) -> usize
    requires { (p ≢ 0) × (p < parities) }
    ensures { (result ≡ lowest max_wires p) × (result < max_wires) }
{
    u64::from(p).trailing_zeros() as usize
}
