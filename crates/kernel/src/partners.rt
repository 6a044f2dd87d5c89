// The members and a number z, by which y and y ^ z are partners.
ghost use Rattle.std.specs.Prelude.{◌<◌};
ghost use Rattle.std.specs.Int.Bits.{bit_xor};
ghost use Rattle.circuit.specs.Limits.{parities};
ghost use Rattle.circuit.specs.OddSet.{Member};
ghost use Rattle.gf2.specs.Tests.{Decides};

use circuit::limits::{Mark, Parity, TABLE_BYTES};
use moves::marks::mark_at;

#[derive(Clone, Copy)]
pub struct Partners<'a> {
    pub marks: &'a [Mark; TABLE_BYTES],
    pub z: Parity,
    pub ghost z_is_parity: { z < parities },
}

impl Partners<'_> {
    // Whether the partner of y is a member.
    pub(crate) fn has_partner(&self, y: Parity) -> bool
        requires { y < parities }
        ensures { Decides result (Member self.now.marks.now (bit_xor y self.now.z)) }
    {
        mark_at(self.marks, y ^ self.z) == 1
    }
}
