// One mark of an odd set: looked at, and flipped where it is lent. Internal: the caller names a parity.
ghost use Rattle.std.specs.Prelude.{◌≡◌, ◌<◌};
ghost use Rattle.circuit.specs.Limits.{parities};
ghost use Rattle.circuit.specs.Sound.{weight};
ghost use Rattle.moves.specs.CarryOut.{flip};

use circuit::limits::{Mark, Parity, TABLE_BYTES};

pub fn mark_at(marks: &[Mark; TABLE_BYTES], p: Parity) -> Mark
    requires { p < parities }
    ensures { result ≡ weight marks.now p }
{
    marks[usize::from(p)]
}

pub fn flip_mark(marks: &mut [Mark; TABLE_BYTES], p: Parity)
    requires { p < parities }
    ensures { marks.new ≡ flip marks.old p }
{
    let i = usize::from(p);
    marks[i] = 1 - marks[i] % 2;
}
