// Superset sums of one table less another, modulo 8, made in place: each parity gets the sum over those that name all its wires. At one
// wire that is l of the first less l of the second, modulo 8; at two wires it is minus the same of q, modulo 4; at three it is the same of
// c, modulo 2. So one pass over the wires gives all coefficients. The new weights and the comparison of two lists share it. No entry.
#![tactic(auto)]

ghost use Rattle.std.specs.Prelude.{◌≡◌, ◌^◌, ◌≤◌, length};
ghost use Rattle.gf2.specs.Over.{Below};
ghost use Rattle.sums.specs.Difference.{DifferenceSums, Summable, difference};

pub mod summing;

use circuit::limits::Weight;
use circuit::wires::Wires;
use summing::put_sums;

// The sums of w less u, on the parities of so many wires: they are made at the start of the room lent. Internal: the caller brings tables
// that have these parities.
pub fn difference_sums<'a>(
    wires: Wires,
    w: &[Weight],
    u: &[Weight],
    room: &'a mut [Weight],
) -> &'a [Weight]
    requires { (2 ^ wires.count ≤ length room.old) × Summable wires.count w.now × Summable wires.count u.now }
    ensures { DifferenceSums wires.count w.now u.now result.now }
{
    let sums = &mut room[..wires.parities()];
    put_difference_sums(wires, w, u, sums);
    sums
}

// The same, in the whole of what is lent: of a room from which a result borrows, as above, no clause says what it then holds. Internal: the
// caller lends room for these sums alone.
pub fn put_difference_sums(wires: Wires, w: &[Weight], u: &[Weight], s: &mut [Weight])
    requires { (length s.old ≡ 2 ^ wires.count) × Summable wires.count w.now × Summable wires.count u.now }
    ensures { DifferenceSums wires.count w.now u.now s.new }
{
    put_difference(w, u, s);
    put_sums(wires, s);
}

// w less u, modulo 8.
fn put_difference(w: &[Weight], u: &[Weight], out: &mut [Weight])
    requires { (length out.old ≤ length w.now) × (length out.old ≤ length u.now) × Below 8 w.now × Below 8 u.now }
    ensures { out.new ≡ difference (length out.old) w.now u.now }
{
    // Not by `zip`, as `summing::add_block` says.
    for (p, x) in out.iter_mut().enumerate() {
        *x = (w[p] + 7 * u[p]) % 8;
    }
}
