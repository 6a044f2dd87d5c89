// The new weights (document 01, "The new weights"): the marks, with the rests of wires and of pairs added. The rests are found by the
// weights less the marks, summed for each parity over those that name all its wires. At one wire that is l of the weights less l of the
// marks, modulo 8; at two wires it is minus the same of q, modulo 4.
ghost use Rattle.std.specs.Prelude.{◌≢◌, ◌≡◌, ◌%◌, ◌+◌, ◌*◌, ◌<◌, ◌≤◌, ◌^◌, length};
ghost use Rattle.std.specs.Int.Count.{ones};
ghost use Rattle.gf2.specs.Over.{Below};
ghost use Rattle.gf2.specs.Sum.{sum};
ghost use Rattle.circuit.specs.Limits.{parities};
ghost use Rattle.circuit.specs.Sound.{SoundMarks, SoundWeights, weight};
ghost use Rattle.phase.specs.NewWeights.{apart, new_weights};
ghost use Rattle.rests.specs.Rests.{RestsTo, most_rest, one_by, pair_by, rest_by};

use circuit::limits::{Mark, Parity, TABLE_BYTES, Weight};
use circuit::parity::wires_of;
use circuit::wires::Wires;
use sums::difference_sums;

// Internal: the caller has found no fault. The difference is 0 from 2^n up, so that the sums go over the parities of n wires alone; the
// marks are 0 from there on, as the new weights are.
pub fn put_new_weights(
    wires: Wires,
    w: &[Weight; TABLE_BYTES],
    u: &[Mark; TABLE_BYTES],
    out: &mut [Weight; TABLE_BYTES],
)
    requires { SoundWeights parities wires.count w.now × SoundMarks parities wires.count u.now }
    ensures { out.new ≡ new_weights parities wires.count w.now u.now }
{
    let mut room = [0; TABLE_BYTES];
    let s = difference_sums(wires, w, u, &mut room);
    put_marks(u, out);
    let sums = SumTable { wires, s };
    sums.add_rests(out);
}

// The marks, byte by byte: copied as slices or as arrays, they would need `memmove` of the C library.
fn put_marks(u: &[Mark; TABLE_BYTES], out: &mut [Weight; TABLE_BYTES])
    ensures { out.new ≡ u.now }
{
    for (p, x) in out.iter_mut().enumerate() {
        *x = u[p];
    }
}

// The sums on the parities of n wires. That a place p is one of them stands in clauses: it is the number of a loop over them.
#[derive(Clone, Copy)]
struct SumTable<'a> {
    wires: Wires,
    s: &'a [Weight],
    ghost fit: { length s.now ≡ 2 ^ wires.count },
}

impl SumTable<'_> {
    // The rest of each parity of n wires is added. Most name more than two wires, have none, and are not stored again.
    fn add_rests(&self, out: &mut [Weight; TABLE_BYTES])
        requires { Below 8 out.old }
        ensures { RestsTo self.now.wires.count self.now.s.now (2 ^ self.now.wires.count) out.old out.new }
    {
        for (p, x) in out[..self.s.len()].iter_mut().enumerate() {
            if wires_of(p as Parity) <= 2 {
                *x = with_rest(*x, self.rest(p));
            }
        }
    }

    // The rest on p: one wire, two, or more.
    fn rest(&self, p: usize) -> u32
        requires { p < 2 ^ self.now.wires.count }
        ensures { (result ≡ rest_by self.now.wires.count self.now.s.now p) × (result ≤ most_rest) }
    {
        match wires_of(p as Parity) {
            1 => self.one_rest(p),
            2 => pair_rest(self.s[p]),
            _ => 0,
        }
    }

    // What is left of l when the rests of the pairs with the wire of p are taken away.
    fn one_rest(&self, p: usize) -> u32
        requires { (p < 2 ^ self.now.wires.count) × (ones p ≡ 1) }
        ensures { (result ≡ one_by self.now.wires.count self.now.s.now p) × (result ≤ most_rest) }
    {
        (u32::from(self.s[p]) + 7 * self.pairs_with(p)) % 8
    }

    // The rests of the pairs with the wire of p, summed.
    fn pairs_with(&self, p: usize) -> u32
        requires { (p < 2 ^ self.now.wires.count) × (ones p ≡ 1) }
        ensures is { result ≡ sum self.now.wires.count (λ j. apart p (2 ^ j) * pair_by (weight self.now.s.now (p + 2 ^ j))) }
        ensures at_most { result ≤ most_rest * self.now.wires.count }
    {
        (0..self.wires.count)
            .map(|j| self.pair_with(p, 1 << j))
            .sum()
    }

    // The rest of the wires of p and of q, and nothing where they are one wire.
    fn pair_with(&self, p: usize, q: usize) -> u32
        requires { p ≢ q → p + q < length self.now.s.now }
        ensures { (result ≡ apart p q * pair_by (weight self.now.s.now (p + q))) × (result ≤ most_rest) }
    {
        if p == q {
            return 0;
        }
        pair_rest(self.s[p + q])
    }
}

// A member's 1, or 0, with the rest added.
fn with_rest(x: Weight, rest: u32) -> Weight
    requires { rest ≤ most_rest }
    ensures { result ≡ (x + rest) % 8 }
{
    ((u32::from(x) + rest) % 8) as Weight
}

// By the sum of two wires: 6 where q of weights and marks differs by 2, 0 where it is the same (equal signatures leave no other case).
fn pair_rest(x: Weight) -> u32
    ensures { (result ≡ pair_by x) × (result ≤ most_rest) }
{
    3 * (3 * u32::from(x) % 4)
}
