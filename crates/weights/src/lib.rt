// Weights: their odd set and their coefficients (document 01, "Signature").
// Public entries: `odd_set`, `coefficients`. Their promises are the records of specs/Entry; proofs/Laws says what they mean.
#![tactic(auto)]

ghost use Rattle.std.specs.Prelude.{◌≡◌, length};
ghost use Rattle.circuit.specs.OddSet.{odd_set};
ghost use Rattle.circuit.specs.Told.{told};
ghost use Rattle.weights.specs.Entry.{OddSetOf, CoefficientsOf};

pub mod faults;
pub mod lists;
pub mod sums;

use circuit::faults::Refusal;
use circuit::limits::{Coefficient, MAX_WEIGHT, Mark, TABLE_BYTES, Weight};
use faults::check_lists;
use judges::faults::check_lent;
use judges::table_faults::check_call;
use lists::put_lists;

// The odd set of weights. A refusal leaves the marks as they were.
pub fn odd_set(n: usize, weights: &[Weight], marks: &mut [Mark]) -> Result<(), Refusal>
    ensures { OddSetOf n weights.now marks.old marks.new (told result) }
{
    let lent = check_lent(marks.len(), TABLE_BYTES);
    let (_, w) = check_call(n, lent, MAX_WEIGHT, weights)?;
    put_odd_set(w, marks);
    Ok(())
}

// The coefficients of weights: l(i) at i, q(i, j) at N j + i, c(i, j, k) at N N k + N j + i, for wires i < j < k below n, and 0 elsewhere;
// N is MAX_WIRES. A refusal leaves the three lists as they were.
pub fn coefficients(
    n: usize,
    weights: &[Weight],
    l: &mut [Coefficient],
    q: &mut [Coefficient],
    c: &mut [Coefficient],
) -> Result<(), Refusal>
    ensures { CoefficientsOf n weights.now l.old q.old c.old
        l.new q.new c.new (told result) }
{
    let lent = check_lists(l.len(), q.len(), c.len());
    let (_, w) = check_call(n, lent, MAX_WEIGHT, weights)?;
    // Without a fault each list is as long as its array. To say so by types, the judge of the call would have to take all three and give
    // them back.
    put_lists(
        n,
        w,
        l.as_mut_array().unwrap(),
        q.as_mut_array().unwrap(),
        c.as_mut_array().unwrap(),
    );
    Ok(())
}

// Internal: the caller lends as many marks as weights. It is public for the trim, which has proved its weights sound.
pub fn put_odd_set(weights: &[Weight], marks: &mut [Mark])
    requires { length weights.now ≡ length marks.old }
    ensures { marks.new ≡ odd_set weights.now }
{
    // Not `marks.iter_mut().zip(weights)`: tried, and then a proof knows how many marks there are, and no mark. Nor copied, and then
    // changed in place: that took 15 ns, and this takes 12.
    for (p, mark) in marks.iter_mut().enumerate() {
        *mark = weights[p] % 2;
    }
}
