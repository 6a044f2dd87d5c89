// The new weights of document 01, for a circuit's weights and an odd set: each mark, and the even rest.
// Public entry: `new_weights`. Its promise is the record NewWeightsOf of specs/Entry; proofs/Laws says what the promise means.
#![tactic(auto)]

ghost use Rattle.circuit.specs.Told.{told};
ghost use Rattle.rests.specs.Entry.{NewWeightsOf};

pub mod weighing;

use circuit::faults::Refusal;
use circuit::limits::{MAX_MARK, MAX_WEIGHT, Mark, TABLE_BYTES, Weight};
use judges::faults::check_lent;
use judges::table_faults::{check_call, check_table};
use weighing::put_new_weights;

// The new weights for a circuit's weights and an odd set. A refusal leaves the output as it was.
pub fn new_weights(
    n: usize,
    weights: &[Weight],
    marks: &[Mark],
    out: &mut [Weight],
) -> Result<(), Refusal>
    ensures { NewWeightsOf n weights.now marks.now out.old out.new (told result) }
{
    let lent = check_lent(out.len(), TABLE_BYTES);
    let (wires, w) = check_call(n, lent, MAX_WEIGHT, weights)?;
    let u = check_table(n, MAX_MARK, marks)?;
    // Without a fault the output is as long as a table. To say so by a type, the judge of the call would have to take it and give it back.
    put_new_weights(wires, w, u, out.as_mut_array().unwrap());
    Ok(())
}
