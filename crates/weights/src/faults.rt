// What is lent for the coefficients, judged.
ghost use Rattle.std.specs.Prelude.{◌≡◌};
ghost use Rattle.circuit.specs.Told.{fault_told};
ghost use Rattle.weights.specs.Entry.{lists_fault};

use circuit::faults::Fault;
use circuit::limits::{MAX_WIRES, PAIR_BYTES, TRIPLE_BYTES};
use judges::faults::check_lent;

// Fault 8 of the lists lent for the coefficients, by their lengths.
pub fn check_lists(l: usize, q: usize, c: usize) -> Result<(), Fault>
    ensures { fault_told result ≡ lists_fault l q c }
{
    check_lent(l, MAX_WIRES)?;
    check_lent(q, PAIR_BYTES)?;
    check_lent(c, TRIPLE_BYTES)
}
