// The fault of what is lent to the trim.
ghost use Rattle.std.specs.Prelude.{◌≡◌};
ghost use Rattle.circuit.specs.Told.{fault_told};
ghost use Rattle.trimmer.specs.Entry.{trim_lent};

use circuit::faults::Fault;
use circuit::limits::{LOG_CELLS, WRITE_BYTES};
use judges::faults::check_room;

// Fault 8, by the lengths of the gates and of the log lent.
pub fn check_trim_lent(out: usize, log: usize) -> Result<(), Fault>
    ensures { fault_told result ≡ trim_lent out log }
{
    check_room(out, WRITE_BYTES)?;
    check_room(log, LOG_CELLS)
}
