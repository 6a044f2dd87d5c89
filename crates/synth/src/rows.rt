// Writing the rows. Internal: the caller has found no fault.
ghost use Rattle.synth.specs.Storing.{RowsReady, Stored};
ghost use Rattle.written.specs.Writing.{write_rows};

use crate::solving::Solving;
use crate::storing::Writer;
use circuit::limits::{MAX_WIRES, Parity};

// The rows, after the gates that stand there.
pub fn write_rows(to: &mut Writer<'_>, rows: &[Parity; MAX_WIRES])
    requires { RowsReady to.old rows.now }
    ensures { Stored to.old to.new (write_rows to.old.wires.count rows.now) }
{
    for row in Solving::new(to.wires, rows) {
        let step = row.unwrap();
        to.push_cnots(step.lack, step.b as u8);
        to.push_cnots(step.surplus, step.r as u8);
    }
}
