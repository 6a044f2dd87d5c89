// Reads a list of gates into weights and rows (document 01, "Weights and rows").
// Public entry: `read`. Its promise is the record ReadList of specs/Entry; proofs/Laws says what the promise means.
#![tactic(auto)]

ghost use Rattle.std.specs.Prelude.{◌≡◌, length};
ghost use Rattle.circuit.specs.Limits.{row_cells, table_bytes};
ghost use Rattle.circuit.specs.Told.{fault_told, told};
ghost use Rattle.reader.specs.Entry.{ReadList, ReadOut, read_lent};

pub mod reading;

use circuit::faults::{Fault, Refusal};
use circuit::limits::{Parity, ROW_CELLS, TABLE_BYTES, Weight};
use judges::faults::{FormedList, check_lent, check_list};
use reading::read_gates;

// Reads a list of gates into weights and rows. A refusal leaves both as they were.
pub fn read(
    n: usize,
    gates: &[u8],
    weights: &mut [Weight],
    rows: &mut [Parity],
) -> Result<(), Refusal>
    ensures { ReadList n gates.now weights.old rows.old weights.new rows.new (told result) }
{
    let list = check_list(n, gates, check_read_lent(weights.len(), rows.len()))?;
    put_reading(&list, weights, rows);
    Ok(())
}

// Fault 8, by the lengths of the weights and the rows lent.
fn check_read_lent(weights: usize, rows: usize) -> Result<(), Fault>
    ensures { fault_told result ≡ read_lent weights rows }
{
    check_lent(weights, TABLE_BYTES)?;
    check_lent(rows, ROW_CELLS)
}

// The weights and rows of an accepted list, into what is lent for them.
fn put_reading(list: &FormedList<'_>, weights: &mut [Weight], rows: &mut [Parity])
    requires { (length weights.old ≡ table_bytes) × (length rows.old ≡ row_cells) }
    ensures { ReadOut list.now.wires.count list.now.gates.now weights.new rows.new }
{
    let read = read_gates(list);
    weights.copy_from_slice(&read.weights);
    rows.copy_from_slice(&read.rows);
}
