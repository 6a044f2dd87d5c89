// Writing a list of gates from weights and rows (document 01, "The new weights").
// Public entry: `write`. Its promise is the record WriteList of specs/Entry; proofs/Laws says what the promise means. What a written list
// is, and which faults a call has, is defined in `written`.
#![tactic(auto)]

ghost use Rattle.std.specs.Prelude.{length};
ghost use Rattle.synth.specs.Entry.{WriteList, WroteBytes};
ghost use Rattle.written.specs.Faults.{Writable};

pub mod faults;
pub mod masks;
pub mod phases;
pub mod rows;
pub mod solving;
pub mod spelling;
pub mod storing;

use circuit::faults::Refusal;
use circuit::limits::{MAX_WIRES, Parity, TABLE_BYTES, Weight};
use circuit::wires::Wires;
use faults::check_write;
use phases::write_phases;
use rows::write_rows;
use storing::Writer;

// Writes gates for weights and rows into lent bytes, from the first byte on, and gives their number. A refusal leaves the bytes as they
// were.
pub fn write(
    n: usize,
    weights: &[Weight],
    rows: &[Parity],
    gates: &mut [u8],
) -> Result<usize, Refusal>
    ensures { WriteList n weights.now rows.now gates.old gates.new result }
{
    let (wires, weights, rows) = check_write(n, weights, rows, gates.len())?;
    Ok(write_sound(wires, weights, rows, gates))
}

// The gates, and their number. Internal: the caller has found no fault. It is public for the trim, which has proved its weights and rows
// sound.
pub fn write_sound(
    wires: Wires,
    weights: &[Weight; TABLE_BYTES],
    rows: &[Parity; MAX_WIRES],
    gates: &mut [u8],
) -> usize
    requires { Writable wires.count weights.now rows.now (length gates.old) }
    ensures { WroteBytes wires.count weights.now rows.now gates.old gates.new result }
{
    let mut to = Writer::new(wires, gates);
    write_phases(&mut to, weights);
    write_rows(&mut to, rows);
    to.count
}
