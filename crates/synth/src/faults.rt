// The checks of a call that writes a list: 1, 8, 6, then 7 of document 01. What has no fault is a wire count within the limit, a table of
// weights and one of rows, and is given back so.
ghost use Rattle.std.specs.Prelude.{◌≡◌, ◌-◌, ◌^◌, IfOk};
ghost use Rattle.circuit.specs.Limits.{max_wires, row_cells};
ghost use Rattle.circuit.specs.Told.{fault_told};
ghost use Rattle.written.specs.Faults.{Shaped, row_most, beyond_fault, cancel_fault, rows_fault, write_fault};

use crate::solving::Solving;
use circuit::faults::Fault;
use circuit::limits::{MAX_WEIGHT, MAX_WIRES, Parity, TABLE_BYTES, WRITE_BYTES, Weight};
use circuit::wires::Wires;
use judges::faults::check_room;
use judges::table_faults::check_call;

// The first fault of a call, by the length of the gates lent.
pub fn check_write<'a>(
    n: usize,
    weights: &'a [Weight],
    rows: &'a [Parity],
    gates: usize,
) -> Result<(Wires, &'a [Weight; TABLE_BYTES], &'a [Parity; MAX_WIRES]), Fault>
    ensures fault { fault_told result ≡ write_fault n weights.now rows.now gates }
    ensures same { IfOk result (λ sound. (sound.0.count ≡ n) × (sound.1.now ≡ weights.now) × (sound.2.now ≡ rows.now)) }
{
    let lent = check_room(gates, WRITE_BYTES);
    let (wires, weights) = check_call(n, lent, MAX_WEIGHT, weights)?;
    let rows = check_rows(wires, rows)?;
    Ok((wires, weights, rows))
}

// Fault 7: rows that are not one for each wire there can be, have a bit or row beyond n, or are not invertible. The wire count and the rows
// make no struct: it would be made here and taken apart in the next two functions and in `Solving`, and the weights go by that count too.
fn check_rows(wires: Wires, rows: &[Parity]) -> Result<&[Parity; MAX_WIRES], Fault>
    ensures fault { fault_told result ≡ rows_fault row_cells wires.count rows.now }
    ensures same { IfOk result (λ whole. whole.now ≡ rows.now) }
{
    let Some(whole) = rows.as_array::<MAX_WIRES>() else {
        return Err(Fault::RowRule);
    };
    check_beyond(wires, whole)?;
    check_dependence(wires, whole)?;
    Ok(whole)
}

// A bit or row beyond n.
fn check_beyond(wires: Wires, rows: &[Parity; MAX_WIRES]) -> Result<(), Fault>
    ensures { fault_told result ≡ beyond_fault wires.count 0 rows.now }
{
    for (i, &row) in rows.iter().enumerate() {
        if row > row_most(wires, i) {
            return Err(Fault::RowRule);
        }
    }
    Ok(())
}

// The most that row i may be. It shares nothing with the reader's `first_row`, which asks i < n too: the values are others, of another
// meaning.
fn row_most(wires: Wires, i: usize) -> Parity
    ensures { result ≡ row_most wires.count i }
{
    if i < wires.count {
        (wires.parities() - 1) as Parity
    } else {
        0
    }
}

// Dependent rows: some mask, on the way to 2^i, has no pivot. That rows are Shaped is asked for here alone, and so by a clause.
fn check_dependence(wires: Wires, rows: &[Parity; MAX_WIRES]) -> Result<(), Fault>
    requires { Shaped max_wires wires.count rows.now }
    ensures { fault_told result ≡ cancel_fault (2 ^ wires.count - 1) rows.now }
{
    for row in Solving::new(wires, rows) {
        row?;
    }
    Ok(())
}
