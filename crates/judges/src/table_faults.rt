// Check 6 of document 01, and the calls that bring weights or marks: 1, 8, then 6. Weights or marks of another length, or with a byte
// against its rule, are at fault. What has no fault is a wire count within the limit and a table of the right length, and is given back so.
ghost use Rattle.std.specs.Prelude.{◌≡◌, ◌^◌, IfOk, min, length};
ghost use Rattle.circuit.specs.Limits.{parities, table_bytes};
ghost use Rattle.circuit.specs.TableFaults.{call_fault, table_fault};
ghost use Rattle.circuit.specs.Told.{fault_told};
ghost use Rattle.judges.specs.Largest.{Largest};

use crate::faults::check_wires;
use circuit::faults::Fault;
use circuit::limits::{MAX_WIRES, TABLE_BYTES};
use circuit::wires::Wires;

// A call that brings weights, or marks: 1, then 8 of the outputs lent, then 6. `most` is the largest weight, or mark.
pub fn check_call(
    n: usize,
    lent: Result<(), Fault>,
    most: u8,
    table: &[u8],
) -> Result<(Wires, &[u8; TABLE_BYTES]), Fault>
    ensures fault { fault_told result ≡ call_fault n (fault_told lent) (table_fault table_bytes n most table.now) }
    ensures same { IfOk result (λ sound. (sound.0.count ≡ n) × (sound.1.now ≡ table.now)) }
{
    let wires = check_wires(n)?;
    lent?;
    let table = check_table(n, most, table)?;
    Ok((wires, table))
}

// A table whose bytes are at most what may stand at their places: `most`, and nothing at 0 and from 2^n up. The largest byte tells of many
// at a time.
pub fn check_table(n: usize, most: u8, table: &[u8]) -> Result<&[u8; TABLE_BYTES], Fault>
    ensures fault { fault_told result ≡ table_fault table_bytes n most table.now }
    ensures same { IfOk result (λ t. t.now ≡ table.now) }
{
    let whole = table.as_array::<TABLE_BYTES>().ok_or(Fault::TableRule)?;
    if table[0] != 0 {
        return Err(Fault::TableRule);
    }
    if largest(table) > most {
        return Err(Fault::TableRule);
    }
    if largest(&table[parities_on(n)..]) != 0 {
        return Err(Fault::TableRule);
    }
    Ok(whole)
}

// How many parities n wires have, and never more than a table has places. `Wires::parities` does not serve: `check_table` promises its
// fault for every n.
fn parities_on(n: usize) -> usize
    ensures { result ≡ min (2 ^ n) parities }
{
    1 << n.min(MAX_WIRES)
}

// The largest byte. There is no branch on the bytes, so that many are compared at a time. Not by `max()`: that takes 13 nanoseconds for a
// table, and this 7.
fn largest(bytes: &[u8]) -> u8
    ensures { Largest 0 (length bytes.now) bytes.now result }
{
    bytes.iter().fold(0, |most, &byte| byte.max(most))
}
