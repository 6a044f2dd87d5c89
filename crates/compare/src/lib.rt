// Two lists that act alike (document 02, 2.1): whether each basis state goes to the same state with the same phase modulo 8 by both. It is
// decided by rows and coefficients; no state is tried.
// Public entry: `compare`. Its promise is the record ComparesLists of specs/Entry, which speaks of running alone; proofs/Laws says what it
// means.
#![tactic(auto)]

ghost use Rattle.std.specs.Prelude.{◌≡◌, IfOk};
ghost use Rattle.circuit.specs.Told.{told};
ghost use Rattle.compare.specs.Entry.{ComparesLists, compare_reply};

pub mod deciding;

use circuit::faults::{Fault, Refusal};
use deciding::act_alike;
use judges::faults::{FormedList, check_list};

// What two lists compared are. It is no bool, of which neither value says by itself what was found.
#[derive(Clone, Copy, Debug, PartialEq, Eq)]
pub enum Compared {
    // Both lists act alike.
    Same,
    // Some basis state tells them apart.
    Differ,
}

// Compares two lists on n wires. Nothing is lent for output.
pub fn compare(n: usize, first: &[u8], second: &[u8]) -> Result<Compared, Refusal>
    ensures { ComparesLists n first.now second.now result }
{
    let (first, second) = check_both(n, first, second)?;
    if act_alike(&first, &second) {
        return Ok(Compared::Same);
    }
    Ok(Compared::Differ)
}

// The faults of the first list, with the wire count; then those of the second.
fn check_both<'a>(
    n: usize,
    first: &'a [u8],
    second: &'a [u8],
) -> Result<(FormedList<'a>, FormedList<'a>), Refusal>
    ensures reply { told result ≡ compare_reply n first.now second.now }
    ensures wires { IfOk result (λ both. (both.0.wires.count ≡ n) × (both.1.wires.count ≡ n)) }
    ensures same { IfOk result (λ both. (both.0.gates.now ≡ first.now) × (both.1.gates.now ≡ second.now)) }
{
    let first = check_list(n, first, Ok(()))?;
    let second = check_list(n, second, Ok(())).map_err(as_second)?;
    Ok((first, second))
}

// Whichever fault the second list has, it is told by one number, with its own place. It goes from a refusal to a refusal, so that no `From`
// can say it.
fn as_second(found: Refusal) -> Refusal
    ensures fault { result.fault ≡ Fault.SecondList }
    ensures place { result.place ≡ found.place }
{
    Refusal {
        fault: Fault::SecondList,
        ..found
    }
}
