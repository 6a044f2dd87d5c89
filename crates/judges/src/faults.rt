// The checks of a call and of a gate: 1, 2 and 8, then 3, 4 and 5. Check 6 is in table_faults. Each check gives the fault that it finds;
// `check_list` gives its place too.
ghost use Rattle.std.specs.Prelude.{◌≡◌, IfOk};
ghost use Rattle.circuit.specs.Gate.{gate, gates_of};
ghost use Rattle.circuit.specs.Faults.{AllWellFormed, wires_fault, list_fault, lent_fault, short_fault, list_reply};
ghost use Rattle.circuit.specs.Faults.{cnot_fault, one_wire_fault, gate_fault, first_fault};
ghost use Rattle.circuit.specs.Told.{fault_told, told};
ghost use Rattle.judges.specs.Formed.{formed_prop};

use circuit::faults::{Fault, Refusal};
use circuit::gates::{GateKind, gates};
use circuit::limits::{GATE_BYTES, MAX_LIST_BYTES, MAX_WIRES};
use circuit::wires::Wires;

// A list whose gates have no fault, with the wires that they are on. Who has one need not ask again.
#[derive(Clone, Copy)]
pub struct FormedList<'a> {
    pub wires: Wires,
    pub gates: &'a [u8],
    pub ghost formed: { AllWellFormed wires.count (gates_of gates.now) } by { formed_prop wires.count (gates_of gates.now) },
}

// Fault 1: the wire count is 0 or above the limit. One without the fault is given back as one.
pub fn check_wires(n: usize) -> Result<Wires, Fault>
    ensures fault { fault_told result ≡ wires_fault n }
    ensures same { IfOk result (λ wires. wires.count ≡ n) }
{
    if n == 0 {
        return Err(Fault::WireCount);
    }
    if n > MAX_WIRES {
        return Err(Fault::WireCount);
    }
    Ok(Wires { count: n })
}

// Fault 2: a list of that many bytes is no number of whole gates, or too long.
pub fn check_length(bytes: usize) -> Result<(), Fault>
    ensures { fault_told result ≡ list_fault bytes }
{
    if bytes % GATE_BYTES != 0 {
        return Err(Fault::ListLength);
    }
    if bytes > MAX_LIST_BYTES {
        return Err(Fault::ListLength);
    }
    Ok(())
}

// Fault 8: a lent output has another length than it must have. `check_room` compares in another way, so that one function cannot be both.
pub fn check_lent(long: usize, wanted: usize) -> Result<(), Fault>
    ensures { fault_told result ≡ lent_fault long wanted }
{
    if long == wanted {
        return Ok(());
    }
    Err(Fault::LentOutput)
}

// Fault 8: a lent output has less room than it must have.
pub fn check_room(long: usize, wanted: usize) -> Result<(), Fault>
    ensures { fault_told result ≡ short_fault long wanted }
{
    if wanted <= long {
        return Ok(());
    }
    Err(Fault::LentOutput)
}

// A call that brings a list: 1, 2, then 8 of the outputs lent, then the gates in order. A list without these faults is given back as one.
pub fn check_list(n: usize, list: &[u8], lent: Result<(), Fault>) -> Result<FormedList<'_>, Refusal>
    ensures reply { told result ≡ list_reply n list.now (fault_told lent) }
    ensures same { IfOk result (λ formed. (formed.wires.count ≡ n) × (formed.gates.now ≡ list.now)) }
{
    let wires = check_wires(n)?;
    check_length(list.len())?;
    lent?;
    check_gates(n, list)?;
    Ok(FormedList { wires, gates: list })
}

// The first of faults 3, 4 and 5 in a list, with its gate index.
fn check_gates(n: usize, list: &[u8]) -> Result<(), Refusal>
    ensures { told result ≡ first_fault n 0 (gates_of list.now) }
{
    for (place, &[kind, a, b]) in gates(list).iter().enumerate() {
        check_gate(n, kind, a, b).map_err(|fault| Refusal { fault, place })?;
    }
    Ok(())
}

// Faults 3, 4 and 5 of one gate: n, a and b go on as they are, the wire count and two bytes of the list that are no wires yet. The kind is
// a byte of the list too: here it is judged, by `try_from`.
fn check_gate(n: usize, kind: u8, a: u8, b: u8) -> Result<(), Fault>
    ensures { fault_told result ≡ gate_fault n (gate kind a b) }
{
    match GateKind::try_from(kind)?.phase() {
        None => check_cnot(n, a, b),
        Some(_) => check_one_wire(n, a, b),
    }
}

// A CNOT: a and b below n, and different.
fn check_cnot(n: usize, a: u8, b: u8) -> Result<(), Fault>
    ensures { fault_told result ≡ cnot_fault n a b }
{
    if n <= usize::from(a) {
        return Err(Fault::GateWire);
    }
    if n <= usize::from(b) {
        return Err(Fault::GateWire);
    }
    if a == b {
        return Err(Fault::SameWire);
    }
    Ok(())
}

// A gate on one wire: a below n, and b zero.
fn check_one_wire(n: usize, a: u8, b: u8) -> Result<(), Fault>
    ensures { fault_told result ≡ one_wire_fault n a b }
{
    if n <= usize::from(a) {
        return Err(Fault::GateWire);
    }
    if b != 0 {
        return Err(Fault::GateWire);
    }
    Ok(())
}
