// Reading gates that have no fault into weights and rows (document 01, "Weights and rows"), their T and T dagger gates counted on the way.
ghost use Rattle.std.specs.Prelude.{◌≡◌, ◌<◌};
ghost use Rattle.circuit.specs.Limits.{max_wires};
ghost use Rattle.gf2.specs.Table.{add_at};
ghost use Rattle.circuit.specs.Read.{first_row, first_rows, join_rows};
ghost use Rattle.reader.specs.Entry.{Addable, ReadAll};

use circuit::gates::{GateKind, gates};
use circuit::limits::{MAX_WIRES, Parity, TABLE_BYTES, Weight};
use circuit::parity::unit;
use judges::faults::FormedList;

// The weights, the rows and the number of T and T dagger gates of a list, as the code keeps them. That the weights and rows are sound
// stands in clauses: a ghost field would serve `compare` alone, for the trim takes the arrays apart, and lends them to functions that take
// arrays lent by C too.
#[derive(Drop)]
pub struct ListRead {
    pub weights: [Weight; TABLE_BYTES],
    pub rows: [Parity; MAX_WIRES],
    pub tcount: usize,
}

// The weights and rows of a list, and the number of its T and T dagger gates, which are those that add an odd phase. Each gate changes
// these in place. No gate has a fault, so that what adds no phase is a CNOT: with a third way, for a byte that is no kind, the compiler
// jumps six ways, and reading takes three times as long.
pub fn read_gates(list: &FormedList<'_>) -> ListRead
    ensures { ReadAll list.now.wires.count list.now.gates.now result }
{
    let mut weights = [0; TABLE_BYTES];
    let mut rows = first_rows(list.wires.count);
    let mut tcount = 0;
    for &[kind, a, b] in gates(list.gates) {
        match GateKind::try_from(kind).ok().and_then(GateKind::phase) {
            None => join_rows(&mut rows, a, b),
            Some(v) => {
                add_phase(&mut weights, rows[usize::from(a)], v);
                tcount += usize::from(v % 2);
            }
        }
    }
    ListRead {
        weights,
        rows,
        tcount,
    }
}

// Wire i starts with parity 2^i.
fn first_rows(n: usize) -> [Parity; MAX_WIRES]
    ensures { result ≡ first_rows max_wires n }
{
    let mut rows = [0; MAX_WIRES];
    for (i, row) in rows.iter_mut().enumerate() {
        *row = first_row(n, i);
    }
    rows
}

// Row i before any gate. `row_most` of `synth` asks `i < n` too, and gives the most that row i may be: another value of another meaning.
fn first_row(n: usize, i: usize) -> Parity
    requires { i < max_wires }
    ensures { result ≡ first_row n i }
{
    if i < n { unit(i) } else { 0 }
}

// A CNOT XORs its control's parity into its target's. Clauses say that a wire is below the most, here as above: it is a byte of a gate, or
// the number of a loop, and a struct with that fact would be made anew for each gate.
fn join_rows(rows: &mut [Parity; MAX_WIRES], a: u8, b: u8)
    requires { (a < max_wires) × (b < max_wires) }
    ensures { rows.new ≡ join_rows a b rows.old }
{
    rows[usize::from(b)] ^= rows[usize::from(a)];
}

// A gate's phase is added, modulo 8, at the place of the parity that its wire holds.
fn add_phase(weights: &mut [Weight; TABLE_BYTES], p: Parity, v: Weight)
    requires { Addable weights.old p v }
    ensures { weights.new ≡ add_at 8 weights.old p v }
{
    let q = usize::from(p);
    weights[q] = (weights[q] + v) % 8;
}
