// The trim: reads a circuit C, makes legal moves, each with the smallest z, until none is left, and writes the circuit D and the log of the
// moves (document 01). Public entry: `trim`. Its promise is the record TrimList of specs/Entry; for an accepted circuit it is demand 3
// whole and document 02's 2.7, the record Trimmed of trimmed/specs/Trimmed. What a call on D replies is in `again` (2.2).

#![tactic(auto)]

ghost use Rattle.trimmer.specs.Entry.{DoneWith, TrimInto, TrimList};

pub mod counting;
pub mod faults;

use circuit::faults::Refusal;
use circuit::limits::{Mark, MoveCell, TABLE_BYTES, Weight};
use counting::members_of;
use faults::check_trim_lent;
use judges::faults::{FormedList, check_list};
use moving::make_moves;
use reader::reading::{ListRead, read_gates};
use rests::weighing::put_new_weights;
use synth::write_sound;
use trimmed::Counts;
use weights::put_odd_set;

// Trims a circuit: writes D into `out` and the moves into `log`. A refusal leaves both as they were.
pub fn trim(n: usize, gates: &[u8], out: &mut [u8], log: &mut [MoveCell]) -> Result<Counts, Refusal>
    ensures { TrimList n gates.now out.old log.old out.new log.new result }
{
    let list = check_list(n, gates, check_trim_lent(out.len(), log.len()))?;
    Ok(trim_accepted(&list, out, log))
}

// The trim of an accepted circuit.
fn trim_accepted(list: &FormedList<'_>, out: &mut [u8], log: &mut [MoveCell]) -> Counts
    requires { TrimInto list.now.wires.count out.old log.old }
    ensures { DoneWith list.now.wires.count list.now.gates.now out.old log.old out.new log.new result }
{
    let wires = list.wires;
    let ListRead {
        weights,
        rows,
        tcount: tin,
    } = read_gates(list);
    let mut marks = [0 as Mark; TABLE_BYTES];
    put_odd_set(&weights, &mut marks);
    let odd = members_of(wires, &marks);
    let moves = make_moves(wires, &mut marks, log);
    let tout = members_of(wires, &marks);
    let mut new = [0 as Weight; TABLE_BYTES];
    put_new_weights(wires, &weights, &marks, &mut new);
    let gates = write_sound(wires, &new, &rows, out);
    Counts {
        tin,
        odd,
        tout,
        moves,
        gates,
    }
}
