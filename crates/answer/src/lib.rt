// What the program `trim` prints for a text (document 01, "Text form"), as one function on slices: the text is read, its circuit trimmed,
// and the lines written.
// Public entry: `answer`. Its promise is the record AnswerText of specs/Entry; proofs/AnswerLaws says what the promise means. How a
// reply is answered in its turn is in `again`.
#![tactic(auto)]

ghost use Rattle.std.specs.Prelude.{◌+◌, ◌*◌, ◌/◌, ◌≤◌, length};
ghost use Rattle.circuit.specs.Gate.{gates_of};
ghost use Rattle.circuit.specs.Limits.{gate_bytes};
ghost use Rattle.text.specs.Limits.{counts_line_bytes, gate_line_bytes, reply_bytes, wires_line_bytes};
ghost use Rattle.lines.specs.Placed.{Writes};
ghost use Rattle.text.specs.Text.{Sayable, circuit, read_text};
ghost use Rattle.answer.specs.Entry.{AnswerText, WritesPrinted};
ghost use Rattle.answer.specs.Printed.{trim_lines};

use circuit::faults::Refusal;
use circuit::limits::{LOG_CELLS, MAX_LIST_BYTES, MoveCell, WRITE_BYTES};
use judges::faults::check_room;
use lines::{counts_line, put, put_gates, refused_line, wires_line};
use text::limits::REPLY_BYTES;
use text::{Circuit, read_text};
use trimmed::Counts;
use trimmer::trim;

// Writes the reply to a text, from the start of what is lent, and gives how many bytes it has. Refused where there is less room than the
// longest reply needs; all is then as it was.
pub fn answer(text: &[u8], out: &mut [u8]) -> Result<usize, Refusal>
    ensures { AnswerText text.now out.old out.new result }
{
    check_room(out.len(), REPLY_BYTES)?;
    Ok(put_reply(text, out))
}

// The fault of a text, or what its circuit gives.
fn put_reply(text: &[u8], out: &mut [u8]) -> usize
    requires { reply_bytes ≤ length out.old }
    ensures { WritesPrinted (read_text text.now) out.old out.new result }
{
    let mut gates = [0u8; MAX_LIST_BYTES];
    match read_text(text, &mut gates) {
        Ok(read) => put_circuit(read.wires, read.list(&gates), out),
        Err(refusal) => put(&refused_line(refusal), out),
    }
}

// The fault of a gate, or the circuit trimmed.
fn put_circuit(n: usize, gates: &[u8], out: &mut [u8]) -> usize
    requires { (reply_bytes ≤ length out.old) × Sayable n gates.now }
    ensures { WritesPrinted (circuit n gates.now) out.old out.new result }
{
    let mut list = [0u8; WRITE_BYTES];
    let mut log = [0 as MoveCell; LOG_CELLS];
    match trim(n, gates, &mut list, &mut log) {
        Ok(counts) => {
            // D stands at the front of the list.
            let trimmed = Circuit {
                wires: n,
                gates: counts.gates,
            };
            put_trimmed(n, counts, trimmed.list(&list), out)
        }
        Err(of_gate) => put(&refused_line(of_gate), out),
    }
}

// n, the counts, the gates. The places are counted here: a struct of what is lent and how much of it is written would take three methods,
// each with a contract, for these three lines.
fn put_trimmed(n: usize, counts: Counts, gates: &[u8], out: &mut [u8]) -> usize
    requires { wires_line_bytes + counts_line_bytes + gate_line_bytes * (length gates.now / gate_bytes) ≤ length out.old }
    ensures { Writes out.old 0 (trim_lines n counts (gates_of gates.now)) out.new result }
{
    let Counts {
        tin,
        odd,
        tout,
        moves,
        ..
    } = counts;
    let a = put(&wires_line(n), out);
    let b = a + put(&counts_line(tin, odd, tout, moves), &mut out[a..]);
    b + put_gates(gates, &mut out[b..])
}
