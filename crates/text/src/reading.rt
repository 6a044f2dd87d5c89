// A text judged line by line, and its gates stored (document 01, "Text form").
ghost use Rattle.std.specs.Prelude.{◌≡◌, ◌≤◌, IfOk, length};
ghost use Rattle.circuit.specs.Limits.{max_list_bytes};
ghost use Rattle.circuit.specs.Replies.{Done};
ghost use Rattle.circuit.specs.Told.{told};
ghost use Rattle.text.specs.Entry.{read_text_fault};
ghost use Rattle.text.specs.Lines.{byte_at, first_formed, gate_decoded_at, lines_decoded, lines_of, pair};
ghost use Rattle.text.specs.Placed.{Stores};
ghost use Rattle.text.specs.Text.{gates_fault, lines_fault};

use crate::hex::{NEWLINE, is_digit, value_of};
use crate::limits::{GATE_DIGITS, GATE_LINE_BYTES, WIRES_DIGITS, WIRES_LINE_BYTES};
use circuit::faults::{Fault, Refusal};
use circuit::gates::Gate;
use circuit::limits::{GATE_BYTES, MAX_GATES, MAX_LIST_BYTES};
use circuit::wires::Wires;
use judges::faults::{check_room, check_wires};

// The first fault of a call: 8 by the length of the gates lent, then that of the text. Without one the wire count is given back, n of line
// one.
pub fn check_text(text: &[u8], lent: usize) -> Result<Wires, Refusal>
    ensures reply { told result ≡ read_text_fault lent text.now }
    ensures same { IfOk result (λ wires. wires.count ≡ byte_at text.now 0) }
{
    check_room(lent, MAX_LIST_BYTES)?;
    check_lines(text)
}

// The first fault of a text: of line one its form, then the count; then the gate lines.
#[tactic(auto, using(crate::proofs::TextFaults::one_long))]
fn check_lines(text: &[u8]) -> Result<Wires, Refusal>
    ensures reply { told result ≡ lines_fault (lines_of text.now) }
    ensures same { IfOk result (λ wires. wires.count ≡ byte_at text.now 0) }
{
    if !line_formed(text, WIRES_DIGITS) {
        return Err(Refusal {
            fault: Fault::Malformed,
            place: 1,
        });
    }
    let wires = check_wires(usize::from(pair(text[0], text[1])))?;
    check_gate_lines(&text[WIRES_LINE_BYTES..])?;
    Ok(wires)
}

// The gate lines in order. Gate line i, counted from 0, is line i + 2 of the text.
fn check_gate_lines(lines: &[u8]) -> Result<(), Refusal>
    ensures { told result ≡ gates_fault 0 (lines_of lines.now) }
{
    for (i, line) in lines.chunks(GATE_LINE_BYTES).enumerate() {
        if i == MAX_GATES {
            return Err(Refusal::from(Fault::ListLength));
        }
        if !line_formed(line, GATE_DIGITS) {
            return Err(Refusal {
                fault: Fault::Malformed,
                place: i + 2,
            });
        }
    }
    Ok(())
}

// Whether the first line is that many digits and a newline.
fn line_formed(text: &[u8], digits: usize) -> bool
    ensures { result ≡ first_formed digits (lines_of text.now) }
{
    text.len() > digits && text[digits] == NEWLINE && text[..digits].iter().all(|&b| is_digit(b))
}

// Stores the gates of lines without a fault from the start of what is lent, and gives their number. They are put by their places, since
// `as_chunks_mut` says nothing of what the slice ends as.
pub fn store_gates(lines: &[u8], gates: &mut [u8]) -> usize
    requires { (max_list_bytes ≤ length gates.old) × (gates_fault 0 (lines_of lines.now) ≡ Done) }
    ensures { Stores gates.old (lines_decoded (lines_of lines.now)) gates.new result }
{
    let (lines, _) = lines.as_chunks::<GATE_LINE_BYTES>();
    for (i, line) in lines.iter().enumerate() {
        let at = GATE_BYTES * i;
        gates[at..at + GATE_BYTES].copy_from_slice(&gate_of(line));
    }
    lines.len()
}

// The gate that a line stands for.
fn gate_of(line: &[u8; GATE_LINE_BYTES]) -> Gate
    ensures { result ≡ gate_decoded_at line.now 0 }
{
    let &[k, l, a, b, c, d, _] = line;
    [pair(k, l), pair(a, b), pair(c, d)]
}

// The byte that two digits stand for.
pub fn pair(high: u8, low: u8) -> u8
    ensures { result ≡ pair high low }
{
    16 * value_of(high) + value_of(low)
}
