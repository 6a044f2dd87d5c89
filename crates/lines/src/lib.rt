// The lines that the programs write (document 01, "Text form"), each as an array; and lines written from the start of a lent output.
// They are printed by hand, for the reason at `two_digits` of `text::hex`. Internal: the caller lends room enough.
#![tactic(auto)]

ghost use Rattle.std.specs.Prelude.{◌≡◌, ◌*◌, ◌/◌, ◌≤◌, length};
ghost use Rattle.circuit.specs.Gate.{gate_of, gates_of};
ghost use Rattle.circuit.specs.Limits.{gate_bytes};
ghost use Rattle.circuit.specs.Told.{number};
ghost use Rattle.text.specs.Limits.{gate_line_bytes};
ghost use Rattle.text.specs.Written.{counts_line, gate_line, gate_lines, refused_line, wires_line};
ghost use Rattle.lines.specs.Placed.{Writes};

use circuit::faults::Refusal;
use circuit::gates::{Gate, gates};
use text::hex::{NEWLINE, four_digits, two_digits};
use text::limits::{COUNTS_LINE_BYTES, GATE_LINE_BYTES, REFUSED_LINE_BYTES, WIRES_LINE_BYTES};

// A fault: `refused `, the number in two digits, a space and the place in four.
pub fn refused_line(refusal: Refusal) -> [u8; REFUSED_LINE_BYTES]
    ensures { result ≡ refused_line (number refusal.fault) refusal.place }
{
    let mut line = [b' '; REFUSED_LINE_BYTES];
    line[..8].copy_from_slice(b"refused ");
    line[8..10].copy_from_slice(&two_digits(usize::from(u8::from(refusal.fault))));
    line[11..15].copy_from_slice(&four_digits(refusal.place));
    line[15] = NEWLINE;
    line
}

// n in two digits.
pub fn wires_line(n: usize) -> [u8; WIRES_LINE_BYTES]
    ensures { result ≡ wires_line n }
{
    let [a, b] = two_digits(n);
    [a, b, NEWLINE]
}

// T in, odd set size, T out and moves, with single spaces. They are four numbers, since the struct that has them is in `trimmed`, on which
// `lines` does not stand.
pub fn counts_line(tin: usize, odd: usize, tout: usize, moves: usize) -> [u8; COUNTS_LINE_BYTES]
    ensures { result ≡ counts_line tin odd tout moves }
{
    let mut line = [b' '; COUNTS_LINE_BYTES];
    line[..4].copy_from_slice(&four_digits(tin));
    line[5..9].copy_from_slice(&four_digits(odd));
    line[10..14].copy_from_slice(&four_digits(tout));
    line[15..19].copy_from_slice(&four_digits(moves));
    line[19] = NEWLINE;
    line
}

// A gate in six digits.
fn gate_line(gate: Gate) -> [u8; GATE_LINE_BYTES]
    ensures { result ≡ gate_line (gate_of gate) }
{
    let [kind, a, b] = gate;
    let [c, d] = two_digits(usize::from(kind));
    let [e, f] = two_digits(usize::from(a));
    let [g, h] = two_digits(usize::from(b));
    [c, d, e, f, g, h, NEWLINE]
}

// The gates of a list one after the other; gives how many bytes they take. They are put by their places, as in `store_gates` of `text`.
pub fn put_gates(list: &[u8], out: &mut [u8]) -> usize
    requires { gate_line_bytes * (length list.now / gate_bytes) ≤ length out.old }
    ensures { Writes out.old 0 (gate_lines (gates_of list.now)) out.new result }
{
    let gates = gates(list);
    for (i, &gate) in gates.iter().enumerate() {
        let at = GATE_LINE_BYTES * i;
        out[at..at + GATE_LINE_BYTES].copy_from_slice(&gate_line(gate));
    }
    GATE_LINE_BYTES * gates.len()
}

// Bytes as they are; gives their number.
pub fn put(bytes: &[u8], out: &mut [u8]) -> usize
    requires { length bytes.now ≤ length out.old }
    ensures { Writes out.old 0 bytes.now out.new result }
{
    out[..bytes.len()].copy_from_slice(bytes);
    bytes.len()
}
