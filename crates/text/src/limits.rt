// The lengths of the text form, each once in the code. The same names stand in specs/Limits.antt, and the proofs hold the two together.
use circuit::limits::{GATE_BYTES, MAX_GATES, MAX_WRITTEN_GATES};

// A byte has so many values, which two digits tell.
pub const BYTE_VALUES: usize = 16 * 16;

// n, of line one.
pub const WIRES_DIGITS: usize = 2;

// Two digits for each byte of a gate.
pub const GATE_DIGITS: usize = 2 * GATE_BYTES;

// A line has its digits and a newline.
pub const WIRES_LINE_BYTES: usize = WIRES_DIGITS + 1;

pub const GATE_LINE_BYTES: usize = GATE_DIGITS + 1;

// So many bytes of a text decide what it is: one more than the longest circuit has.
pub const TEXT_BYTES: usize = WIRES_LINE_BYTES + GATE_LINE_BYTES * MAX_GATES + 1;

// Four numbers of four digits, a space or the newline after each.
pub const COUNTS_LINE_BYTES: usize = 4 * 5;

// `refused `, two digits, a space, four digits, a newline.
pub const REFUSED_LINE_BYTES: usize = 8 + 2 + 1 + 4 + 1;

// The longest reply: n, the counts, the gates.
pub const REPLY_BYTES: usize = WIRES_LINE_BYTES
    + COUNTS_LINE_BYTES
    + GATE_LINE_BYTES * MAX_WRITTEN_GATES;
