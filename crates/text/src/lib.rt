// The text form of circuits (document 01, "Text form"): a text read into gates. The lines that are written are defined in specs/Written;
// the crate `lines` writes them.
// Public entry: `read_text`. Its promise is the record ReadText of specs/Entry; proofs/TextLaws says what the promise means.
#![tactic(auto)]

ghost use Rattle.std.specs.Prelude.{◌≡◌, ◌*◌, ◌≤◌, length};
ghost use Rattle.circuit.specs.Lent.{front_bytes};
ghost use Rattle.circuit.specs.Limits.{gate_bytes};
ghost use Rattle.text.specs.Entry.{ReadText};

pub mod hex;
pub mod limits;
pub mod reading;

use circuit::faults::Refusal;
use circuit::limits::GATE_BYTES;
use limits::WIRES_LINE_BYTES;
use reading::{check_text, store_gates};

// A circuit whose gates stand in lent bytes: its wire count, and how many gates were stored. The bytes are no field: C lends them, and gets
// the two numbers.
#[derive(Clone, Copy, Debug, Default, PartialEq, Eq)]
pub struct Circuit {
    pub wires: usize,
    pub gates: usize,
}

impl Circuit {
    // The list of its gates, at the front of the bytes in which they were stored.
    pub fn list(self, lent: &[u8]) -> &[u8]
        requires { gate_bytes * self.gates ≤ length lent.now }
        ensures { result.now ≡ front_bytes self.gates lent.now }
    {
        &lent[..GATE_BYTES * self.gates]
    }
}

// Reads a text into its gates' bytes, from the start of what is lent. A refusal leaves all as it was.
#[tactic(auto, using(crate::proofs::TextWays::one_there))]
pub fn read_text(text: &[u8], gates: &mut [u8]) -> Result<Circuit, Refusal>
    ensures { ReadText text.now gates.old gates.new result }
{
    let wires = check_text(text, gates.len())?.count;
    let gates = store_gates(&text[WIRES_LINE_BYTES..], gates);
    Ok(Circuit { wires, gates })
}
