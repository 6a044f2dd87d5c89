// What the program `same` prints for two texts (document 02, 2.1), as one function on slices: the texts are read, their circuits compared,
// and the line written. No entry for users: in C they compare lists, by `compare`. Internal, `put_verdict`: the program lends the room.
#![tactic(auto)]

ghost use Rattle.std.specs.Prelude.{◌≤◌, ◌≡◌, length};
ghost use Rattle.text.specs.Limits.{refused_line_bytes};
ghost use Rattle.text.specs.Text.{read_text};
ghost use Rattle.verdict.specs.Verdicts.{Prints, VerdictOn};
ghost use Rattle.verdict.specs.Judged.{JudgedAs, ReadAs, of_list};

use circuit::faults::{Fault, Refusal};
use circuit::limits::MAX_LIST_BYTES;
use compare::{Compared, compare};
use lines::{put, refused_line};
use text::{Circuit, read_text};

// One of the two texts.
#[derive(Clone, Copy, Debug, PartialEq, Eq)]
pub enum Which {
    First,
    Second,
}

// What was written: the lent bytes start with the line, which has so many; a slice of them would leave unsaid what stands behind it. Where
// it is a refusal, the text that it is of, or of its gates.
#[derive(Clone, Copy, Debug, PartialEq, Eq)]
pub struct Verdict {
    pub bytes: usize,
    pub refused: Option<Which>,
}

// Writes the line for two texts from the start of what is lent. There is none where the circuits have different wire counts.
pub fn put_verdict(first: &[u8], second: &[u8], out: &mut [u8]) -> Option<Verdict>
    requires { refused_line_bytes ≤ length out.old }
    ensures { VerdictOn (read_text first.now) (read_text second.now) out.old out.new result }
{
    match judge(first, second) {
        Ok(None) => None,
        Ok(Some(Compared::Same)) => Some(put_line(b"same\n", None, out)),
        Ok(Some(Compared::Differ)) => Some(put_line(b"differ\n", None, out)),
        Err(Refused { text, refusal }) => Some(put_line(&refused_line(refusal), Some(text), out)),
    }
}

// A refusal, and the text that it is of, or of its gates.
#[derive(Clone, Copy, Debug, PartialEq, Eq)]
struct Refused {
    text: Which,
    refusal: Refusal,
}

// Whether the circuits of two texts act alike, or nothing where they have different wire counts. The first fault refuses: of the first
// text, of the second, and on the same wires of the gates.
fn judge(first: &[u8], second: &[u8]) -> Result<Option<Compared>, Refused>
    ensures { JudgedAs (read_text first.now) (read_text second.now) result }
{
    let mut first_gates = [0u8; MAX_LIST_BYTES];
    let mut second_gates = [0u8; MAX_LIST_BYTES];
    let a = read(Which::First, first, &mut first_gates)?;
    let b = read(Which::Second, second, &mut second_gates)?;
    if a.wires != b.wires {
        return Ok(None);
    }
    let compared = compare(a.wires, a.list(&first_gates), b.list(&second_gates))?;
    Ok(Some(compared))
}

// The circuit of one of the texts, its gates stored in bytes that take every list.
fn read(which: Which, text: &[u8], gates: &mut [u8; MAX_LIST_BYTES]) -> Result<Circuit, Refused>
    ensures { ReadAs which (read_text text.now) gates.new result }
{
    read_text(text, gates).map_err(|refusal| Refused {
        text: which,
        refusal,
    })
}

// A fault that `compare` finds says by itself which list has it.
impl From<Refusal> for Refused {
    ghost from_gives = { λ refusal refused. refused ≡ of_list refusal };

    fn from(refusal: Refusal) -> Refused {
        let text = match refusal.fault {
            Fault::SecondList => Which::Second,
            _ => Which::First,
        };
        Refused { text, refusal }
    }
}

// A line, and the text that it refuses.
fn put_line(line: &[u8], refused: Option<Which>, out: &mut [u8]) -> Verdict
    requires { length line.now ≤ length out.old }
    ensures { Prints line.now refused out.old out.new (Some result) }
{
    Verdict {
        bytes: put(line, out),
        refused,
    }
}
