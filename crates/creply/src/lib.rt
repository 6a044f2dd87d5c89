// Replies as C has them: a struct of numbers for each, and what an entry's reply comes to in it. The fault's number, 0 for none, and its
// place come first in each; a part of a log has no fault. C gives each reply a name and fields of its own, so that the five structs of one
// more number beside the fault's two stay five. Internal: `capi` exports the functions that give these.
#![tactic(auto)]

ghost use Rattle.std.specs.Prelude.{◌≡◌};
ghost use Rattle.compare.specs.Entry as comparing;
ghost use Rattle.carry.specs.Entry as carrying;
ghost use Rattle.finder.specs.Entry as find;
ghost use Rattle.synth.specs.Entry as write;
ghost use Rattle.trimmer.specs.Entry as trim;
ghost use Rattle.text.specs.Entry as read_text;
ghost use Rattle.answer.specs.Entry as answers;
ghost use Rattle.creply.specs.Fault.{FaultInC};

use circuit::faults::Refusal;
use compare::Compared;
use moves::Sought;
use text::Circuit;
use trimmed::Counts;

#[repr(C)]
#[derive(Drop)]
pub struct SulmedraReply {
    pub number: u64,
    pub place: u64,
}

// A reply to two lists: same is 1 where they act alike.
#[repr(C)]
#[derive(Drop)]
pub struct SulmedraCompared {
    pub number: u64,
    pub place: u64,
    pub same: u64,
}

// A reply to a move, with how many marks differ from before.
#[repr(C)]
#[derive(Drop)]
pub struct SulmedraCarried {
    pub number: u64,
    pub place: u64,
    pub differ: u64,
}

// A reply of the finder: found is 1 where a move was written.
#[repr(C)]
#[derive(Drop)]
pub struct SulmedraFound {
    pub number: u64,
    pub place: u64,
    pub found: u64,
}

// A reply of the writer, with the number of gates.
#[repr(C)]
#[derive(Drop)]
pub struct SulmedraWritten {
    pub number: u64,
    pub place: u64,
    pub gates: u64,
}

// A reply of the trim, with its counts.
#[repr(C)]
#[derive(Drop)]
pub struct SulmedraTrimmed {
    pub number: u64,
    pub place: u64,
    pub tin: u64,
    pub odd: u64,
    pub tout: u64,
    pub moves: u64,
    pub gates: u64,
}

// A part of a lent log: where it starts, and how long it is.
#[repr(C)]
#[derive(Drop)]
pub struct SulmedraPart {
    pub start: u64,
    pub length: u64,
}

// A reply of the text reader, with the wire count and the number of gates.
#[repr(C)]
#[derive(Drop)]
pub struct SulmedraText {
    pub number: u64,
    pub place: u64,
    pub wires: u64,
    pub gates: u64,
}

// A reply of the whole answer to a text, with the bytes written.
#[repr(C)]
#[derive(Drop)]
pub struct SulmedraAnswered {
    pub number: u64,
    pub place: u64,
    pub bytes: u64,
}

// The fault's number and its place, both 0 where there is none.
fn fault_in_c<T>(reply: &Result<T, Refusal>) -> (u64, u64)
    ensures { FaultInC reply.now result.0 result.1 }
{
    match reply {
        Ok(_) => (0, 0),
        Err(refusal) => (u64::from(u8::from(refusal.fault)), refusal.place as u64),
    }
}

impl From<Result<(), Refusal>> for SulmedraReply {
    ghost from_gives = { λ reply c. FaultInC reply c.number c.place };

    fn from(reply: Result<(), Refusal>) -> SulmedraReply {
        let (number, place) = fault_in_c(&reply);
        SulmedraReply { number, place }
    }
}

impl From<Result<Compared, Refusal>> for SulmedraCompared {
    ghost from_gives = { λ reply c. FaultInC reply c.number c.place × (c.same ≡ comparing.same_of reply) };

    fn from(reply: Result<Compared, Refusal>) -> SulmedraCompared {
        let (number, place) = fault_in_c(&reply);
        SulmedraCompared {
            number,
            place,
            same: u64::from(reply == Ok(Compared::Same)),
        }
    }
}

impl From<Result<usize, Refusal>> for SulmedraCarried {
    ghost from_gives = { λ reply c. FaultInC reply c.number c.place × (c.differ ≡ carrying.differ_of reply) };

    fn from(reply: Result<usize, Refusal>) -> SulmedraCarried {
        let (number, place) = fault_in_c(&reply);
        SulmedraCarried {
            number,
            place,
            differ: reply.unwrap_or(0) as u64,
        }
    }
}

impl From<Result<Sought, Refusal>> for SulmedraFound {
    ghost from_gives = { λ reply c. FaultInC reply c.number c.place × (c.found ≡ find.found_of reply) };

    fn from(reply: Result<Sought, Refusal>) -> SulmedraFound {
        let (number, place) = fault_in_c(&reply);
        SulmedraFound {
            number,
            place,
            found: u64::from(reply == Ok(Sought::Found)),
        }
    }
}

impl From<Result<usize, Refusal>> for SulmedraWritten {
    ghost from_gives = { λ reply c. FaultInC reply c.number c.place × (c.gates ≡ write.count_of reply) };

    fn from(reply: Result<usize, Refusal>) -> SulmedraWritten {
        let (number, place) = fault_in_c(&reply);
        SulmedraWritten {
            number,
            place,
            gates: reply.unwrap_or(0) as u64,
        }
    }
}

impl From<Result<Counts, Refusal>> for SulmedraTrimmed {
    ghost from_gives = { λ reply c. FaultInC reply c.number c.place
        × (c.tin ≡ (trim.counts_of reply).tin) × (c.odd ≡ (trim.counts_of reply).odd) × (c.tout ≡ (trim.counts_of reply).tout)
        × (c.moves ≡ (trim.counts_of reply).moves) × (c.gates ≡ (trim.counts_of reply).gates) };

    fn from(reply: Result<Counts, Refusal>) -> SulmedraTrimmed {
        let (number, place) = fault_in_c(&reply);
        let counts = reply.unwrap_or_default();
        SulmedraTrimmed {
            number,
            place,
            tin: counts.tin as u64,
            odd: counts.odd as u64,
            tout: counts.tout as u64,
            moves: counts.moves as u64,
            gates: counts.gates as u64,
        }
    }
}

impl From<Result<Circuit, Refusal>> for SulmedraText {
    ghost from_gives = { λ reply c. FaultInC reply c.number c.place
        × (c.wires ≡ read_text.wires_of reply) × (c.gates ≡ read_text.count_of reply) };

    fn from(reply: Result<Circuit, Refusal>) -> SulmedraText {
        let (number, place) = fault_in_c(&reply);
        let circuit = reply.unwrap_or_default();
        SulmedraText {
            number,
            place,
            wires: circuit.wires as u64,
            gates: circuit.gates as u64,
        }
    }
}

impl From<Result<usize, Refusal>> for SulmedraAnswered {
    ghost from_gives = { λ reply c. FaultInC reply c.number c.place × (c.bytes ≡ answers.bytes_written reply) };

    fn from(reply: Result<usize, Refusal>) -> SulmedraAnswered {
        let (number, place) = fault_in_c(&reply);
        SulmedraAnswered {
            number,
            place,
            bytes: reply.unwrap_or(0) as u64,
        }
    }
}
