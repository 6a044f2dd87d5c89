// The faults of document 01, each once by name with its number, and why a call is refused.
#[derive(Clone, Copy, Debug, PartialEq, Eq)]
pub enum Fault {
    WireCount = 1,
    ListLength = 2,
    GateKind = 3,
    GateWire = 4,
    SameWire = 5,
    TableRule = 6,
    RowRule = 7,
    LentOutput = 8,
    Malformed = 9,
    BadMove = 10,
    SecondList = 11,
}

impl From<Fault> for u8 {
    ghost use Rattle.std.specs.Prelude.{◌≡◌};
    ghost use Rattle.circuit.specs.Told.{number};

    ghost from_gives = { λ fault byte. byte ≡ number fault };

    fn from(fault: Fault) -> u8 {
        fault as u8
    }
}

// The first fault of a call, and where it is: a gate, counted from 0, a line of text, counted from 1, or 0.
#[derive(Clone, Copy, Debug, PartialEq, Eq)]
pub struct Refusal {
    pub fault: Fault,
    pub place: usize,
}

// A fault of the call as a whole has place 0.
impl From<Fault> for Refusal {
    ghost use Rattle.std.specs.Prelude.{◌≡◌};

    ghost from_gives = { λ fault refusal. (refusal.fault ≡ fault) × (refusal.place ≡ 0) };

    fn from(fault: Fault) -> Refusal {
        Refusal { fault, place: 0 }
    }
}
