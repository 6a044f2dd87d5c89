// Gates, three bytes each, and the kinds of gates, each once by name (document 01, "Gates and what they do"). Reading, judging and writing
// ask here.
ghost use Rattle.std.specs.Prelude.{◌≡◌, ◌≤◌, map};
ghost use Rattle.circuit.specs.Gate.{T, T_DAGGER, gate_of, gates_of, kind_of};
ghost use Rattle.circuit.specs.Kinds.{kind_byte, kind_said, kind_says, phase_said};

use crate::faults::Fault;
use crate::limits::{GATE_BYTES, Weight};

// The number of a kind is the kind byte of its gates.
#[derive(Clone, Copy, Debug, PartialEq, Eq)]
pub enum GateKind {
    Cnot = 1,
    T = 2,
    S = 3,
    Z = 4,
    SDagger = 5,
    TDagger = 6,
}

// A byte that is no kind.
#[derive(Clone, Copy, Debug, PartialEq, Eq)]
pub struct UnknownKind;

impl TryFrom<u8> for GateKind {
    type Error = UnknownKind;

    ghost try_from_gives = { λ byte said. kind_said said ≡ kind_of byte };

    fn try_from(byte: u8) -> Result<GateKind, UnknownKind> {
        match byte {
            1 => Ok(GateKind::Cnot),
            2..=6 => Ok(phase_gate(byte)),
            _ => Err(UnknownKind),
        }
    }
}

// The phase gate of a kind byte.
fn phase_gate(byte: u8) -> GateKind
    requires { (T ≤ byte) × (byte ≤ T_DAGGER) }
    ensures { kind_byte result ≡ byte }
{
    match byte {
        2 => GateKind::T,
        3 => GateKind::S,
        4 => GateKind::Z,
        5 => GateKind::SDagger,
        _ => GateKind::TDagger,
    }
}

impl From<UnknownKind> for Fault {
    ghost use Rattle.circuit.specs.declared.faults.Fault.TheVariants.{GateKind as KindFault};

    ghost from_gives = { λ _ fault. fault ≡ KindFault };

    fn from(_unknown: UnknownKind) -> Fault {
        Fault::GateKind
    }
}

impl From<GateKind> for u8 {
    ghost from_gives = { λ kind byte. byte ≡ kind_byte kind };

    fn from(kind: GateKind) -> u8 {
        kind as u8
    }
}

impl GateKind {
    // What a phase gate adds, in eighths of a turn; nothing where it is a CNOT.
    #[tactic(auto, unfolding(crate::specs::Gate::kind_of))]
    pub fn phase(self) -> Option<Weight>
        ensures { phase_said result ≡ kind_says self }
    {
        match self {
            GateKind::Cnot => None,
            GateKind::T => Some(1),
            GateKind::S => Some(2),
            GateKind::Z => Some(4),
            GateKind::SDagger => Some(6),
            GateKind::TDagger => Some(7),
        }
    }
}

// The three bytes of a gate: kind, a, b.
pub type Gate = [u8; GATE_BYTES];

// The gates of a list. Bytes that do not fill a gate are no gate.
pub fn gates(list: &[u8]) -> &[Gate]
    ensures { map gate_of result.now ≡ gates_of list.now }
{
    list.as_chunks::<GATE_BYTES>().0
}
