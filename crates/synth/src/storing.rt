// Gates stored in lent bytes, one after the other. Internal: the caller has found no fault, so that there is room.
ghost use Rattle.std.specs.Prelude.{[], ◌∷◌, ◌≡◌};
ghost use Rattle.circuit.specs.Gate.{gate};
ghost use Rattle.synth.specs.Storing.{Room, Stored, on_wire};
ghost use Rattle.written.specs.Writing.{cnots};

use circuit::bits::BitsOf;
use circuit::gates::GateKind;
use circuit::limits::{GATE_BYTES, Parity};
use circuit::wires::Wires;

// The wires that the gates are on, lent bytes, and how many gates stand there. C lends the bytes, and the count is what it gets.
#[derive(Drop)]
pub struct Writer<'a> {
    pub wires: Wires,
    pub gates: &'a mut [u8],
    pub count: usize,
}

impl<'a> Writer<'a> {
    // The first gate will stand at the first byte.
    pub fn new(wires: Wires, gates: &'a mut [u8]) -> Writer<'a>
        ensures wires { result.wires ≡ wires }
        ensures same { result.gates.ghost_name ≡ gates.entry.ghost_name }
        ensures bytes { result.gates.now ≡ gates.old }
        ensures count { result.count ≡ 0 }
    {
        Writer {
            wires,
            gates,
            count: 0,
        }
    }

    // One gate, by its bytes.
    pub fn push(&mut self, kind: u8, a: u8, b: u8)
        requires { Room self.old (gate kind a b ∷ []) }
        ensures { Stored self.old self.new (gate kind a b ∷ []) }
    {
        let i = GATE_BYTES * self.count;
        let gates = &mut *self.gates;
        // One by one: with `copy_from_slice` a list takes four times as long to write.
        gates[i] = kind;
        gates[i + 1] = a;
        gates[i + 2] = b;
        self.count += 1;
    }

    // Gates of these kinds, in order, each on wire t alone.
    pub fn push_each(&mut self, kinds: &[GateKind], t: u8)
        requires { Room self.old (on_wire t kinds.now) }
        ensures { Stored self.old self.new (on_wire t kinds.now) }
    {
        for &kind in kinds {
            self.push(kind.into(), t, 0);
        }
    }

    // A CNOT into wire t from each wire that q names.
    pub fn push_cnots(&mut self, q: Parity, t: u8)
        requires { Room self.old (cnots self.old.wires.count q t) }
        ensures { Stored self.old self.new (cnots self.old.wires.count q t) }
    {
        for i in BitsOf::new(u64::from(q), self.wires.count) {
            self.push(GateKind::Cnot.into(), i as u8, t);
        }
    }
}
