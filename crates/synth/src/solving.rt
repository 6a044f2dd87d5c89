// Solving for the rows: CNOTs bring mask i to 2^i, row by row. Who looks for faults asks whether each row has a pivot, and who writes goes
// by the steps. Internal.
ghost use Rattle.std.specs.Prelude.{◌≡◌, ◌-◌, ◌≤◌};
ghost use Rattle.std.specs.Iterator.{at_most};

use crate::masks::{Step, pivot_of, row_step};
use circuit::faults::Fault;
use circuit::limits::{MAX_WIRES, Parity};
use circuit::wires::Wires;

// The masks, and the row whose turn it is. It gives the step of each row in turn, or a fault where a row has no pivot. The row is counted:
// the place of an iterator is its state, and a range of rows would hold the wire count a second time.
#[derive(Clone, Copy, Debug, PartialEq, Eq)]
pub struct Solving {
    pub wires: Wires,
    pub masks: [Parity; MAX_WIRES],
    pub r: usize,
    pub ghost inside: { r ≤ wires.count },
}

impl Solving {
    // The masks start as the rows.
    pub fn new(wires: Wires, rows: &[Parity; MAX_WIRES]) -> Self
        ensures wires { result.wires ≡ wires }
        ensures masks { result.masks ≡ rows.now }
        ensures r { result.r ≡ 0 }
    {
        Solving {
            wires,
            masks: *rows,
            r: 0,
        }
    }
}

impl Iterator for Solving {
    type Item = Result<Step, Fault>;

    ghost use Rattle.synth.specs.Storing.{NextRow};

    ghost next_gives = { NextRow };

    ghost remaining = { λ s. at_most (s.wires.count - s.r) };

    // Each of the two loops has it in place: called, a row costs a fifth more of writing a list that is mostly empty.
    #[inline(always)]
    fn next(&mut self) -> Option<Result<Step, Fault>> {
        let r = self.r;
        if r >= self.wires.count {
            return None;
        }
        self.r += 1;
        let Some(b) = pivot_of(self.wires, r, self.masks[r]) else {
            return Some(Err(Fault::RowRule));
        };
        Some(Ok(row_step(&mut self.masks, r, b)))
    }
}
