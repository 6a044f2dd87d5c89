// Columns over the product table: one number for a number z and a parity y, the same for y ^ z. A set whose xor is 0 meets document 01's
// conditions on triples of wires where its columns xor to 0. Beside them, for one z: whose column has which turn (turns), and whether the
// columns depend on each other at all (halves). Internal: no entry for users.
#![tactic(auto)]

ghost use Rattle.std.specs.Prelude.{◌≢◌, ◌≡◌, ◌<◌};
ghost use Rattle.circuit.specs.Limits.{max_wires, parities};
ghost use Rattle.echelon.specs.Slots.{LeadingBit};
ghost use Rattle.columns.specs.OneZ.{Members};

pub mod halves;
pub mod table;
pub mod turns;

use circuit::limits::{Mark, Parity, TABLE_BYTES};
use echelon::leading;
use table::Products;

// What a search looks at, the same for every z: the product table, the marks, and the members that they mark.
#[derive(Clone, Copy)]
pub struct Search<'a> {
    pub products: &'a Products,
    pub marks: &'a [Mark; TABLE_BYTES],
    pub members: &'a [Parity],
    ghost listed: { ∥ Members marks.now members.now ∥₁ },
}

// A number z and a wire t, its highest one by `new`.
#[derive(Clone, Copy, Debug, PartialEq, Eq)]
pub struct OneZ {
    pub z: Parity,
    pub t: usize,
    ghost in_range: { (t < max_wires) × (z < parities) },
}

impl OneZ {
    // z with its highest wire.
    pub fn new(z: Parity) -> Self
        requires { (z ≢ 0) × (z < parities) }
        ensures { (result.z ≡ z) × LeadingBit result.z result.t }
    {
        OneZ {
            z,
            t: leading(u64::from(z)),
        }
    }
}
