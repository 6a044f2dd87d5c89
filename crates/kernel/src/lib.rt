// The question that the finder asks of one column: whether it offers a separating set, the set of a legal move with this z. It is
// eliminated with the columns before it; where it comes down to 0, the set is named. Internal: no entry for users.
#![tactic(auto)]

ghost use Rattle.std.specs.Prelude.{◌<◌};
ghost use Rattle.circuit.specs.Limits.{parities};
ghost use Rattle.kernel.specs.Offer.{Offers};

pub mod naming;
pub mod partners;

use circuit::limits::{MOVE_CELLS, MoveCell, Parity};
use echelon::{Column, Echelon};
use naming::Dependency;
use partners::Partners;

// A move by its cells, as the finder writes it; `legality::Move` is one that was read from cells.
pub type MoveCells = [MoveCell; MOVE_CELLS];

// The move with the separating set that the column v of a offers for z, where it offers one: where it is a combination of the columns in
// the slots, and these and a have one of a pair among them. A column that is no combination goes in. 0 is no member: then nothing is asked.
pub fn offer(partners: &Partners, a: Parity, v: Column, columns: &mut Echelon) -> Option<MoveCells>
    requires { a < parities }
    ensures { Offers partners.now.marks.now a partners.now.z v.bits columns.old columns.new result }
{
    if a == 0 {
        return None;
    }
    let used = columns.insert(a, v)?;
    let mask = columns.by_members(used);
    Dependency { a, mask, columns }.move_with(partners)
}
