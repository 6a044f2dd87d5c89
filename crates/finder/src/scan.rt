// The scan over all z and their columns.
ghost use Rattle.std.specs.Prelude.{◌^◌, ◌≤◌};
ghost use Rattle.finder.specs.Search.{Scanned};

use circuit::limits::Parity;
use circuit::wires::Wires;
use columns::halves::Half;
use columns::{OneZ, Search};
use echelon::Echelon;
use kernel::partners::Partners;
use kernel::{MoveCells, offer};

// Goes through z from 1 up, and for each through its columns: a in turn, with b = a ^ z. Both loops are left as soon as a column offers a
// separating set; every z below was asked before, so none of them has a legal move. Of the n(n + 1)/2 product bits a column has not the n
// with the highest wire t of z, so at most `most` columns can be apart. Internal: the caller has gathered the members of the marks.
pub fn scan(wires: Wires, search: &Search) -> Option<MoveCells>
    requires { 1 ≤ wires.count }
    ensures { Scanned (2 ^ wires.count) search.now.marks.now result }
{
    let most = wires.count * (wires.count - 1) / 2;
    let mut half = Half::new();
    let mut columns = Echelon::new();
    let mut best = None;
    // z is a number of no list. So is the turn: each member is asked twice, and what comes of it hangs on which time it is.
    'search: for k in 1..wires.parities() {
        let one = OneZ::new(k as Parity);
        half.for_z(search.products, search.members, one, most);
        let partners = Partners {
            marks: search.marks,
            z: one.z,
        };
        columns.clear();
        for i in 0..search.to_ask(one, &mut half) {
            if let Some(a) = search.turn(one, i) {
                let v = search.products.column(one, a);
                if let Some(found) = offer(&partners, a, v, &mut columns) {
                    best = Some(found);
                    break 'search;
                }
            }
        }
    }
    best
}
