// The finder: a legal move with the smallest z for an odd set, or the certainty that there is none (document 01, "Legal moves"; document
// 02, 2.7).
// Public entry: `find`. Its promise is the record FindMove of specs/Entry, which speaks of every z and Y; proofs/Laws says what it means.
#![tactic(auto)]

ghost use Rattle.circuit.specs.TableFaults.{Marked};
ghost use Rattle.finder.specs.Entry.{FindMove};
ghost use Rattle.finder.specs.Search.{Searched};

pub mod members;
pub mod scan;

use circuit::faults::Refusal;
use circuit::limits::{MAX_MARK, MOVE_CELLS, Mark, MoveCell, PARITIES, TABLE_BYTES};
use circuit::wires::Wires;
use columns::Search;
use columns::table::Products;
use judges::faults::check_lent;
use judges::table_faults::check_call;
use kernel::MoveCells;
use members::gather;
use moves::Sought;
use scan::scan;

// Finds a legal move with the smallest z for the marks of an odd set and writes its cells. Where it finds none, and on refusal, the cells
// stay as they were. The product table is made once, so that the scan only reads it.
pub fn find(n: usize, marks: &[Mark], cells: &mut [MoveCell]) -> Result<Sought, Refusal>
    ensures { FindMove n marks.now cells.old cells.new result }
{
    let lent = check_lent(cells.len(), MOVE_CELLS);
    let (wires, marks) = check_call(n, lent, MAX_MARK, marks)?;
    match search_by(&Products::new(), wires, marks) {
        Some(found) => {
            cells.copy_from_slice(&found);
            Ok(Sought::Found)
        }
        None => Ok(Sought::Nothing),
    }
}

// The search with the product table lent: the members are gathered once, so that the scan goes through them alone. Internal: the caller has
// found the marks sound. It is public for the trim, which has proved its marks sound and need not have them judged again before each move,
// and which makes the table once for all moves.
pub fn search_by(
    products: &Products,
    wires: Wires,
    marks: &[Mark; TABLE_BYTES],
) -> Option<MoveCells>
    requires { Marked wires.count marks.now }
    ensures { Searched wires.count marks.now result }
{
    let mut list = [0; PARITIES];
    let count = gather(wires.parities(), marks, &mut list);
    let search = Search {
        products,
        marks,
        members: &list[..count],
    };
    scan(wires, &search)
}
