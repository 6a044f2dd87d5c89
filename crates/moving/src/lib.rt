// Making legal moves, each with the smallest z, until none is left. The marks are lent, and flipped where they lie. Internal: no entry for
// users.
#![tactic(auto)]

ghost use Rattle.std.specs.Prelude.{◌≡◌, ◌≤◌, length};
ghost use Rattle.circuit.specs.Limits.{log_cells, max_members, max_wires, parities};
ghost use Rattle.circuit.specs.Sound.{SoundMarks};
ghost use Rattle.circuit.specs.TableFaults.{Marked};
ghost use Rattle.moves.specs.CarryOut.{carry_out};
ghost use Rattle.moves.specs.Log.{LegalCells, set_of, z_of};
ghost use Rattle.moving.specs.Steps.{AllMade};

use carry::flips::carry;
use circuit::limits::{MOVE_CELLS, Mark, MoveCell, TABLE_BYTES};
use circuit::wires::Wires;
use columns::table::Products;
use finder::search_by;
use kernel::MoveCells;
use legality::set_of;

// Makes moves on the marks until none is legal, writes each to the log, and gives their number. The product table is made once for all
// searches. The moves are counted, since their number is the answer, and it says where the next one goes: the log cut into chunks would be
// gone through beside it, and after `chunks_exact_mut` a proof knows nothing of what the log holds.
pub fn make_moves(wires: Wires, marks: &mut [Mark; TABLE_BYTES], log: &mut [MoveCell]) -> usize
    requires { Marked wires.count marks.old × (log_cells ≤ length log.old) }
    ensures { AllMade wires.count marks.old log.old result marks.new log.new }
{
    let products = Products::new();
    let mut count = 0;
    while let Some(cells) = search_by(&products, wires, marks) {
        let at = MOVE_CELLS * count;
        log[at..at + MOVE_CELLS].copy_from_slice(&cells);
        make_move(marks, &cells);
        count += 1;
    }
    count
}

// Carries out a legal move on the marks; how many of them then differ is no matter here.
fn make_move(marks: &mut [Mark; TABLE_BYTES], cells: &MoveCells)
    requires { SoundMarks parities max_wires marks.old × LegalCells max_members max_wires marks.old cells.now }
    ensures { marks.new ≡ carry_out marks.old (z_of cells.now) (set_of cells.now) }
{
    carry(marks, cells[0], set_of(cells));
}
