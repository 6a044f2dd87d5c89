// Carrying out a move on lent marks, with how many then differ (document 02, 2.4), and move k of a log (document 01, "Legal moves").
// Public entries: `carry_out`, whose promise is the record CarriesOut of specs/Entry, and `move_at`.
#![tactic(auto)]

ghost use Rattle.std.specs.Prelude.{◌≡◌};
ghost use Rattle.circuit.specs.Limits.{move_cells};
ghost use Rattle.moves.specs.Log.{move_at};
ghost use Rattle.carry.specs.Entry.{CarriesOut};

pub mod flips;

use circuit::faults::{Fault, Refusal};
use circuit::limits::{MAX_MARK, MOVE_CELLS, Mark, MoveCell, TABLE_BYTES};
use flips::carry;
use judges::faults::check_wires;
use judges::table_faults::check_table;
use legality::legal_move;

// Carries out the move that the cells say, on the marks where they lie, and tells how many of them differ from before. A refusal leaves the
// marks as they were.
pub fn carry_out(n: usize, marks: &mut [Mark], cells: &[MoveCell]) -> Result<usize, Refusal>
    ensures { CarriesOut n marks.old cells.now marks.new result }
{
    check_wires(n)?;
    let marks = marks
        .as_mut_array::<TABLE_BYTES>()
        .ok_or(Fault::LentOutput)?;
    check_table(n, MAX_MARK, marks)?;
    let said = legal_move(marks, cells).ok_or(Fault::BadMove)?;
    Ok(carry(marks, said.z, said.ys))
}

// The cells of move k, counted from 0, as part of the lent log; empty where the log is too short for it.
pub fn move_at(log: &[MoveCell], k: usize) -> &[MoveCell]
    ensures { result.now ≡ move_at move_cells log.now k }
{
    let (moves, _) = log.as_chunks::<MOVE_CELLS>();
    match moves.get(k) {
        Some(cells) => cells,
        None => &[],
    }
}
