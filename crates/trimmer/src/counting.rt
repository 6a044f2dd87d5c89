// The members of an odd set, counted.
ghost use Rattle.std.specs.Prelude.{◌≡◌};
ghost use Rattle.circuit.specs.OddSet.{member_count};
ghost use Rattle.circuit.specs.TableFaults.{Marked};

use circuit::limits::{Mark, TABLE_BYTES};
use circuit::wires::Wires;

// How many members an odd set on so many wires has: the parities marked 1, so the marks summed. None is from 2^n up.
pub fn members_of(wires: Wires, marks: &[Mark; TABLE_BYTES]) -> usize
    requires { Marked wires.count marks.now }
    ensures { result ≡ member_count marks.now }
{
    marks[..wires.parities()]
        .iter()
        .map(|&mark| usize::from(mark))
        .sum()
}
