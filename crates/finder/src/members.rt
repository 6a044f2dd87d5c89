// The members of an odd set as a list.
ghost use Rattle.std.specs.Prelude.{◌≤◌, take};
ghost use Rattle.circuit.specs.Limits.{max_wires, parities};
ghost use Rattle.circuit.specs.Sound.{SoundMarks};
ghost use Rattle.finder.specs.Search.{Gathered};

use circuit::limits::{Mark, PARITIES, Parity, TABLE_BYTES};

// Lists the members below `size` in ascending order, from the start of what is lent, and gives their number. Each parity is put at the end
// of the list, and stays there where its mark is 1: marks are hard to foresee, so a branch on each costs more. Of 256 random marks this
// takes 0.13 microseconds, and `ArrayVec::push`, which wants a branch, 0.4 to 1.1. It gives no slice: of a list from which a result borrows
// no clause says what it then holds. Internal: the caller has found the marks sound.
pub fn gather(size: usize, marks: &[Mark; TABLE_BYTES], list: &mut [Parity; PARITIES]) -> usize
    requires { SoundMarks parities max_wires marks.now × (size ≤ parities) }
    ensures { (result ≤ parities) × Gathered size marks.now (take result list.new) }
{
    let mut count = 0;
    for (p, &mark) in marks[..size].iter().enumerate() {
        list[count] = p as Parity;
        count += usize::from(mark);
    }
    count
}
