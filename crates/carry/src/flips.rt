// The marks that a move flips, flipped where they are lent (document 01, "Legal moves"), and how many of them then differ from before
// (document 02, 2.4). The count goes with the flips: no other mark is looked at but mark 0.
ghost use Rattle.std.specs.Prelude.{◌%◌};
ghost use Rattle.moves.specs.CarryOut.{carry_out, flip_pairs};
ghost use Rattle.carry.specs.Flips.{Clears, Flippable, Flips, FlipsIfOdd, ZFlippable, Clearable};

use circuit::limits::{Mark, Parity, TABLE_BYTES};
use moves::marks::{flip_mark, mark_at};

// Flips the mark of y and of y ^ z for each y, and that of z if they are odd in number; then mark 0 is cleared. Gives how many marks differ
// from before. Internal: the caller has found the move legal.
pub fn carry(marks: &mut [Mark; TABLE_BYTES], z: Parity, ys: &[Parity]) -> usize
    requires { Flippable marks.old z ys.now }
    ensures { Flips (carry_out marks.old z ys.now) marks.old marks.new result }
{
    let by_pairs = flip_pairs(marks, z, ys);
    let by_all = flip_if_odd(marks, z, ys.len(), by_pairs);
    clear(marks, by_all)
}

// Flips the mark of y and of y ^ z for each y, and gives how many marks then differ. The two differ together, since both are flipped for
// each of them that is in Y. The mark of y was 1: so where it is 1 now, two marks more will differ, else two less; and `up` of those so
// far were 1.
fn flip_pairs(marks: &mut [Mark; TABLE_BYTES], z: Parity, ys: &[Parity]) -> usize
    requires { Flippable marks.old z ys.now }
    ensures { Flips (flip_pairs marks.old z ys.now) marks.old marks.new result }
{
    let mut up: usize = 0;
    for &y in ys {
        up += usize::from(mark_at(marks, y));
        flip_mark(marks, y);
        flip_mark(marks, y ^ z);
    }
    4 * up - 2 * ys.len()
}

// Flips the mark of z if the count of Y is odd, and gives how many marks then differ, where `differ` did before. The mark of z differs
// exactly where mark 0 does: 0 ^ z is z.
fn flip_if_odd(marks: &mut [Mark; TABLE_BYTES], z: Parity, count: usize, differ: usize) -> usize
    requires { ZFlippable marks.old z differ }
    ensures { FlipsIfOdd (count % 2) z differ marks.old marks.new result }
{
    if count % 2 == 0 {
        return differ;
    }
    let zero = usize::from(mark_at(marks, 0));
    flip_mark(marks, z);
    differ + 1 - 2 * zero
}

// Clears mark 0, which was 0 before the move, and gives how many marks then differ, where `differ` did before.
fn clear(marks: &mut [Mark; TABLE_BYTES], differ: usize) -> usize
    requires { Clearable marks.old differ }
    ensures { Clears differ marks.old marks.new result }
{
    let zero = usize::from(mark_at(marks, 0));
    marks[0] = 0;
    differ - zero
}
