// Whether cells are a legal move for these marks (document 01, "Legal moves"; check 10). Their form, the set Y, the pair that z separates
// and the balance of Y have a function each, with at most one loop. The cells come from outside and may be any numbers. Internal: no entry
// for users.
#![tactic(auto)]

ghost use Rattle.std.specs.Prelude.{◌≢◌, ◌≡◌, ◌<◌, ◌≤◌, MatchOption, length};
ghost use Rattle.circuit.specs.Limits.{max_members, max_wires, parities};
ghost use Rattle.circuit.specs.OddSet.{Member};
ghost use Rattle.circuit.specs.Sound.{weight};
ghost use Rattle.gf2.specs.Copies.{pairs};
ghost use Rattle.gf2.specs.Over.{Below};
ghost use Rattle.gf2.specs.Tests.{Decides};
ghost use Rattle.moves.specs.Log.{LegalCells, MoveForm, set_of};
ghost use Rattle.moves.specs.Move.{Balanced, Legal, Separates};
ghost use Rattle.legality.specs.Tested.{IsZero, MemberSet, Outside, SaysLegal, SaysMove};

use circuit::limits::{
    MAX_MEMBERS, MAX_WIRES, MOVE_HEAD, Mark, MoveCell, PARITIES, Parity, TABLE_BYTES,
};
use circuit::parity::lowest;
use moves::partner::bar;

// A move as its cells say it: z and the set Y.
#[derive(Clone, Copy, Debug)]
pub struct Move<'a> {
    pub z: Parity,
    pub ys: &'a [Parity],
    ghost few: { length ys.now ≤ max_members },
}

// The marks of an odd set. Parity 0 is no member, so that it may stand before the first of Y.
#[derive(Clone, Copy)]
struct OddSet<'a> {
    marks: &'a [Mark; TABLE_BYTES],
    ghost none: { weight marks.now 0 ≡ 0 },
}

// The move that cells say, if it is legal for these marks: on all wires, which for marks of fewer is the same. Internal: the caller has
// found no fault in the marks, and so none at parity 0.
pub fn legal_move<'a>(marks: &[Mark; TABLE_BYTES], cells: &'a [MoveCell]) -> Option<Move<'a>>
    requires { weight marks.now 0 ≡ 0 }
    ensures { MatchOption result (LegalCells max_members max_wires marks.now cells.now → ⊥)
        (λ m. SaysLegal marks.now cells.now m.z m.ys.now) }
{
    let said = Move::read(cells)?;
    said.is_legal(marks).then_some(said)
}

// The set Y, as part of the cells of a move. Internal: the cells have the form of one.
pub fn set_of(cells: &[MoveCell]) -> &[Parity]
    requires { MoveForm max_members cells.now }
    ensures { result.now ≡ set_of cells.now }
{
    let end = usize::from(cells[1]) + MOVE_HEAD;
    &cells[MOVE_HEAD..end]
}

impl<'a> Move<'a> {
    // The move that cells say: z, the number in Y, Y, and zeros to the last cell. None where they have another form.
    fn read(cells: &'a [MoveCell]) -> Option<Move<'a>>
        ensures { MatchOption result (MoveForm max_members cells.now → ⊥) (λ m. SaysMove cells.now m.z m.ys.now) }
    {
        let (&[z, count], padded) = cells.split_first_chunk::<MOVE_HEAD>()?;
        let padded = padded.as_array::<MAX_MEMBERS>()?;
        let (ys, zeros) = padded.split_at_checked(usize::from(count))?;
        if !is_zero(zeros) {
            return None;
        }
        Some(Move { z, ys })
    }

    fn is_legal(&self, marks: &[Mark; TABLE_BYTES]) -> bool
        requires { weight marks.now 0 ≡ 0 }
        ensures { Decides result (Legal max_members max_wires marks.now self.now.z self.now.ys.now) }
    {
        let odd = OddSet { marks };
        self.is_set(&odd) && self.separates(&odd) && self.is_balanced()
    }

    // Each of Y is above the one before, so that nothing stands twice, and is a member.
    fn is_set(&self, odd: &OddSet) -> bool
        ensures { Decides result (MemberSet odd.now.marks.now self.now.ys.now) }
    {
        let mut last: Parity = 0;
        for &y in self.ys {
            if y <= last || !odd.has(y) {
                return false;
            }
            last = y;
        }
        true
    }

    // z is a ^ b for some a in Y and some member b not in Y.
    fn separates(&self, odd: &OddSet) -> bool
        ensures { Decides result (Separates odd.now.marks.now self.now.z self.now.ys.now) }
    {
        self.ys.iter().any(|&y| self.leaves(odd, y ^ self.z))
    }

    // b is a member that is not in Y. No number of Y is tested by itself: `contains` looks at many together.
    fn leaves(&self, odd: &OddSet, b: Parity) -> bool
        ensures { Decides result (Outside odd.now.marks.now self.now.ys.now b) }
    {
        let ys = self.ys;
        odd.has(b) && !ys.contains(&b)
    }

    // The xor of Y is 0, and so is that of the pairs of wires of its bars, for the lowest wire of z: these stand for every triple of wires.
    // Internal: z and Y are parities.
    fn is_balanced(&self) -> bool
        requires { (self.now.z ≢ 0) × (self.now.z < parities) × Below parities self.now.ys.now }
        ensures { Decides result (Balanced max_wires self.now.z self.now.ys.now) }
    {
        let z = u64::from(self.z);
        let t = lowest(self.z);
        let mut total: Parity = 0;
        let mut pairs: u64 = 0;
        for &y in self.ys {
            total ^= y;
            pairs ^= pairs_of(bar(z, t, u64::from(y)));
        }
        total == 0 && pairs == 0
    }
}

impl OddSet<'_> {
    // A number from outside may be no parity, and is then no member.
    fn has(&self, p: Parity) -> bool
        ensures { Decides result (Member self.now.marks.now p) }
    {
        let i = usize::from(p);
        let marks = self.marks;
        i < PARITIES && marks[i] == 1
    }
}

// Whether all cells are 0. None is tested by itself: `==` looks at many together.
fn is_zero(cells: &[MoveCell]) -> bool
    requires { length cells.now ≤ max_members }
    ensures { Decides result (IsZero cells.now) }
{
    let zeros = [0; MAX_MEMBERS];
    cells == &zeros[..cells.len()]
}

// A number times this is copies of it, one place further apart than it has bits.
const SPACED: u64 = ((1 << ((MAX_WIRES + 1) * (MAX_WIRES / 2 + 1))) - 1)
    / ((1 << (MAX_WIRES + 1)) - 1);

// A number times this is copies of it side by side.
const CLOSE: u64 = ((1 << (MAX_WIRES * (MAX_WIRES / 2 + 2))) - 1) / ((1 << MAX_WIRES) - 1);

// The products of all pairs of wires of x, by two multiplications: no table has to be laid out for a few numbers.
fn pairs_of(x: u64) -> u64
    requires { x < parities }
    ensures { result ≡ pairs max_wires x }
{
    (x * SPACED) & (x * CLOSE)
}
