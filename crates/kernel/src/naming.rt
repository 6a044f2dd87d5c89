// From a mask of slots to the cells of a move: the members that it names and the one whose column came down to 0, in ascending order.
ghost use Rattle.std.specs.Prelude.{true, ◌≡◌, ◌<◌, replicate};
ghost use Rattle.circuit.specs.Limits.{parities, table_bytes};
ghost use Rattle.gf2.specs.Tests.{Decides};
ghost use Rattle.moves.specs.Pair.{PairIn, mended};
ghost use Rattle.kernel.specs.Naming.{FewBelow, NamesSet, NoPair, PairAt, SetNamed, WritesMove, listed_cells};

use crate::MoveCells;
use crate::partners::Partners;
use circuit::bits::BitsOf;
use circuit::limits::{MOVE_CELLS, MOVE_HEAD, Mark, PRODUCT_BITS, Parity, TABLE_BYTES};
use echelon::Echelon;
use moves::marks::{flip_mark, mark_at};

// A column that came down to 0: it is that of a, and a combination of those of the members that the mask names. These and a are a set.
#[derive(Drop)]
pub(crate) struct Dependency<'a> {
    pub(crate) a: Parity,
    pub(crate) mask: u64,
    pub(crate) columns: &'a Echelon,
    ghost is_parity: { a < parities },
}

// What is known of a set beside its marks, which are changed where they lie: the xor of its numbers, which is 0 or z; and `top`, their or,
// which none of them is above.
#[derive(Clone, Copy, Debug, PartialEq, Eq)]
struct Named {
    total: Parity,
    top: Parity,
}

// `all_lone`, `name_set` and `pair_at` have no more than the `for` over the slots in common: they ask, flip and look for different things.
// `all` was tried for the first: what it asks of the closure for each slot that comes did not close.
impl Dependency<'_> {
    // The move of z with the set, unless that has no one of a pair.
    pub(crate) fn move_with(&self, partners: &Partners) -> Option<MoveCells>
        ensures { WritesMove partners.now.marks.now partners.now.z self.now.a self.now.mask self.now.columns.now.member result }
    {
        if self.all_lone(partners) {
            return None;
        }
        let mut set = [0; TABLE_BYTES];
        let named = self.name_set(&mut set);
        // members of slots differ from each other and from a, so that one is found; no contract says that they do, and none is answered too
        let y = self.pair_at(partners, &set)?;
        mend(named.total, partners.z, y, &mut set);
        // the partner of y may have come in
        let end = usize::from(named.top | (y ^ partners.z)) + 1;
        Some(list(partners.z, end, &set))
    }

    // True only where neither a nor the member of a slot in the mask has its partner. Then the set has no one of a pair, and is not named.
    fn all_lone(&self, partners: &Partners) -> bool
        ensures { result ≡ true → NoPair partners.now.marks.now partners.now.z self.now.a self.now.mask self.now.columns.now.member }
    {
        if partners.has_partner(self.a) {
            return false;
        }
        for s in BitsOf::new(self.mask, PRODUCT_BITS) {
            if partners.has_partner(self.columns.member[s]) {
                return false;
            }
        }
        true
    }

    // Marks the members of the slots in the mask, and a. Each mark is flipped, so it is of no matter whether members differ.
    fn name_set(&self, set: &mut [Mark; TABLE_BYTES]) -> Named
        requires { set.old ≡ replicate table_bytes 0 }
        ensures { NamesSet self.now.a self.now.mask self.now.columns.now.member set.new result.total result.top }
    {
        let mut total: Parity = 0;
        let mut top = self.a;
        for s in BitsOf::new(self.mask, PRODUCT_BITS) {
            let y = self.columns.member[s];
            flip_mark(set, y);
            total ^= y;
            top |= y;
        }
        flip_mark(set, self.a);
        Named {
            total: total ^ self.a,
            top,
        }
    }

    // Some y of the set that is one of a pair: a, or a member of a slot in the mask.
    fn pair_at(&self, partners: &Partners, set: &[Mark; TABLE_BYTES]) -> Option<Parity>
        requires { SetNamed self.now.a self.now.mask self.now.columns.now.member set.now }
        ensures { PairAt partners.now.marks.now partners.now.z set.now result }
    {
        if is_pair(partners, set, self.a) {
            return Some(self.a);
        }
        for s in BitsOf::new(self.mask, PRODUCT_BITS) {
            let y = self.columns.member[s];
            if is_pair(partners, set, y) {
                return Some(y);
            }
        }
        None
    }
}

// Whether y is in the set, and its partner is a member.
fn is_pair(partners: &Partners, set: &[Mark; TABLE_BYTES], y: Parity) -> bool
    requires { y < parities }
    ensures { Decides result (PairIn partners.now.marks.now partners.now.z set.now y) }
{
    mark_at(set, y) == 1 && partners.has_partner(y)
}

// Where the xor of the set is not 0, an odd number of it names wire t: y gives place to its partner, and exactly one of the two does.
fn mend(total: Parity, z: Parity, y: Parity, set: &mut [Mark; TABLE_BYTES])
    requires { (z < parities) × (y < parities) }
    ensures { set.new ≡ mended total z y set.old }
{
    if total == 0 {
        return;
    }
    flip_mark(set, y);
    flip_mark(set, y ^ z);
}

// z, the number in the set, the set in ascending order, zeros. All numbers of the set are below `end`.
fn list(z: Parity, end: usize, set: &[Mark; TABLE_BYTES]) -> MoveCells
    requires { FewBelow end set.now }
    ensures { result ≡ listed_cells z set.now }
{
    let mut cells = [0; MOVE_CELLS];
    cells[0] = z;
    // They are counted in the cells, where C reads how many there are. `gather` of `finder` lists members of all parities, with no branch.
    for (y, &mark) in set[..end].iter().enumerate() {
        if mark == 1 {
            let k = usize::from(cells[1]);
            cells[k + MOVE_HEAD] = y as Parity;
            cells[1] += 1;
        }
    }
    cells
}
