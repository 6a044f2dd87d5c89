// An xor basis ("echelon") of PRODUCT_BITS slots, in which the finder eliminates columns. A mask names the slots that are filled. Such a
// slot s holds a number whose leading bit is s; beside it stand the parity whose column opened it, and the slots that were taken off that
// column before. What stands in and beside the others means nothing: with the mask 0 all slots are empty. Internal: no entry for users.
#![tactic(auto)]

ghost use Rattle.std.specs.Prelude.{◌≢◌, ◌≡◌, ◌<◌, ◌^◌, length};
ghost use Rattle.circuit.specs.Limits.{parities, product_bits};
ghost use Rattle.gf2.specs.Echelon.{by_members};
ghost use Rattle.echelon.specs.Slots.{LeadingBit, SlotMembers};

pub mod basis;

use basis::{Reduced, Slots};
use circuit::bits::BitsOf;
use circuit::limits::{PRODUCT_BITS, Parity};

// A column, or an entry of the product table, which is the column of its parity: a number with a bit for each slot, and no others.
#[derive(Clone, Copy, Debug, PartialEq, Eq)]
pub struct Column {
    pub bits: u64,
    pub ghost narrow: { bits < 2 ^ product_bits },
}

// The slots, and what stands beside them: the mask of the slots that were taken off a slot's column, and the member whose column it was.
// These are arrays of their own, and not fields of one slot: the numbers alone are what the quick elimination has (`Slots::grow`), the
// masks what `by_members` reads, the members what a set is named by.
#[derive(Drop)]
pub struct Echelon {
    pub slots: Slots,
    pub by: [u64; PRODUCT_BITS],
    pub member: [Parity; PRODUCT_BITS],
    pub ghost by_long: { length by ≡ product_bits },
    pub ghost members: { SlotMembers member },
}

impl Echelon {
    ghost use Rattle.echelon.specs.Columns.{Inserts};

    // All slots empty.
    pub fn new() -> Self
        ensures { result.slots.filled ≡ 0 }
    {
        Echelon {
            slots: Slots::new(),
            by: [0; PRODUCT_BITS],
            member: [0; PRODUCT_BITS],
        }
    }

    // All slots empty again.
    pub fn clear(&mut self)
        ensures { self.new.slots.filled ≡ 0 }
    {
        self.slots.clear();
    }

    // The column v of y goes in, unless it is a combination of the slots: then these, as a mask.
    pub fn insert(&mut self, y: Parity, v: Column) -> Option<u64>
        requires { y < parities }
        ensures { Inserts y v.bits self.old self.new result }
    {
        match self.slots.reduce(v) {
            Reduced::Dependent { used } => Some(used),
            Reduced::Independent { slot, left, used } => {
                self.slots.open(slot, left);
                self.by[slot] = used;
                self.member[slot] = y;
                None
            }
        }
    }

    // From a mask of slots to one of members: a slot stands for the member that opened it and for the slots taken off that one's column,
    // which lie above. These are named on the way, so the slots are no list that a `for` could go through.
    pub fn by_members(&self, used: u64) -> u64
        ensures { result ≡ by_members self.now.by used product_bits }
    {
        let mut slots = BitsOf::new(used, PRODUCT_BITS);
        while let Some(s) = slots.next() {
            slots.turn_over(self.by[s]);
        }
        slots.mask
    }
}

// The leading bit of x, which is a slot. The finder takes the highest wire of z by it too.
pub fn leading(x: u64) -> usize
    requires { (x ≢ 0) × (x < 2 ^ product_bits) }
    ensures { LeadingBit x result }
{
    x.ilog2() as usize
}
