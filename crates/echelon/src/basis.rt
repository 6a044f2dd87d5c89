// The slots alone: which of them are filled, and what they hold. For the question whether there is a dependency at all, this is enough.
ghost use Rattle.std.specs.Prelude.{◌≡◌};
ghost use Rattle.echelon.specs.Slots.{Masked, Within};

use crate::{Column, leading};
use circuit::limits::PRODUCT_BITS;

// The slots that the mask `filled` names hold what stands at their places in `vec`. What stands at the others means nothing, so an earlier
// mask gives back the slots that it named.
#[derive(Clone, Copy)]
pub struct Slots {
    pub filled: u64,
    pub vec: [u64; PRODUCT_BITS],
    pub ghost masked: { Masked filled vec },
}

// What comes of a column when slots are taken off it. No Result: neither end is a fault, and both tell the slots that were taken.
#[derive(Clone, Copy, Debug, PartialEq, Eq)]
pub(crate) enum Reduced {
    // The slots in the mask xor to the number.
    Dependent { used: u64 },
    // No combination of the slots. What is left of it has its leading bit at the slot, which is empty.
    Independent { slot: usize, left: u64, used: u64 },
}

impl Slots {
    ghost use Rattle.echelon.specs.Columns.{Fills, Grows, MayOpen, Reduces};

    // All slots empty.
    pub fn new() -> Self
        ensures { result.filled ≡ 0 }
    {
        Slots {
            filled: 0,
            vec: [0; PRODUCT_BITS],
        }
    }

    // All slots empty again. Nothing is stored but the mask.
    pub fn clear(&mut self)
        ensures { self.new.filled ≡ 0 }
    {
        self.filled = 0;
    }

    // The column v goes in, unless it is a combination of the slots; says whether it has opened one.
    pub fn grow(&mut self, v: Column) -> bool
        ensures { Grows v.bits self.old self.new result }
    {
        match self.reduce(v) {
            Reduced::Dependent { .. } => false,
            Reduced::Independent { slot, left, .. } => {
                self.open(slot, left);
                true
            }
        }
    }

    // The slots of an earlier mask are filled again, and no others.
    pub fn back_to(&mut self, earlier: u64)
        requires { Within earlier self.old.filled }
        ensures { (self.new.filled ≡ earlier) × (self.new.vec ≡ self.old.vec) }
    {
        self.filled = earlier;
    }

    // Takes slots off v, each time the one at its leading bit.
    pub(crate) fn reduce(&self, v: Column) -> Reduced
        ensures { Reduces self.now v.bits result }
    {
        let mut left = v.bits;
        let mut used: u64 = 0;
        while left != 0 {
            let slot = leading(left);
            if (self.filled >> slot) % 2 == 0 {
                return Reduced::Independent { slot, left, used };
            }
            left ^= self.vec[slot];
            used ^= 1 << slot;
        }
        Reduced::Dependent { used }
    }

    // What is left of a column fills the empty slot where it was stopped.
    pub(crate) fn open(&mut self, slot: usize, left: u64)
        requires { MayOpen self.old slot left }
        ensures { Fills slot left self.old self.new }
    {
        self.vec[slot] = left;
        self.filled ^= 1 << slot;
    }
}
