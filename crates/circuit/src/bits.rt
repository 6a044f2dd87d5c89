// The bits that a mask names, from below: the wires of a parity, the slots of elimination.
ghost use Rattle.std.specs.Prelude.{◌≡◌, ◌-◌, ◌<◌, ◌≤◌};
ghost use Rattle.std.specs.Int.Bits.{bit_xor};
ghost use Rattle.std.specs.Iterator.{at_most};
ghost use Rattle.circuit.specs.Limits.{word_bits};

// Goes from one bit below `end` that the mask names to the next, with no turn for those between. The mask may be changed on the way: what
// it names from then on counts.
#[derive(Clone, Copy, Debug, PartialEq, Eq)]
pub struct BitsOf {
    pub mask: u64,
    pub from: usize,
    pub end: usize,
    pub ghost inside: { (from ≤ end) × (end < word_bits) },
}

impl BitsOf {
    pub fn new(mask: u64, end: usize) -> Self
        requires { end < word_bits }
        ensures { (result.mask ≡ mask) × (result.from ≡ 0) × (result.end ≡ end) }
    {
        BitsOf { mask, from: 0, end }
    }

    // Names the bits of `others` too, or no longer. Those passed are passed still.
    pub fn turn_over(&mut self, others: u64)
        ensures { (self.new.mask ≡ bit_xor self.old.mask others) × (self.new.from ≡ self.old.from) × (self.new.end ≡ self.old.end) }
    {
        self.mask ^= others;
    }
}

impl Iterator for BitsOf {
    type Item = usize;

    ghost use Rattle.circuit.specs.Bits.{NextOf};

    ghost next_gives = { NextOf };

    ghost remaining = { λ l. at_most (l.end - l.from) };

    fn next(&mut self) -> Option<usize> {
        let bit = self.from + (self.mask >> self.from).trailing_zeros() as usize;
        if bit >= self.end {
            return None;
        }
        self.from = bit + 1;
        Some(bit)
    }
}
