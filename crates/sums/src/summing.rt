// Superset sums in place, modulo 8: each parity gets the sum over those that name all its wires. Internal. That the numbers are below 8
// stands in clauses: a struct that says so would be made anew for each block that is cut off.
ghost use Rattle.std.specs.Prelude.{◌≡◌, ◌*◌, ◌<◌, ◌^◌, length};
ghost use Rattle.gf2.specs.Over.{Below};
ghost use Rattle.circuit.specs.Limits.{max_wires};
ghost use Rattle.sums.specs.Summing.{Added, InBlocks, SumsTo, WireAdded};

use circuit::limits::Weight;
use circuit::wires::Wires;

// One wire after the other: a wire is no more than its number, so that the loop goes over numbers.
pub fn put_sums(wires: Wires, s: &mut [Weight])
    requires { (length s.old ≡ 2 ^ wires.count) × Below 8 s.old }
    ensures { SumsTo wires.count s.old s.new }
{
    for i in 0..wires.count {
        add_wire(s, i);
    }
}

// To each parity without wire i comes what stands at the same one with it, block by block.
fn add_wire(s: &mut [Weight], i: usize)
    requires { (i < max_wires) × InBlocks i s.old }
    ensures { WireAdded i (length s.old) s.old s.new }
{
    let h = 1 << i;
    // Not `s.chunks_exact_mut(2 * h)`: tried, and once it is done, a proof knows nothing of what s holds.
    for b in 0..s.len() / (2 * h) {
        let from = b * (2 * h);
        add_block(&mut s[from..from + 2 * h], h);
    }
}

// To the half of a block without the wire, which comes first, comes the half with it. Each lies in one piece, so that many bytes are added
// at a time.
fn add_block(block: &mut [Weight], h: usize)
    requires { (length block.old ≡ 2 * h) × Below 8 block.old }
    ensures { Added 0 h h block.old block.new }
{
    let (without, having) = block.split_at_mut(h);
    // Not `without.iter_mut().zip(having)`: tried, and then a proof knows the length of what was written, and no number of it.
    for (p, x) in without.iter_mut().enumerate() {
        *x = (*x + having[p]) % 8;
    }
}
