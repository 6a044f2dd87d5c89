// Lists of the coefficients, for wires i < j < k below n, and 0 elsewhere (document 01, "Signature"). Internal: the caller has found no
// fault.
ghost use Rattle.std.specs.Prelude.{◌≡◌, ℕ, ◌<◌, ◌≤◌, get_or, length};
ghost use Rattle.circuit.specs.Limits.{max_wires, parities};
ghost use Rattle.weights.specs.Lists.{ListsOf, c_entry, l_entry, q_entry};

use crate::sums::Weights;
use circuit::limits::{Coefficient, MAX_WIRES, PAIR_BYTES, TRIPLE_BYTES, Weight};

// The three lists: l(i) at i, q(i, j) at N j + i, c(i, j, k) at N N k + N j + i, where N is MAX_WIRES.
pub fn put_lists(
    n: usize,
    w: &[Weight],
    l: &mut [Coefficient; MAX_WIRES],
    q: &mut [Coefficient; PAIR_BYTES],
    c: &mut [Coefficient; TRIPLE_BYTES],
)
    requires { length w.now ≤ parities }
    ensures { ListsOf n w.now l.new q.new c.new }
{
    let weights = Weights { w };
    put_list(l, |i| weights.l_entry(n, i));
    put_list(q, |p| weights.q_entry(n, p % MAX_WIRES, p / MAX_WIRES));
    put_list(c, |p| {
        let j = p / MAX_WIRES % MAX_WIRES;
        weights.c_entry(n, p % MAX_WIRES, j, p / PAIR_BYTES)
    });
}

// One list: at each place what `entry` gives for it.
fn put_list<F: Fn(usize) -> Coefficient>(list: &mut [Coefficient], entry: F)
    requires { (p : ℕ) → p < length list.old → F.pre entry p }
    ensures { (p : ℕ) → p < length list.old → F.post entry p (get_or list.new p 0) }
{
    for (p, x) in list.iter_mut().enumerate() {
        *x = entry(p);
    }
}

// Each entry is a test and a call of what `sums` has for so many wires. One function for the three would be no plainer: it has to take a
// list of wires, and to ask how many there are.
impl Weights<'_> {
    // l(i) below n, 0 from there on.
    fn l_entry(&self, n: usize, i: usize) -> Coefficient
        requires { i < max_wires }
        ensures { result ≡ l_entry n self.now.w.now i }
    {
        if i < n { self.l_of(i) } else { 0 }
    }

    // q(i, j) where i < j < n, else 0.
    fn q_entry(&self, n: usize, i: usize, j: usize) -> Coefficient
        requires { j < max_wires }
        ensures { result ≡ q_entry n self.now.w.now i j }
    {
        if i < j && j < n { self.q_of(i, j) } else { 0 }
    }

    // c(i, j, k) where i < j < k < n, else 0.
    fn c_entry(&self, n: usize, i: usize, j: usize, k: usize) -> Coefficient
        requires { k < max_wires }
        ensures { result ≡ c_entry n self.now.w.now i j k }
    {
        if i < j && j < k && k < n {
            self.c_of(i, j, k)
        } else {
            0
        }
    }
}
