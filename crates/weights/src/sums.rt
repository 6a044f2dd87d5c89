// The coefficients l, q and c of weights (document 01, "Signature"). Internal: the caller asks for wires below the most. A wire
// is made of a place in a list (`lists`): a struct that says that it is one would be made anew at each.
ghost use Rattle.std.specs.Prelude.{◌≡◌, ◌*◌, ◌<◌, ◌≤◌, pos, length};
ghost use Rattle.gf2.specs.Bit.{bit};
ghost use Rattle.circuit.specs.Limits.{max_wires, most_byte, parities};
ghost use Rattle.phase.specs.Coefficients.{c, l, q};
ghost use Rattle.weights.specs.Sums.{WiresBelow, sum_with};

use circuit::limits::{Coefficient, Parity, Weight};

// Weights to ask for coefficients: no more than there are parities.
#[derive(Clone, Copy)]
pub struct Weights<'a> {
    pub w: &'a [Weight],
    pub ghost few: { length w.now ≤ parities },
}

// l, q and c share their sum, and differ in the number of wires, in sign and in modulus. One function by a list of wires would be no
// plainer: it has to ask that the wires ascend, which none of these does.
impl Weights<'_> {
    // The sum of the weights of parities with i, modulo 8.
    pub fn l_of(&self, i: usize) -> Coefficient
        requires { i < max_wires }
        ensures { (result ≡ l self.now.w.now i) × (result < 8) }
    {
        self.sum_with(i, i, i).rem_euclid(8) as Coefficient
    }

    // Minus the sum of the weights of parities with i and j, modulo 4: a remainder that is never negative, and 0 at multiples of four.
    pub fn q_of(&self, i: usize, j: usize) -> Coefficient
        requires { (i < max_wires) × (j < max_wires) }
        ensures { (result ≡ q self.now.w.now i j) × (result < 4) }
    {
        (-self.sum_with(i, j, j)).rem_euclid(4) as Coefficient
    }

    // The sum of the weights of parities with all three, modulo 2.
    pub fn c_of(&self, i: usize, j: usize, k: usize) -> Coefficient
        requires { WiresBelow i j k }
        ensures { result ≡ c self.now.w.now i j k }
    {
        self.sum_with(i, j, k).rem_euclid(2) as Coefficient
    }

    // The sum of the weights of parities with i, j and k, which need not differ.
    fn sum_with(&self, i: usize, j: usize, k: usize) -> i32
        requires { WiresBelow i j k }
        ensures { (result ≡ pos (sum_with self.now.w.now i j k)) × (sum_with self.now.w.now i j k ≤ most_byte * parities) }
    {
        let mut s = 0;
        for (p, &x) in self.w.iter().enumerate() {
            s += share(x, p as Parity, i, j, k);
        }
        s
    }
}

// The weight x of p, if p names i, j and k.
fn share(x: Weight, p: Parity, i: usize, j: usize, k: usize) -> i32
    requires { WiresBelow i j k }
    ensures { result ≡ pos (x * (bit p i * bit p j * bit p k)) }
{
    if (p >> i) % 2 == 1 && (p >> j) % 2 == 1 && (p >> k) % 2 == 1 {
        i32::from(x)
    } else {
        0
    }
}
