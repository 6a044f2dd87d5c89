// Whether two lists without a fault act alike: both are read, their rows compared, and then l, q and c by the superset sums of the one
// table of weights less the other. Internal.
ghost use Rattle.std.specs.Prelude.{◌≡◌, ◌≤◌, length};
ghost use Rattle.circuit.specs.Gate.{gates_of};
ghost use Rattle.circuit.specs.Limits.{max_wires, parities};
ghost use Rattle.circuit.specs.Run.{SameAction};
ghost use Rattle.circuit.specs.Sound.{SoundReading, SoundWeights};
ghost use Rattle.gf2.specs.Tests.{Decides};
ghost use Rattle.phase.specs.Coefficients.{SameCoefficients, SaysSame};
ghost use Rattle.reader.specs.Entry.{reading_of};
ghost use Rattle.compare.specs.Deciding.{NoneTells};
ghost use Rattle.compare.specs.Deciding.{modulus as modulusOf};

use circuit::limits::{Parity, TABLE_BYTES, Weight};
use circuit::parity::wires_of;
use circuit::wires::Wires;
use judges::faults::FormedList;
use reader::reading::{ListRead, read_gates};
use sums::difference_sums;

// Of two lists on the same wires. What the second says is held against what the first says, as acting alike is defined.
pub fn act_alike(first: &FormedList<'_>, second: &FormedList<'_>) -> bool
    requires { second.now.wires.count ≡ first.now.wires.count }
    ensures { Decides result (SameAction first.now.wires.count (gates_of first.now.gates.now) (gates_of second.now.gates.now)) }
{
    let one = read_gates(first);
    let other = read_gates(second);
    say_same(first.wires, &other, &one)
}

// The rows come first: where they differ, the weights need not be summed.
fn say_same(wires: Wires, a: &ListRead, b: &ListRead) -> bool
    requires { SoundReading max_wires wires.count (reading_of a.now) × SoundReading max_wires wires.count (reading_of b.now) }
    ensures { Decides result (SaysSame wires.count (reading_of a.now) (reading_of b.now)) }
{
    a.rows == b.rows && same_coefficients(wires, &a.weights, &b.weights)
}

// The sums are made for all wires, pairs and triples at once. Sound weights are 0 from 2^n up, so that they go over the parities of n
// wires alone.
fn same_coefficients(wires: Wires, w: &[Weight; TABLE_BYTES], v: &[Weight; TABLE_BYTES]) -> bool
    requires { SoundWeights parities wires.count w.now × SoundWeights parities wires.count v.now }
    ensures { Decides result (SameCoefficients wires.count w.now v.now) }
{
    let mut room = [0; TABLE_BYTES];
    none_tells(difference_sums(wires, w, v, &mut room))
}

// Whether no sum tells the weights apart: at one wire that of l, at two that of q, at three that of c.
fn none_tells(sums: &[Weight]) -> bool
    requires { length sums.now ≤ parities }
    ensures { Decides result (NoneTells sums.now) }
{
    for (p, &sum) in sums.iter().enumerate() {
        if sum % modulus(wires_of(p as Parity)) != 0 {
            return false;
        }
    }
    true
}

// By the number of wires: l is compared modulo 8, q modulo 4, c modulo 2, and elsewhere nothing.
fn modulus(wires: u32) -> Weight
    ensures { result ≡ modulusOf wires }
{
    match wires {
        1 => 8,
        2 => 4,
        3 => 2,
        _ => 1,
    }
}
