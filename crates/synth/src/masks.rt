// The masks by which rows are solved for: mask i names the wires whose parities make row i. Internal.
// That a wire is below max_wires stands in four clauses and in no type: it is a loop's number, and a struct would be made anew each turn.
ghost use Rattle.std.specs.Prelude.{◌↔◌, ◌≡◌, ◌<◌, ◌≤◌, IsTrue, MatchOption};
ghost use Rattle.circuit.specs.Limits.{max_wires};
ghost use Rattle.gf2.specs.Bit.{bit};
ghost use Rattle.written.specs.Writing.{lack, pivot, recount};
ghost use Rattle.synth.specs.Storing.{Stepped};

use circuit::limits::{MAX_WIRES, Parity};
use circuit::parity::unit;
use circuit::wires::Wires;

// One row: CNOTs from the wires of `lack` into its pivot b, then from the wires of `surplus` into its wire r.
#[derive(Clone, Copy, Debug, PartialEq, Eq)]
pub struct Step {
    pub r: usize,
    pub b: usize,
    pub lack: Parity,
    pub surplus: Parity,
}

// The row of wire r, with pivot b; the masks become those after its CNOTs.
pub fn row_step(masks: &mut [Parity; MAX_WIRES], r: usize, b: usize) -> Step
    requires { (r < max_wires) × (b < max_wires) }
    ensures { Stepped r b masks.old masks.new result }
{
    let lack = lack_of(r, masks[r]);
    recount_masks(masks, b, lack);
    let surplus = masks[r] ^ unit(r);
    recount_masks(masks, r, surplus);
    Step {
        r,
        b,
        lack,
        surplus,
    }
}

// The lowest wire from r on that m names, if there is one.
pub fn pivot_of(wires: Wires, r: usize, m: Parity) -> Option<usize>
    requires { r ≤ wires.count }
    ensures { MatchOption result (wires.count ≤ pivot wires.count r m) (λ b. (b < wires.count) × (b ≡ pivot wires.count r m)) }
{
    (r..wires.count).find(|&b| names(m, b))
}

// What mask m lacks of wire r.
fn lack_of(r: usize, m: Parity) -> Parity
    requires { r < max_wires }
    ensures { result ≡ lack r m }
{
    if names(m, r) { 0 } else { unit(r) }
}

// The masks after CNOTs into wire t from the wires of q.
fn recount_masks(masks: &mut [Parity; MAX_WIRES], t: usize, q: Parity)
    requires { t < max_wires }
    ensures { masks.new ≡ recount t q masks.old }
{
    for m in masks.iter_mut() {
        if names(*m, t) {
            *m ^= q;
        }
    }
}

// Whether mask m names wire b.
fn names(m: Parity, b: usize) -> bool
    requires { b < max_wires }
    ensures { IsTrue result ↔ (bit m b ≡ 1) }
{
    (m >> b) % 2 == 1
}
