// Whether the columns for a z depend on each other at all: looked for before what is needed to name a set. The columns of the members
// without wire t are the same for all z with that wire, so they are eliminated once for those whose highest wire it is.
ghost use Rattle.std.specs.Prelude.{None, Some, true, ℕ, ◌≢◌, ◌≡◌, ◌<◌, ◌^◌};
ghost use Rattle.circuit.specs.Limits.{max_wires, parities};
ghost use Rattle.columns.specs.Halves.{AllOpened, BesideSingle, HalfIn, HalfStays, Keeps};
ghost use Rattle.columns.specs.OneZ.{HasPair, NoneWith, ToAsk};
ghost use Rattle.gf2.specs.Bit.{bit};
ghost use Rattle.gf2.specs.Tests.{Decides};

use crate::table::Products;
use crate::{OneZ, Search};
use circuit::limits::Parity;
use circuit::parity::unit;
use echelon::basis::Slots;
use moves::marks::mark_at;

// The slots for the members without a wire, and, where it is known that none of their columns depends on the others, the mask of these.
// Which members and which wire, `HalfIn` says in the clauses. As an invariant it would want both held here, and the same clauses would then
// ask that they are those of the search: no plainer. `for_z` takes what it needs of a search, since a `Search` would ask for marks too.
#[derive(Clone, Copy)]
pub struct Half {
    slots: Slots,
    pub apart: Option<u64>,
}

impl Half {
    pub fn new() -> Self
        ensures { result.apart ≡ None }
    {
        Half {
            slots: Slots::new(),
            apart: None,
        }
    }

    // The half for z and its highest wire t: eliminated for the first z with this wire, and for the others as it was.
    pub fn for_z(&mut self, products: &Products, ys: &[Parity], one: OneZ, most: usize)
        requires { one.z ≢ 2 ^ one.t → HalfIn ys.now one.t self.old }
        ensures { HalfIn ys.now one.t self.new }
    {
        if one.z == unit(one.t) {
            self.eliminate(products, ys, one.t, most);
        }
    }

    // Eliminates the members without wire t. Where there are more than `most` members it looks at none: at most `most` columns can be
    // apart, so those of so many members seldom are.
    fn eliminate(&mut self, products: &Products, ys: &[Parity], t: usize, most: usize)
        requires { t < max_wires }
        ensures { HalfIn ys.now t self.new }
    {
        self.apart = None;
        if ys.len() > most {
            return;
        }
        self.slots.clear();
        if products.all_open(ys, &mut self.slots, |y| ((y >> t) % 2 == 0).then_some(y)) {
            self.apart = Some(self.slots.filled);
        }
    }
}

impl Search<'_> {
    // How many turns there are: two for each member; or none, where z is no xor of two, or all columns are apart.
    pub fn to_ask(&self, one: OneZ, half: &mut Half) -> usize
        requires names { bit one.z one.t ≡ 1 }
        requires half_in { HalfIn self.now.members.now one.t half.old }
        ensures asked { ToAsk self.now.marks.now self.now.members.now one.z result }
        ensures half_stays { HalfStays half.old half.new }
    {
        if !self.has_pair(one.z) || self.all_apart(one, half) {
            return 0;
        }
        2 * self.members.len()
    }

    // Whether z is the xor of two members.
    fn has_pair(&self, z: Parity) -> bool
        requires { z < parities }
        ensures { Decides result (HasPair self.now.marks.now z) }
    {
        for &y in self.members {
            if mark_at(self.marks, y ^ z) == 1 {
                return true;
            }
        }
        false
    }

    // True only where all columns for z are apart, so that no move with z is legal: those of the singles with wire t go in after the half
    // without it, which has the columns of the pairs too. The slots of the half are as they were.
    fn all_apart(&self, one: OneZ, half: &mut Half) -> bool
        requires names { bit one.z one.t ≡ 1 }
        requires half_in { HalfIn self.now.members.now one.t half.old }
        ensures apart { result ≡ true → NoneWith self.now.marks.now one.z }
        ensures half_stays { HalfStays half.old half.new }
    {
        let Some(without) = half.apart else {
            return false;
        };
        half.slots.back_to(without);
        self.products.all_open(self.members, &mut half.slots, |y| {
            self.beside_single(one, y)
        })
    }

    // The partner of a member y with wire t, where it is no member: the entry of the partner is the column of y.
    #[tactic(auto, unfolding(gf2::specs::Bit::bit))]
    fn beside_single(&self, one: OneZ, y: Parity) -> Option<Parity>
        requires { y < parities }
        ensures { BesideSingle self.now.marks.now one.z one.t y result }
    {
        let partner = y ^ one.z;
        if (y >> one.t) % 2 == 1 && mark_at(self.marks, partner) == 0 {
            Some(partner)
        } else {
            None
        }
    }
}

impl Products {
    // Puts in the entry of each parity that `pick` gives for one of these. True where each has opened a slot, so that none depends on
    // the others; it ends at the first that does.
    fn all_open<F: Fn(Parity) -> Option<Parity>>(
        &self,
        ys: &[Parity],
        slots: &mut Slots,
        pick: F,
    ) -> bool
        requires callable { (y : ℕ) → y < parities → F.pre pick y }
        requires picks { (y p : ℕ) → y < parities → F.post pick y (Some p) → p < parities }
        ensures all { result ≡ true → AllOpened (F.post pick) ys.now slots.old slots.new }
        ensures keeps { Keeps slots.old slots.new }
    {
        for &y in ys {
            if let Some(p) = pick(y) {
                if !slots.grow(self.entry(p)) {
                    return false;
                }
            }
        }
        true
    }
}
