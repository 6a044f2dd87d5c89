// One z with a wire t: the order of its columns, first one of each pair a, a ^ z, then those of the members without a partner. Pairs come
// first, since a set takes two members away for each pair that it has one of.
ghost use Rattle.std.specs.Prelude.{◌*◌, ◌<◌, length};
ghost use Rattle.columns.specs.OneZ.{TurnOf};

use crate::{OneZ, Search};
use circuit::limits::Parity;
use moves::marks::mark_at;

impl Search<'_> {
    // The member whose column has turn i, if there is one. Of a pair it is the one without wire t.
    pub fn turn(&self, one: OneZ, i: usize) -> Option<Parity>
        requires { i < 2 * length self.now.members.now }
        ensures { TurnOf self.now.marks.now self.now.members.now one.z one.t i result }
    {
        let places = self.members.len();
        if i < places {
            let y = self.members[i];
            if (y >> one.t) % 2 == 1 || mark_at(self.marks, y ^ one.z) == 0 {
                return None;
            }
            return Some(y);
        }
        let y = self.members[i - places];
        if mark_at(self.marks, y ^ one.z) == 1 {
            return None;
        }
        Some(y)
    }
}
