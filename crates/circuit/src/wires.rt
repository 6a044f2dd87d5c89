// A wire count that is within the limit. Who has one need not ask again. It does not say that there is a wire, since most of what takes one
// asks for none: that stands in the clauses of the others. That a wire is one of so many stands in clauses too: it is a loop's number, a
// byte of a gate or a place in a list, and a struct would be made anew at each.
ghost use Rattle.std.specs.Prelude.{◌≡◌, ◌^◌, ◌≤◌};
ghost use Rattle.circuit.specs.Limits.{max_wires, parities};

#[derive(Clone, Copy, Debug, PartialEq, Eq)]
pub struct Wires {
    pub count: usize,
    pub ghost few: { count ≤ max_wires },
}

impl Wires {
    // How many parities there are of so many wires.
    pub fn parities(self) -> usize
        ensures { (result ≡ 2 ^ self.count) × (result ≤ parities) }
    {
        1 << self.count
    }
}
