// An order whose entries are outlets of the rail, and its crossings.
ghost use Rattle.std.specs.Prelude.{◌≡◌, ◌+◌, ◌≤◌, ◌<◌, length, get_or, drop};
ghost use Rattle.rules.specs.Crossing.{right_of, crossings};
ghost use Rattle.rules.specs.Rail.{cost};
ghost use Rattle.orders.specs.Entries.{OnRail};

#[derive(Clone, Copy)]
pub struct OnRail<'a> {
    pub outlets: &'a [u64],
    pub order: &'a [u8],
    ghost few: { length order.now ≤ 32 },
    ghost on_rail: { OnRail (length outlets.now) order.now },
}

impl<'a> OnRail<'a> {
    // The set of the outlet that stands at a place.
    fn bins_at(self, place: usize) -> u64
        requires { place < length self.order.now }
        ensures { result ≡ get_or self.entry.outlets.now (get_or self.entry.order.now place 0) 0 }
    {
        self.outlets[usize::from(self.order[place])]
    }

    // What the outlet at a place pays for standing left of all that follow it.
    fn right_of(self, place: usize) -> u64
        requires { place < length self.order.now }
        ensures { result ≡ right_of (cost self.entry.outlets.now) (get_or self.entry.order.now place 0) (drop (place + 1) self.entry.order.now) }
    {
        let left = self.bins_at(place);
        let mut sum: u64 = 0;
        for at in place + 1..self.order.len() {
            sum += hoses::pair(left, self.bins_at(at));
        }
        sum
    }

    // An order's crossings are the sum of cross(a, b) over every pair with a left of b.
    pub fn crossings(self) -> u64
        ensures { result ≡ crossings (cost self.entry.outlets.now) self.entry.order.now }
    {
        let mut sum: u64 = 0;
        for place in 0..self.order.len() {
            sum += self.right_of(place);
        }
        sum
    }
}
