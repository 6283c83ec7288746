// What a placement brings with it. In a relation that is closed under transitivity only those who do not stand left of b yet can come to stand
// left of anybody new, and only those who do not stand right of a yet can come to stand right of anybody new.
ghost use Rattle.std.specs.Prelude.{not, ◌&&◌, ◌||◌, ◌≡◌, ℕ, ◌+◌, ◌*◌, ◌<◌, eqb, length};
ghost use Rattle.rules.specs.Crossing.{bit};
ghost use Rattle.placements.specs.Rows.{Rows, Grown};
ghost use Rattle.placements.specs.Sides.{side_number, stands_on};

use super::Relation;
use hoses::Ones;

// A side of an outlet.
#[derive(Clone, Copy)]
pub(crate) enum Side {
    Right,
    Left,
}

impl Side {
    // The place of the row of those on this side of u.
    pub(crate) fn row(self, u: usize) -> usize
        requires { u < 32 }
        ensures { result ≡ 2 * u + side_number self }
    {
        match self {
            Side::Right => 2 * u,
            Side::Left => 2 * u + 1,
        }
    }
}

impl Relation {
    // u and those on a side of it, but for those that stand on that side of v already.
    pub(crate) fn new_beside(&self, side: Side, u: usize, v: usize) -> u32
        requires { (u < 32) × (v < 32) × Rows self.now.rows }
        ensures { (w : ℕ) → eqb (bit result w) 1 ≡ ((eqb w u || stands_on side self.now.rows w u) && not (stands_on side self.now.rows w v)) }
    {
        (self.rows[side.row(u)] | 1 << u) & !self.rows[side.row(v)]
    }

    // Adds the outlets in `more` to a side of those in `which`.
    pub(crate) fn grow(&mut self, side: Side, which: u32, more: u32)
        ensures { Grown self.old.rows which more (side_number side) self.new.rows }
    {
        for u in Ones::of(u64::from(which)) {
            self.rows[side.row(u)] |= more;
        }
    }
}
