// The placements: a relation on at most 32 outlets, held as rows of bits both ways and handed on whole.
// Row 2u has the outlets that stand right of u, row 2u + 1 those that stand left of it.
#![tactic(auto)]

mod base;
mod choice;
mod closure;
mod price;
mod stand;

ghost use Rattle.std.specs.Prelude.{◌≡◌, ℕ, ◌+◌, ◌*◌, ◌<◌, length, get_or};
ghost use Rattle.std.specs.Int.Bits.{bit_or};
ghost use Rattle.placements.specs.Rows.{reads, Rows, Brings, PlacedIn};

use closure::Side;

// That the rows hold a relation (`Rows`) is said in clauses, and kept by no type: `place` answers for any placement, and `of` for any rows.
#[derive(Clone, Copy)]
pub struct Relation {
    // One array for both sides: what holds of a side is said once, by the side's number; two rows in a struct would have it said of each.
    pub rows: [u32; 64],
}

// A placement that may be made: what it takes from the budget, those who come to stand left of somebody new by it, and those who come to stand right
// of somebody new.
#[derive(Clone, Copy)]
pub struct Placement {
    pub cost: u64,
    pub left: u32,
    pub right: u32,
}

impl Relation {
    // The relation that rows hold. They are copied as two halves, each of which is a few moves of the machine's: the derived copy was tried, and is a
    // call that seven rows of the speed test miss their bars by.
    pub fn of(rows: &[u32; 64]) -> Relation
        ensures { result.rows ≡ rows.now }
    {
        let mut copy = [0; 64];
        for i in 0..32 {
            copy[i] = rows[i];
            copy[i + 32] = rows[i + 32];
        }
        Relation { rows: copy }
    }

    // Those that stand right of u. (Named for its side, as the next one: a `Side` is handed on only where either is meant.)
    fn right_of(&self, u: usize) -> u32
        requires { u < 32 }
        ensures { result ≡ get_or self.now.rows (2 * u) 0 }
    {
        self.rows[2 * u]
    }

    // Those that stand left of u.
    fn left_of(&self, u: usize) -> u32
        requires { u < 32 }
        ensures { result ≡ get_or self.now.rows (2 * u + 1) 0 }
    {
        self.rows[2 * u + 1]
    }

    // Those that are placed with u, on either side.
    fn placed_with(&self, u: usize) -> u32
        requires { u < 32 }
        ensures { result ≡ bit_or (get_or self.now.rows (2 * u) 0) (get_or self.now.rows (2 * u + 1) 0) }
    {
        self.right_of(u) | self.left_of(u)
    }

    // Is a placed left of b?
    pub fn placed(self, a: usize, b: usize) -> bool
        requires { (a < 32) × (b < 32) }
        ensures { result ≡ reads self.rows a b }
    {
        self.right_of(a) >> b & 1 == 1
    }

    // a is placed left of b, with all that follows by transitivity.
    pub fn place(mut self, placement: Placement) -> Relation
        requires { Rows self.rows }
        ensures { (a b : ℕ) → Brings self.rows a b placement.left placement.right → PlacedIn self.rows a b result.rows }
    {
        self.grow(Side::Right, placement.left, placement.right);
        self.grow(Side::Left, placement.right, placement.left);
        self
    }
}
