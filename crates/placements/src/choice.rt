// The pair that a case takes: of the unplaced pairs whose two cross values differ the one with the smallest a, then the smallest b.
// And whether a placement leaves a pair.
ghost use Rattle.std.specs.Prelude.{◌&&◌, ◌≡◌, ℕ, ◌*◌, ◌<◌, ◌≤◌, eqb, get_or, IfSome, unwrap_or};
ghost use Rattle.rules.specs.Crossing.{bit};
ghost use Rattle.rules.specs.Walk.{unplaced};
ghost use Rattle.placements.specs.Rows.{reads, Rows, ChosenIn, PartnerIn, LeavesUnplaced};

use super::{Placement, Relation};
use tables::Tables;

impl Relation {
    // The outlets above a that are unplaced with it and whose cross values with it differ.
    fn open(&self, tables: &Tables, a: usize) -> u32
        requires { (a < 32) × Rows self.now.rows }
        ensures { (v : ℕ) → v < 32
            → eqb (bit result v) 1 ≡ (eqb (bit (get_or tables.now.masks.now a 0) v) 1 && unplaced (reads self.now.rows) a v) }
    {
        tables.differing(a) & !self.placed_with(a)
    }

    // The smallest a of such a pair, from a place on before which there is none.
    pub fn chosen(&self, tables: &Tables, from: usize) -> Option<usize>
        requires { (from ≤ tables.now.costs.now.outlets) × Rows self.now.rows }
        ensures first { let n = tables.now.costs.now.outlets in ChosenIn n tables.now.masks.now self.now.rows from (unwrap_or result n) }
        ensures below { IfSome result (λ a. a < tables.now.costs.now.outlets) }
    {
        for a in from..tables.costs.outlets {
            if self.open(tables, a) != 0 {
                return Some(a);
            }
        }
        None
    }

    // The smallest b beside a. (A number of 32 bits becomes a place by `as`: there is no From.)
    pub fn partner(&self, tables: &Tables, a: usize) -> usize
        requires { (a < 32) × Rows self.now.rows }
        ensures { PartnerIn tables.now.masks.now self.now.rows a result }
    {
        u32::trailing_zeros(self.open(tables, a)) as usize
    }

    // Does a placement leave an outlet unplaced with another? Of those that it does not touch some are looked at, so that only a yes says something.
    pub fn leaves_unplaced(&self, tables: &Tables, placement: Placement, from: usize) -> bool
        requires { Rows self.now.rows }
        ensures { LeavesUnplaced tables.now.costs.now.outlets self.now.rows placement.left placement.right result }
    {
        let touched = placement.left | placement.right;
        for u in from..tables.costs.outlets {
            if tables.above(0) & !(self.placed_with(u) | touched | 1 << u) != 0 {
                return true;
            }
        }
        false
    }
}
