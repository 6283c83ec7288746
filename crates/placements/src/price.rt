// What placements cost, by the table of costs.
ghost use Rattle.std.specs.Prelude.{◌≡◌, ℕ, ◌*◌, ◌<◌, ◌≤◌};
ghost use Rattle.rules.specs.Sum.{sum};
ghost use Rattle.rules.specs.Crossing.{bit};
ghost use Rattle.tables.specs.Tables.{cost_in};
ghost use Rattle.placements.specs.Rows.{Rows, Unplaced, Within, Brings, Priced, Spent, EqualWithin};

use super::closure::Side;
use super::{Placement, Relation};
use hoses::Ones;
use tables::{CostTable, Tables};

// What u pays for standing left of the outlets in `which`.
fn row(costs: &CostTable, u: usize, which: u32) -> u64
    requires { u < 32 }
    ensures { (result ≡ sum (λ v. bit which v * cost_in costs.now.pairs u v) 32) × (result ≤ 64512) }
{
    let mut paid = 0;
    for v in Ones::of(u64::from(which)) {
        paid += costs.cost(u, v);
    }
    paid
}

impl Relation {
    // What it comes to that a is placed left of b. It takes from the budget the costs of all pairs that this places.
    pub fn price_of(&self, costs: &CostTable, a: usize, b: usize) -> Placement
        requires { Rows self.now.rows × Unplaced self.now.rows a b }
        ensures { Brings self.now.rows a b result.left result.right × Priced self.now.rows (cost_in costs.now.pairs) a b result.cost }
    {
        let right = self.new_beside(Side::Right, b, a);
        let left = self.new_beside(Side::Left, a, b);
        let mut cost = 0;
        for u in Ones::of(u64::from(left)) {
            cost += row(costs, u, right & !self.right_of(u));
        }
        Placement { cost, left, right }
    }

    // What all placements have cost.
    pub fn spent(&self, costs: &CostTable) -> u64
        requires { Rows self.now.rows × Within costs.now.outlets self.now.rows }
        ensures { Spent costs.now.outlets self.now.rows (cost_in costs.now.pairs) result }
    {
        let mut paid = 0;
        for u in 0..costs.outlets {
            paid += row(costs, u, self.right_of(u));
        }
        paid
    }

    // What the unplaced pairs cost, the smaller number left. Where that is above `most`, no more is looked at than shows it.
    pub fn equal_costs(&self, tables: &Tables, most: u64) -> u64
        requires { Rows self.now.rows }
        ensures { EqualWithin tables.now.costs.now.outlets self.now.rows (cost_in tables.now.costs.now.pairs) most result }
    {
        let mut paid = 0;
        for u in 0..tables.costs.outlets {
            paid += row(tables.costs, u, tables.above(u) & !self.placed_with(u));
            if most < paid {
                return paid;
            }
        }
        paid
    }
}
