// The base placements of a rail, as rows.
ghost use Rattle.std.specs.Prelude.{◌≡◌, ◌<◌, ◌≤◌, length};
ghost use Rattle.rules.specs.Rail.{root};
ghost use Rattle.tables.specs.Tables.{CostsOf};
ghost use Rattle.placements.specs.Rows.{Put, BaseOf};

use super::Relation;
use tables::CostTable;

// Does the base place outlet a left of outlet b? (`CostsOf` ties the table to the rail that is asked about, which a table doesn't hold.)
fn goes_first(outlets: &[u64], costs: &CostTable, a: usize, b: usize) -> bool
    requires { (length outlets.now ≤ 32) × (a < length outlets.now) × (b < length outlets.now) × CostsOf outlets.now costs.now.pairs }
    ensures { result ≡ root outlets.now a b }
{
    let x = outlets[a];
    let y = outlets[b];
    if x == y {
        return a < b;
    }
    if x == 0 {
        return false;
    }
    if y == 0 {
        return true;
    }
    if costs.cost(a, b) != 0 {
        return false;
    }
    costs.cost(b, a) != 0
}

// a stands left of b, in the rows of both.
fn put(rows: &mut [u32; 64], a: usize, b: usize)
    requires { (a < 32) × (b < 32) }
    ensures { Put rows.old a b rows.new }
{
    rows[2 * a] |= 1 << b;
    rows[2 * b + 1] |= 1 << a;
}

impl Relation {
    // The base placements of a rail: of each two outlets one way, the other way or none.
    // They are put into rows, since a relation would be copied once more.
    pub fn base(outlets: &[u64], costs: &CostTable) -> Relation
        requires { (length outlets.now ≤ 32) × CostsOf outlets.now costs.now.pairs }
        ensures { BaseOf outlets.now result.rows }
    {
        let mut rows = [0; 64];
        for u in 0..outlets.len() {
            for v in 0..u {
                if goes_first(outlets, costs, u, v) {
                    put(&mut rows, u, v);
                } else if goes_first(outlets, costs, v, u) {
                    put(&mut rows, v, u);
                }
            }
        }
        Relation { rows }
    }
}
