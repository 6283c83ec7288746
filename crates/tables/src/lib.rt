// The tables that a search makes once: the cost of each pair of outlets, 32 to a row, and a mask an outlet.
#![tactic(auto)]

ghost use Rattle.std.specs.Prelude.{◌≡◌, ℕ, ◌+◌, ◌*◌, ◌<◌, ◌≤◌, ltb, length, get_or, replicate, slice_set};
ghost use Rattle.rules.specs.Pair.{Paired};
ghost use Rattle.tables.specs.Tables.{cost_in, Costs, CostsOf, Beside, Passed, differ, Masks};

// cross(b, a), by cross(a, b): the two add up to hoses against hoses, less the bins that both have.
fn other_way(a: u64, b: u64, ab: u64) -> u64
    requires { Paired a b ab }
    ensures { Paired b a result }
{
    hoses::at_outlet(a) * hoses::at_outlet(b) - hoses::at_outlet(a & b) - ab
}

// cross(a, a): each two hoses of the set once.
fn own(a: u64) -> u64
    ensures { Paired a a result }
{
    let at_a = hoses::at_outlet(a);
    (at_a * at_a - at_a) / 2
}

// What it costs, of every pair of a rail of at most 32 outlets, that the one stands left of the other. Fixed memory: room for 32 outlets, and how many
// there are. (That a rail has no more is asked by clauses: a struct for the slice would be made once, in a search, and taken apart in each function.)
#[derive(Drop)]
pub struct CostTable {
    // first, so that a cost lies where its number says, without a step past the count: the search looks up a dozen a case; and one row, since only `cost`
    // and `set` reckon a place in it
    pub pairs: [u16; 1024],
    pub outlets: usize,
    pub ghost few: { outlets ≤ 32 },
    pub ghost table: { Costs pairs },
}

impl CostTable {
    // The table of no outlets.
    pub fn none() -> Self
        ensures { result.outlets ≡ 0 }
    {
        CostTable {
            outlets: 0,
            pairs: [0; 1024],
        }
    }

    // Fills the table with the costs of a rail. It is filled where it stands: a copy would take as long as the search of a small rail.
    pub fn fill(&mut self, outlets: &[u64])
        requires { length outlets.now ≤ 32 }
        ensures pairs { CostsOf outlets.now self.new.pairs }
        ensures count { self.new.outlets ≡ length outlets.now }
    {
        self.outlets = outlets.len();
        for u in 0..outlets.len() {
            self.beside(outlets, u);
        }
    }

    // What it costs that u stands left of v.
    pub fn cost(&self, u: usize, v: usize) -> u64
        requires { (u < 32) × (v < 32) }
        ensures { result ≡ cost_in self.now.pairs u v }
    {
        u64::from(self.pairs[32 * u + v])
    }

    // Notes a cost. (It is cut to 16 bits by `as`, which is proved to lose nothing: try_from would bring a branch that never runs.)
    fn set(&mut self, u: usize, v: usize, cost: u64)
        requires { (u < 32) × (v < 32) × (cost ≤ 2016) }
        ensures written { self.new.pairs ≡ slice_set self.old.pairs (32 * u + v) cost }
        ensures count { self.new.outlets ≡ self.old.outlets }
    {
        self.pairs[32 * u + v] = cost as u16;
    }

    // The costs of outlet u beside itself and each outlet before it, both ways.
    fn beside(&mut self, outlets: &[u64], u: usize)
        requires { (length outlets.now ≤ 32) × (u < length outlets.now) }
        ensures costs { Beside outlets.now self.old.pairs u u self.new.pairs }
        ensures count { self.new.outlets ≡ self.old.outlets }
    {
        let a = outlets[u];
        self.set(u, u, own(a));
        for v in 0..u {
            let b = outlets[v];
            let ab = hoses::pair(a, b);
            self.set(u, v, ab);
            self.set(v, u, other_way(a, b, ab));
        }
    }

    // The mask of each outlet, into rows of zeros: they are filled where they stand, as the costs are.
    pub fn masks(&self, rows: &mut [u32; 32])
        requires { rows.old ≡ replicate 32 0 }
        ensures { Masks self.now.outlets (cost_in self.now.pairs) rows.new }
    {
        for u in 0..self.outlets {
            rows[u] = self.differing(u);
        }
    }

    // The outlets above u whose two cross values with u differ.
    fn differing(&self, u: usize) -> u32
        requires { u < self.now.outlets }
        ensures { Passed result self.now.outlets (differ (cost_in self.now.pairs) u) }
    {
        let mut mask: u32 = 0;
        for v in u + 1..self.outlets {
            if self.cost(u, v) != self.cost(v, u) {
                mask |= 1 << v;
            }
        }
        mask
    }
}

// The outlets above u, of n.
fn above(n: usize, u: usize) -> u32
    requires { (n ≤ 32) × (u < n) }
    ensures { Passed result n (λ v. ltb u v) }
{
    let all: u64 = 1 << n;
    let others: u64 = 2 << u;
    (all - others) as u32
}

// The costs of a rail, and of each of its outlets the mask of those that differ.
#[derive(Clone, Copy)]
pub struct Tables<'a> {
    pub costs: &'a CostTable,
    pub masks: &'a [u32; 32],
    pub ghost held: { Masks costs.now.outlets (cost_in costs.now.pairs) masks.now },
}

impl Tables<'_> {
    // The outlets above u whose two cross values with u differ.
    pub fn differing(&self, u: usize) -> u32
        requires { u < 32 }
        ensures { result ≡ get_or self.now.masks.now u 0 }
    {
        self.masks[u]
    }

    // The outlets above u.
    pub fn above(&self, u: usize) -> u32
        requires { u < self.now.costs.now.outlets }
        ensures { Passed result self.now.costs.now.outlets (λ v. ltb u v) }
    {
        above(self.costs.outlets, u)
    }
}
