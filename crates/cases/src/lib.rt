// The cases of the walk: opening a case, trying the two placements of the pair that it takes, and the trial of one call one another. The rest falls
// with each case.
// Tables, relation, rest and place are handed on one by one: held in a struct, each next relation is copied once more, which misses bars on speed.
#![tactic(auto)]

ghost use Rattle.std.specs.Prelude.{ℕ, ◌≡◌, ◌≤◌, ◌<◌, false, MatchOption};
ghost use Rattle.rules.specs.Walk.{chosen};
ghost use Rattle.tables.specs.Tables.{cost_in};
ghost use Rattle.placements.specs.Rows.{reads, Rows, Unplaced};
ghost use Rattle.cases.specs.Case.{outlets_of, cost_of, Case, CaseOf, Cheaper, PriceWithin, PriceBeyond, Paying, LeafIn};
ghost use Rattle.cases.specs.Case.{Opened, Settled, Tried, Trial};

use placements::{Placement, Relation};
use tables::{CostTable, Tables};

// What is answered of a case or of a way to go on from it: the cases opened, which a yes and a no tell alike, and whether an order was found. The
// relation that makes it then stands in the room.
#[derive(Clone, Copy)]
pub struct Outcome {
    pub cases: u64,
    pub found: bool,
}

impl Outcome {
    // So many cases, and no order.
    fn nothing(cases: u64) -> Self
        ensures cases { result.cases ≡ cases }
        ensures none { result.found ≡ false }
    {
        Self {
            cases,
            found: false,
        }
    }
}

// Opens a case: it takes the first unplaced pair whose cross values differ, the cheaper way first, or settles.
#[cycle(open_case_try_both)]
pub fn open_case(
    tables: &Tables,
    relation: &Relation,
    rest: u64,
    from: usize,
    room: &mut Relation,
) -> Outcome
    requires { Case tables.now relation.now.rows from rest }
    ensures { Opened tables.now relation.now.rows rest result.cases result.found room.new.rows }
{
    let Some(a) = relation.chosen(tables, from) else {
        return settle(tables, relation, rest, room);
    };
    let way = Way::cheaper(tables.costs, a, relation.partner(tables, a));
    try_both(tables, relation, rest, a, way, room)
}

// Tries the two placements of the pair that a case takes: the one way, and if that finds nothing the other, from the case as it was opened.
#[cycle(open_case_try_both)]
fn try_both(
    tables: &Tables,
    relation: &Relation,
    rest: u64,
    from: usize,
    way: Way,
    room: &mut Relation,
) -> Outcome
    requires { CaseOf tables.now relation.now.rows from way.left way.right rest }
    ensures { Tried tables.now relation.now.rows way.left way.right rest result.cases result.found room.new.rows }
{
    let mut opened = go(tables, relation, rest, from, way, room);
    // the case itself
    opened.cases += 1;
    if opened.found {
        return opened;
    }
    let other = go(tables, relation, rest, from, way.turned(), room);
    opened.cases += other.cases;
    opened.found = other.found;
    opened
}

// Goes one way, where that takes no more than the rest. Inlined at both calls: as calls they miss bars on speed.
#[cycle(open_case_try_both)]
#[inline(always)]
fn go(
    tables: &Tables,
    relation: &Relation,
    rest: u64,
    from: usize,
    way: Way,
    room: &mut Relation,
) -> Outcome
    requires { CaseOf tables.now relation.now.rows from way.left way.right rest }
    ensures { Trial tables.now relation.now.rows way.left way.right rest result.cases result.found room.new.rows }
{
    let Some(placement) = price(tables.costs, relation, rest, way) else {
        return Outcome::nothing(0);
    };
    if is_leaf(tables, relation, rest, from, placement) {
        return Outcome::nothing(1);
    }
    trial(tables, relation, rest, from, placement, room)
}

// Opens the case that a placement within the rest leaves. A call of its own, so that the relations that are handed on by value here lie on the stack
// once a case, and take nothing of a trial that opens none.
#[cycle(open_case_try_both)]
#[inline(never)]
fn trial(
    tables: &Tables,
    relation: &Relation,
    rest: u64,
    from: usize,
    placement: Placement,
    room: &mut Relation,
) -> Outcome
    requires { (a : ℕ) × (b : ℕ) × Paying tables.now relation.now.rows from a b rest placement.cost placement.left placement.right }
    ensures { (a b : ℕ) → Paying tables.now relation.now.rows from a b rest placement.cost placement.left placement.right
        → Trial tables.now relation.now.rows a b rest result.cases result.found room.new.rows }
{
    let next = Relation::of(&relation.rows).place(placement);
    open_case(tables, &next, rest - placement.cost, from, room)
}

// Does the placement open a case that opens no other and finds nothing? It does where nothing is left to spend and a pair is left, since every
// unplaced pair costs something.
fn is_leaf(
    tables: &Tables,
    relation: &Relation,
    rest: u64,
    from: usize,
    placement: Placement,
) -> bool
    requires { Rows relation.now.rows }
    ensures { LeafIn tables.now relation.now.rows rest placement.cost placement.left placement.right result }
{
    rest <= placement.cost && relation.leaves_unplaced(tables, placement, from)
}

// With no such pair, a case succeeds where the costs of the unplaced pairs are within the rest.
fn settle(tables: &Tables, relation: &Relation, rest: u64, room: &mut Relation) -> Outcome
    requires { Case tables.now relation.now.rows 0 rest
        × (chosen (outlets_of tables.now) (cost_of tables.now) (reads relation.now.rows) ≡ outlets_of tables.now) }
    ensures { Settled tables.now relation.now.rows rest result.cases result.found room.new.rows }
{
    let found = relation.equal_costs(tables, rest) <= rest;
    if found {
        *room = *relation;
    }
    Outcome { cases: 1, found }
}

// What going one way comes to, where that takes no more than the rest. Where the pair alone takes more, no more is looked at.
fn price(costs: &CostTable, relation: &Relation, rest: u64, way: Way) -> Option<Placement>
    requires { Rows relation.now.rows × Unplaced relation.now.rows way.left way.right }
    ensures { MatchOption result
        (PriceBeyond costs.now.pairs relation.now.rows way.left way.right rest)
        (λ p. PriceWithin costs.now.pairs relation.now.rows way.left way.right rest p.cost p.left p.right) }
{
    if rest < costs.cost(way.left, way.right) {
        return None;
    }
    let placement = relation.price_of(costs, way.left, way.right);
    (placement.cost <= rest).then_some(placement)
}

// One of the two ways in which a pair can stand.
#[derive(Clone, Copy)]
struct Way {
    left: usize,
    right: usize,
}

impl Way {
    // The cheaper way of the pair a, b; b left of a where they cost the same.
    fn cheaper(costs: &CostTable, a: usize, b: usize) -> Self
        requires { (a < 32) × (b < 32) }
        ensures { Cheaper (cost_in costs.now.pairs) a b result.left result.right }
    {
        if costs.cost(a, b) < costs.cost(b, a) {
            Self { left: a, right: b }
        } else {
            Self { left: b, right: a }
        }
    }

    // The other way.
    fn turned(self) -> Self
        ensures left { result.left ≡ self.right }
        ensures right { result.right ≡ self.left }
    {
        Self {
            left: self.right,
            right: self.left,
        }
    }
}
