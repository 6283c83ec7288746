// The search: an order of the outlets within the budget of crossings, or that there is none, and the cases that its walk opened.
#![tactic(auto)]

ghost use Rattle.std.specs.Prelude.{◌≡◌, ◌≤◌, length};
ghost use Rattle.rules.specs.Rail.{budget};
ghost use Rattle.rules.specs.Search.{Searched};
ghost use Rattle.tables.specs.Tables.{cost_in};
ghost use Rattle.placements.specs.Rows.{reads};
ghost use Rattle.search.specs.Walked.{Walked, Settled, HandedOver};
ghost use Rattle.search.specs.Told.{search_told};

use placements::Relation;
use refusals::Refusal;
use tables::{CostTable, Tables};

// An order was found and stands in the room: its crossings, and the cases that were opened.
#[derive(Clone, Copy)]
pub struct Found {
    pub crossings: u64,
    pub cases: u64,
}

// Check order 1, 2, 3, 4, 5, then the walk. The order stands in the first bytes of the room; a refused call writes nothing.
pub fn search(bins: u64, outlets: &[u64], budget: u64, room: &mut [u8]) -> Result<Found, Refusal>
    ensures { Searched bins outlets.now budget room.old (search_told result room.new) }
{
    jobs::check(bins, outlets, budget)?;
    if room.len() < outlets.len() {
        return Err(Refusal::RoomTooShort);
    }
    walk(outlets, to_spend(budget), room)
}

// A budget that is not written is searched as 0.
fn to_spend(k: u64) -> u64
    ensures { result ≡ budget k }
{
    if k == jobs::NOT_WRITTEN { 0 } else { k }
}

// The walk over a rail of at most 32 outlets, with k crossings to spend.
fn walk(outlets: &[u64], k: u64, room: &mut [u8]) -> Result<Found, Refusal>
    requires { (length outlets.now ≤ 32) × (k ≤ 30) × (length outlets.now ≤ length room.old) }
    ensures { Walked outlets.now k room.old (search_told result room.new) }
{
    let mut costs = CostTable::none();
    costs.fill(outlets);
    let base = Relation::base(outlets, &costs);
    let spent = base.spent(&costs);
    if k < spent {
        return Err(Refusal::NoOrder { cases: 0 });
    }
    let mut masks = [0; 32];
    costs.masks(&mut masks);
    let tables = Tables {
        costs: &costs,
        masks: &masks,
    };
    let mut relation = Relation { rows: [0; 64] };
    let opened = cases::open_case(&tables, &base, k - spent, 0, &mut relation);
    if !opened.found {
        return Err(Refusal::NoOrder {
            cases: opened.cases,
        });
    }
    Ok(Found {
        crossings: hand_over(&tables, &relation, room),
        cases: opened.cases,
    })
}

// Writes the order that a relation makes into the front of the room, and answers its crossings: what was spent, and the equal costs.
fn hand_over(tables: &Tables, relation: &Relation, room: &mut [u8]) -> u64
    requires { Settled tables.now relation.now.rows × (tables.now.costs.now.outlets ≤ length room.old) }
    ensures { HandedOver tables.now.costs.now.outlets (cost_in tables.now.costs.now.pairs) (reads relation.now.rows) room.old result room.new }
{
    let crossings = relation.spent(tables.costs) + relation.equal_costs(tables, 30);
    relation.order(tables.costs.outlets, room);
    crossings
}
