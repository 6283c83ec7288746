// A rail tried: at each budget from 0 to the least crossings plus 1, what the search answers.
ghost use Rattle.std.specs.Prelude.{◌≡◌, ◌+◌, ◌≤◌, length};
ghost use Rattle.rules.specs.Walk.{F};

use crate::every::Costs;
use crate::tally::Tally;
use refusals::Refusal;

// What a byte of the room holds before a search; no outlet has it.
const BEFORE: u8 = 255;

// The bound on the cases, F(k + 3) - 1.
fn most_cases(k: u64) -> u64
    requires { k ≤ 30 }
    ensures { result + 1 ≡ F (k + 3) }
{
    let mut this = 2;
    let mut next = 3;
    for _ in 0..k {
        let sum = this + next;
        this = next;
        next = sum;
    }
    this - 1
}

// Is every byte as it was before the search?
fn as_before(room: &[u8]) -> bool {
    room.iter().all(|byte| *byte == BEFORE)
}

// A rail, its costs counted hose against hose, and the least crossings of any of its orders.
#[derive(Drop)]
struct Rail<'a> {
    bins: u64,
    outlets: &'a [u64],
    costs: Costs,
    least: u64,
    ghost few_outlets: { length outlets.now ≤ 6 },
}

impl<'a> Rail<'a> {
    fn of(bins: u64, outlets: &'a [u64]) -> Rail<'a>
        requires { (bins ≤ 64) × (length outlets.now ≤ 6) }
    {
        let costs = Costs::of(bins, outlets);
        let least = costs.least(outlets.len());
        Rail {
            bins,
            outlets,
            costs,
            least,
        }
    }

    // The last budget to try: the least crossings plus 1, but no budget above 30.
    fn last_budget(&self) -> u64
        ensures { result ≤ 30 }
    {
        self.least.min(29) + 1
    }

    // What a search answers at a budget: an order exactly if one is within it, and else that there is none.
    fn at_budget(&self, k: u64, tally: &mut Tally)
        requires { k ≤ 30 }
    {
        let within = self.least <= k;
        let mut room = [BEFORE; 8];
        tally.searches.add(1);
        match search::search(self.bins, self.outlets, k, &mut room) {
            Ok(found) => {
                tally.answers.add_if(!within);
                tally.cases.add_if(most_cases(k) < found.cases);
                self.yes(k, found.crossings, &room, tally);
            }
            Err(refusal) => {
                let no_order = matches!(&refusal, Refusal::NoOrder { .. });
                tally.answers.add_if(within || !no_order);
                tally.cases.add_if(most_cases(k) < refusal.cases());
                tally.rooms.add_if(!as_before(&room));
            }
        }
    }

    // A yes: the room begins with an order of the rail, the crossings are that order's and within the budget, and nothing else is written.
    fn yes(&self, k: u64, crossings: u64, room: &[u8; 8], tally: &mut Tally) {
        let (order, beside) = room.split_at(self.outlets.len());
        let count = orders::count(self.bins, self.outlets, order).ok();
        let counted_here = self.costs.crossings(order);
        let wrong = count != Some(crossings) || counted_here != crossings;
        tally.orders.add_if(count.is_none());
        tally.counts.add_if(wrong);
        tally.budgets.add_if(k < crossings);
        tally.rooms.add_if(!as_before(beside));
    }
}

pub fn try_rail(bins: u64, outlets: &[u64], tally: &mut Tally)
    requires { (bins ≤ 64) × (length outlets.now ≤ 6) }
{
    let rail = Rail::of(bins, outlets);
    tally.rails.add(1);
    rail.costs.wrong_pairs(outlets, &mut tally.pairs);
    for k in 0..=rail.last_budget() {
        rail.at_budget(k, tally);
    }
}
