// An order in bytes: is it one of this rail, and how many crossings has it? `count` is the operation; what stands above it are its parts.
#![tactic(auto)]

mod on_rail;

ghost use Rattle.std.specs.Prelude.{◌≡◌, ◌<◌, length, MatchOption};
ghost use Rattle.rules.specs.Numbers.{not_an_order};
ghost use Rattle.rules.specs.Count.{count_checks, Counted};
ghost use Rattle.refusals.specs.Numbers.{number_told};
ghost use Rattle.orders.specs.Entries.{first_bad};
ghost use Rattle.orders.specs.Told.{count_told};

use on_rail::OnRail;
use refusals::Refusal;

// The place of the first outlet that isn't on the rail or repeats, which is where the check stops. Two loops and a label: docs/CONTRACTS.md has the form.
pub fn first_bad(outlets: usize, order: &[u8]) -> Option<usize>
    ensures { MatchOption result
        (first_bad outlets order.now ≡ length order.now)
        (λ place. (place ≡ first_bad outlets order.now) × (place < length order.now)) }
{
    let mut bad = None;
    'places: for place in 0..order.len() {
        let outlet = order[place];
        if outlets <= usize::from(outlet) {
            bad = Some(place);
            break 'places;
        }
        for earlier in 0..place {
            if order[earlier] == outlet {
                bad = Some(place);
                break 'places;
            }
        }
    }
    bad
}

// 7: not an order: wrong length, an outlet not on the rail, or one repeated
pub fn not_an_order(outlets: usize, order: &[u8]) -> bool
    ensures { result ≡ not_an_order outlets order.now }
{
    if order.len() != outlets {
        return true;
    }
    first_bad(outlets, order).is_some()
}

// The checks of an order of a rail, in the order 1, 2, 4, 7.
pub fn check(bins: u64, outlets: &[u64], order: &[u8]) -> Result<(), Refusal>
    ensures { number_told result ≡ count_checks bins outlets.now order.now }
{
    jobs::check_rail(bins, outlets)?;
    if not_an_order(outlets.len(), order) {
        return Err(Refusal::NotAnOrder);
    }
    Ok(())
}

// The crossings of an order of the rail.
pub fn count(bins: u64, outlets: &[u64], order: &[u8]) -> Result<u64, Refusal>
    ensures { Counted bins outlets.now order.now (count_told result) }
{
    check(bins, outlets, order)?;
    Ok(OnRail { outlets, order }.crossings())
}
