// The checks of a job, once for every operation that takes one: 1 (bins), 2 (outlets), 3 (budget) and 4 (a hose from no bin of the row).
// Each refuses by the number that the rules' definition of its check says. Bins, outlets and budget come one by one, as the C face has them: nothing is
// known of them yet that a struct could keep.
#![tactic(auto)]

ghost use Rattle.std.specs.Prelude.{◌≡◌, IfErr};
ghost use Rattle.rules.specs.Numbers.{bad_budget, stray_hoses, job_checks};
ghost use Rattle.rules.specs.Count.{rail_checks};
ghost use Rattle.refusals.specs.Numbers.{number_told, cases_of};

use refusals::Refusal;

pub const MOST_BINS: u64 = 64;

pub const MOST_OUTLETS: usize = 32;

pub const MOST_BUDGET: u64 = 30;

// stands for a budget that is not written: a number and no option, since calls and sheets have it so, and write it back
pub const NOT_WRITTEN: u64 = 255;

// 3: budget above 30, other than 255 for "not written"
#[tactic(auto, unfolding(rules::specs::Numbers::bad_budget))]
pub fn bad_budget(budget: u64) -> bool
    ensures { result ≡ bad_budget budget }
{
    MOST_BUDGET < budget && budget != NOT_WRITTEN
}

// 4: a hose from a bin number not below the bins. The outlets' bins are gathered in one set, and the bins shifted out of it: what is left is stray.
pub fn stray_hoses(bins: u64, outlets: &[u64]) -> bool
    ensures { result ≡ stray_hoses bins outlets.now }
{
    if MOST_BINS <= bins {
        return false;
    }
    let mut all: u64 = 0;
    for set in outlets {
        all |= *set;
    }
    all >> bins != 0
}

// The checks of a job, in the order 1, 2, 3, 4.
#[tactic(auto, unfolding(rules::specs::Numbers::first_of, rules::specs::Numbers::job_checks, rules::specs::Numbers::too_many_bins, rules::specs::Numbers::too_many_outlets))]
pub fn check(bins: u64, outlets: &[u64], budget: u64) -> Result<(), Refusal>
    ensures number { number_told result ≡ job_checks bins outlets.now budget }
    ensures no_cases { IfErr result (λ refusal. cases_of refusal ≡ 0) }
{
    if MOST_BINS < bins {
        return Err(Refusal::TooManyBins);
    }
    if MOST_OUTLETS < outlets.len() {
        return Err(Refusal::TooManyOutlets);
    }
    if bad_budget(budget) {
        return Err(Refusal::BadBudget);
    }
    if stray_hoses(bins, outlets) {
        return Err(Refusal::StrayHose);
    }
    Ok(())
}

// The checks of a rail that comes with no budget, in the order 1, 2, 4: those of a job with budget 0, which no check refuses.
pub fn check_rail(bins: u64, outlets: &[u64]) -> Result<(), Refusal>
    ensures number { number_told result ≡ rail_checks bins outlets.now }
    ensures no_cases { IfErr result (λ refusal. cases_of refusal ≡ 0) }
{
    check(bins, outlets, 0)
}
