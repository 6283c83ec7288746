// A set of bins is one 64-bit number, bit b for bin b: a bin tested, the hoses at an outlet, those further left, and cross of two outlets.
#![tactic(auto)]

mod ones;

ghost use Rattle.std.specs.Prelude.{◌≡◌, ◌<◌, eqb};
ghost use Rattle.rules.specs.Sum.{sum};
ghost use Rattle.rules.specs.Crossing.{bit, profile, hoses};
ghost use Rattle.rules.specs.Pair.{Paired};

pub use ones::Ones;

// Is the bin in the set?
pub fn has_bin(set: u64, bin: u64) -> bool
    ensures { result ≡ eqb (bit set bin) 1 }
{
    bin < 64 && set >> bin & 1 == 1
}

// The number of hoses at an outlet is the count of ones.
pub fn at_outlet(set: u64) -> u64
    ensures { result ≡ hoses (profile set) }
{
    u64::from(set.count_ones())
}

// The hoses further left than a bin: the count of ones under a mask.
fn further_left(set: u64, bin: usize) -> u64
    requires { bin < 64 }
    ensures { result ≡ sum (profile set) bin }
{
    u64::from((set & (1 << bin) - 1).count_ones())
}

// cross(a, b): for each hose of a, the lowest first, the hoses of b further left.
pub fn pair(a: u64, b: u64) -> u64
    ensures { Paired a b result }
{
    let mut crossings: u64 = 0;
    for bin in Ones::of(a) {
        crossings += further_left(b, bin);
    }
    crossings
}
