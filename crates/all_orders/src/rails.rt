// The rails that are tried: every small one, and a fixed choice of larger ones.
ghost use Rattle.std.specs.Prelude.{◌<◌};

use crate::tally::Tally;
use crate::trial;

// Every rail of up to four bins and three outlets: four bits of a code are an outlet.
pub fn small(tally: &mut Tally) {
    for n in 0..=3 {
        for code in 0..1 << 4 * n {
            let outlets = [code % 16, code / 16 % 16, code / 256];
            trial::try_rail(4, &outlets[..n], tally);
        }
    }
}

// A number that looks random, by the one before it.
fn next(x: u64) -> u64 {
    x % 2147483647 * 48271 % 2147483647
}

// Six outlets of ten bins, or as many fewer as `narrow` says: a bin is in a set where it is in both of two sets.
fn drawn(seed: u64, narrow: u64) -> [u64; 6]
    requires { narrow < 10 }
{
    let mut outlets = [0; 6];
    let mut x = seed;
    for outlet in outlets.iter_mut() {
        x = next(x);
        *outlet = (x & x / 1024) % 1024 >> narrow;
    }
    outlets
}

// Is it cheaper that a stands left of b?
fn cheaper(a: u64, b: u64) -> bool {
    hoses::pair(a, b) < hoses::pair(b, a)
}

// Do the cheaper ways of three outlets go in a circle?
fn circle(a: u64, b: u64, c: u64) -> bool {
    if cheaper(a, b) {
        cheaper(b, c) && cheaper(c, a)
    } else {
        cheaper(b, a) && cheaper(a, c) && cheaper(c, b)
    }
}

// Every rail of three outlets and seven bins whose cheaper ways go in a circle, where the cheaper way of a pair can lead nowhere:
// the circle alone, and between two more outlets.
pub fn circles(tally: &mut Tally) {
    for code in 0..2097152 {
        let a = code % 128;
        let b = code / 128 % 128;
        let c = code / 16384;
        if circle(a, b, c) {
            let [first, second, ..] = drawn(code, 3);
            trial::try_rail(7, &[a, b, c], tally);
            trial::try_rail(7, &[a, first, b, c, second], tally);
        }
    }
}

// Rails of four to six outlets and five to ten bins.
pub fn chosen(tally: &mut Tally) {
    for rail in 0..300 {
        let seed = next(rail * 1000003 + 1);
        let narrow = seed % 6;
        let outlets = drawn(seed, narrow);
        let n = 4 + seed / 6 % 3;
        trial::try_rail(10 - narrow, &outlets[..n as usize], tally);
    }
}
