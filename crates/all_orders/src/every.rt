// All orders of at most six outlets and the least crossings of any, by costs that are counted hose against hose, and not by the library, which is held
// against them.
ghost use Rattle.std.specs.Prelude.{◌<◌, ◌≤◌, length};

use crate::tally::Count;

// How many orders so many outlets have.
const ORDERS: [usize; 7] = [1, 1, 2, 6, 24, 120, 720];

fn has(set: u64, bin: u64) -> bool
    requires { bin < 64 }
{
    set >> bin & 1 == 1
}

// The bins of a set further left than bin x.
fn further_left(set: u64, x: u64) -> u16
    requires { x < 64 }
    ensures { result ≤ 64 }
{
    (0..x).filter(|y| has(set, *y)).count() as u16
}

// cross(a, b): the pairs of a bin x of a and a bin y of b with y < x. The bound of a sum over a range isn't found: a loop.
fn cross(a: u64, b: u64, bins: u64) -> u16
    requires { bins ≤ 64 }
{
    let mut crossings = 0;
    for x in 0..bins {
        if has(a, x) {
            crossings += further_left(b, x);
        }
    }
    crossings
}

// The order with a code: each outlet in turn stays at the end of those before it, or changes places with one of them.
// The codes below n! give every order of the first n outlets, each once; the others stay where they are.
fn order(code: usize) -> [u8; 6] {
    let mut order = [0, 1, 2, 3, 4, 5];
    let mut left = code;
    for outlet in 0..6 {
        order.swap(outlet, outlet - left % (outlet + 1));
        left /= outlet + 1;
    }
    order
}

// What outlet a of a rail pays for standing left of outlet b, at [a][b]; what is no pair of the rail pays nothing.
#[derive(Drop)]
pub struct Costs([[u16; 6]; 6]);

impl Costs {
    pub fn of(bins: u64, outlets: &[u64]) -> Costs
        requires { bins ≤ 64 }
    {
        let mut costs = [[0; 6]; 6];
        for (row, a) in costs.iter_mut().zip(outlets) {
            for (cost, b) in row.iter_mut().zip(outlets) {
                *cost = cross(*a, *b, bins);
            }
        }
        Costs(costs)
    }

    // Counts the pairs of the rail that the library counts otherwise.
    pub fn wrong_pairs(&self, outlets: &[u64], wrong: &mut Count) {
        for (row, a) in self.0.iter().zip(outlets) {
            for (cost, b) in row.iter().zip(outlets) {
                wrong.add_if(hoses::pair(*a, *b) != u64::from(*cost));
            }
        }
    }

    fn cost(&self, a: u8, b: u8) -> u16 {
        self.0
            .get(usize::from(a))
            .and_then(|row| row.get(usize::from(b)))
            .map_or(0, |cost| *cost)
    }

    // What an outlet pays for standing left of those that follow it.
    fn right_of(&self, a: u8, right: &[u8]) -> u32
        requires { length right.now ≤ 8 }
    {
        right.iter().map(|b| u32::from(self.cost(a, *b))).sum()
    }

    // The crossings of an order.
    pub fn crossings(&self, order: &[u8]) -> u64
        requires { length order.now ≤ 8 }
    {
        order
            .iter()
            .enumerate()
            .map(|(place, a)| u64::from(self.right_of(*a, &order[place + 1..])))
            .sum()
    }

    // The least crossings of any order of n outlets.
    pub fn least(&self, n: usize) -> u64
        requires { n ≤ 6 }
    {
        (0..ORDERS[n])
            .map(|code| self.crossings(&order(code)[..n]))
            .min()
            .unwrap_or(u64::MAX)
    }
}
