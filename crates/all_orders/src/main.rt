// The trial of all orders: on small rails, every answer of the search is held against the least crossings over all orders of the rail.
// It prints how many rails and searches were tried, and the failures of each kind.
#![tactic(auto)]

mod every;
mod rails;
mod tally;
mod trial;

use std::io;
use tally::Tally;

fn main(rt: HostRuntime) -> io::Result<()> {
    let mut tally = Tally::default();
    rails::small(&mut tally);
    rails::circles(&mut tally);
    rails::chosen(&mut tally);
    println!(rt; "rails {}", tally.rails)?;
    println!(rt; "searches {}", tally.searches)?;
    println!(rt; "pairs counted wrong {}", tally.pairs)?;
    println!(rt; "wrong yes or no {}", tally.answers)?;
    println!(rt; "no order of the rail {}", tally.orders)?;
    println!(rt; "crossings not the order's {}", tally.counts)?;
    println!(rt; "crossings above the budget {}", tally.budgets)?;
    println!(rt; "bytes written beside the order {}", tally.rooms)?;
    println!(rt; "cases above the bound {}", tally.cases)
}
