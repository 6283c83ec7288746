// The edges of the limits of a search: bins, outlets, budgets, rooms, and the order of the checks.
use crate::answers::Searched;
use crate::asked::{FULL, LAST, Rail};
use crate::print::{BEFORE, Bytes};
use std::io;

// A search in a room of the caller's.
fn searched(rt: &impl Print, rail: Rail, budget: u64, room: &mut [u8]) -> io::Result<()> {
    let size = room.len();
    let answer = Searched(search::search(rail.bins, rail.outlets, budget, room));
    let room = Bytes(room);
    println!(rt; "{rail}, budget {budget}, a room of {size}: {answer}, room{room}")
}

// More than 64 bins is 1, more than 32 outlets is 2, a hose from a bin number not below the bins is 4.
pub fn sizes(rt: &impl Print) -> io::Result<()> {
    let both_ends = Rail::of("63 and 0", 64, &[LAST, 1]);
    let full = Rail::of("all bins", 64, &[FULL; 32]);
    searched(rt, Rail::of("bin 63", 64, &[LAST]), 0, &mut [BEFORE; 2])?;
    searched(rt, Rail::of("bin 63", 65, &[LAST]), 0, &mut [BEFORE; 2])?;
    searched(rt, Rail::of("no hose", u64::MAX, &[0]), 0, &mut [BEFORE; 2])?;
    searched(rt, Rail::of("bin 63", 63, &[LAST]), 0, &mut [BEFORE; 2])?;
    searched(rt, Rail::of("bin 62", 63, &[LAST / 2]), 0, &mut [BEFORE; 2])?;
    searched(rt, Rail::of("no hose", 0, &[0]), 0, &mut [BEFORE; 2])?;
    searched(rt, Rail::of("bin 0", 0, &[1]), 0, &mut [BEFORE; 2])?;
    searched(rt, both_ends, 0, &mut [BEFORE; 3])?;
    searched(rt, Rail::of("bin 0", 1, &[1; 32]), 0, &mut [BEFORE; 33])?;
    searched(rt, Rail::of("bin 0", 1, &[1; 33]), 0, &mut [BEFORE; 33])?;
    searched(rt, full, 30, &mut [BEFORE; 33])
}

// Budgets above 30 are 3, but 255 is searched as 0. Three outlets on the same five bins have 30 crossings.
pub fn budgets(rt: &impl Print) -> io::Result<()> {
    let twin = Rail::of("twin", 2, &[0b11; 2]);
    let swap = Rail::of("swap", 2, &[0b10, 0b01]);
    let five_bins = Rail::of("five bins", 5, &[0b11111; 3]);
    for budget in [30, 31, 254, 255, 256, u64::MAX] {
        searched(rt, twin, budget, &mut [BEFORE; 3])?;
    }
    searched(rt, swap, 255, &mut [BEFORE; 3])?;
    searched(rt, five_bins, 29, &mut [BEFORE; 4])?;
    searched(rt, five_bins, 30, &mut [BEFORE; 4])
}

// A room shorter than the order is 5, also where no order is within the budget.
pub fn rooms(rt: &impl Print) -> io::Result<()> {
    let swap = Rail::of("swap", 2, &[0b10, 0b01]);
    let twin = Rail::of("twin", 2, &[0b11, 0b11]);
    searched(rt, swap, 0, &mut [BEFORE; 1])?;
    searched(rt, swap, 0, &mut [BEFORE; 2])?;
    searched(rt, twin, 0, &mut [BEFORE; 1])?;
    searched(rt, Rail::of("empty", 0, &[]), 0, &mut [])
}

// Check order 1, 2, 3, 4, 5: with each line one fault fewer.
pub fn check_order(rt: &impl Print) -> io::Result<()> {
    let wide_and_long = Rail::of("bin 63", 65, &[LAST; 33]);
    let long = Rail::of("bin 63", 63, &[LAST; 33]);
    let outside = Rail::of("bin 63", 63, &[LAST; 32]);
    let inside = Rail::of("bin 63", 64, &[LAST; 32]);
    searched(rt, wide_and_long, 31, &mut [BEFORE; 31])?;
    searched(rt, long, 31, &mut [BEFORE; 31])?;
    searched(rt, outside, 31, &mut [BEFORE; 31])?;
    searched(rt, outside, 30, &mut [BEFORE; 31])?;
    searched(rt, inside, 30, &mut [BEFORE; 31])?;
    searched(rt, inside, 30, &mut [BEFORE; 32])
}
