// Pairs of outlets, and orders as someone types them: counted, or refused.
use crate::answers::Told;
use crate::asked::{FULL, LAST, Rail, THREE};
use crate::print::Bytes;
use std::io;

pub const BY_NUMBER: [u8; 32] = [
    0, 1, 2, 3, 4, 5, 6, 7, 8, 9, 10, 11, 12, 13, 14, 15, 16, 17, 18, 19, 20, 21, 22, 23, 24, 25,
    26, 27, 28, 29, 30, 31,
];

// cross both ways.
fn pair(rt: &impl Print, name: &str, a: u64, b: u64) -> io::Result<()> {
    println!(rt;
        "{name}: cross {}, the other way {}",
        hoses::pair(a, b),
        hoses::pair(b, a)
    )
}

pub fn pairs(rt: &impl Print) -> io::Result<()> {
    pair(rt, "all bins and all bins", FULL, FULL)?;
    pair(rt, "all bins and no hose", FULL, 0)?;
    pair(rt, "all bins and bin 63", FULL, LAST)?;
    pair(rt, "bin 63 and bin 0", LAST, 1)?;
    pair(rt, "bin 63 and bin 63", LAST, LAST)?;
    pair(rt, "twin", 0b11, 0b11)?;
    pair(rt, "fork", 0b101, 0b010)?;
    pair(rt, "trident", 0b1101, 0b0010)
}

// An order counted.
pub fn counted(rt: &impl Print, rail: Rail, order: &[u8]) -> io::Result<()> {
    let answer = Told {
        what: "crossings",
        answer: orders::count(rail.bins, rail.outlets, order),
    };
    println!(rt; "{rail}, order{}: {answer}", Bytes(order))
}

pub fn orders(rt: &impl Print) -> io::Result<()> {
    for order in [
        [0, 1, 2],
        [0, 2, 1],
        [1, 0, 2],
        [1, 2, 0],
        [2, 0, 1],
        [2, 1, 0],
    ] {
        counted(rt, THREE, &order)?;
    }
    counted(rt, Rail::of("empty", 0, &[]), &[])?;
    counted(rt, Rail::of("all bins", 64, &[FULL; 32]), &BY_NUMBER)
}

// Not an order is 7: wrong length, an outlet not on the rail, or one repeated. Check order 1, 2, 4, 7.
pub fn no_orders(rt: &impl Print) -> io::Result<()> {
    counted(rt, THREE, &[])?;
    counted(rt, THREE, &[1, 0])?;
    counted(rt, THREE, &[1, 0, 2, 1])?;
    for order in [[1, 0, 3], [255, 1, 0], [1, 1, 0], [1, 0, 1]] {
        counted(rt, THREE, &order)?;
    }
    counted(rt, Rail::of("bin 63", 65, &[LAST; 33]), &[])?;
    counted(rt, Rail::of("bin 63", 63, &[LAST; 33]), &[])?;
    counted(rt, Rail::of("bin 63", 63, &[LAST; 32]), &[])?;
    counted(rt, Rail::of("bin 63", 64, &[LAST; 32]), &[])
}
