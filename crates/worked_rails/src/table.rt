// The rails of 'Rails worked by hand', row by row, and the rail that the table of the rules has besides.
// A set is written with its last bin first: 0b1101 is {0,2,3}.
use crate::answers::Searched;
use crate::asked::{Rail, THREE};
use crate::print::{BEFORE, Bytes, Outlets};
use std::io;

// A row: name, bins, outlets and budget; then what the search answers, in a room of four bytes.
fn row(rt: &impl Print, rail: Rail, budget: u64) -> io::Result<()> {
    let Rail {
        name,
        bins,
        outlets,
    } = rail;
    let mut room = [BEFORE; 4];
    let answer = Searched(search::search(bins, outlets, budget, &mut room));
    let outlets = Outlets(outlets);
    let room = Bytes(&room);
    println!(rt; "{name}: bins {bins}, outlets{outlets}, budget {budget}: {answer}, room{room}")
}

pub fn rows(rt: &impl Print) -> io::Result<()> {
    row(rt, Rail::of("empty", 0, &[]), 0)?;
    row(rt, Rail::of("bare", 1, &[0, 0b1]), 0)?;
    row(rt, Rail::of("swap", 2, &[0b10, 0b01]), 0)?;
    row(rt, Rail::of("twin", 2, &[0b11, 0b11]), 0)?;
    row(rt, Rail::of("twin", 2, &[0b11, 0b11]), 1)?;
    row(rt, Rail::of("fork", 3, &[0b101, 0b010]), 0)?;
    row(rt, Rail::of("fork", 3, &[0b101, 0b010]), 1)?;
    row(rt, Rail::of("trident", 4, &[0b1101, 0b0010]), 0)?;
    row(rt, Rail::of("trident", 4, &[0b1101, 0b0010]), 1)?;
    row(rt, THREE, 3)?;
    row(rt, THREE, 4)?;
    row(rt, Rail::of("chain", 4, &[0b1101, 0b0010, 0b0100]), 1)?;
    row(rt, Rail::of("chain", 4, &[0b1101, 0b0010, 0b0100]), 2)?;
    row(rt, Rail::of("follow", 3, &[0b011, 0b101, 0b101]), 2)?;
    row(rt, Rail::of("follow", 3, &[0b011, 0b101, 0b101]), 3)
}
