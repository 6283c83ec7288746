// Job sheets: the sheet of three as document 01 has it, read, written and walked; then cut, changed at a byte, and as long as sheets get.
ghost use Rattle.std.specs.Prelude.{◌<◌};

use crate::answers::{Next, Read, Told};
use crate::asked::{FULL, LAST, Rail, THREE};
use crate::print::{BEFORE, Bytes, Outlets, SET_BEFORE};
use crate::typed;
use std::{fmt, io};

const SHEET: [u8; 25] = [
    0x03, 0x00, 0x01, 0x00, 0x04, 0x03, 0x04, 0x03, 0x00, 0x02, 0x00, 0x00, 0x02, 0x03, 0x01, 0x00,
    0x02, 0x00, 0x01, 0x02, 0x00, 0x02, 0x00, 0x00, 0x03,
];

// A sheet read into a room of the caller's.
fn read(
    rt: &impl Print,
    name: impl fmt::Display + Drop,
    sheet: &[u8],
    room: &mut [u64],
) -> io::Result<()> {
    let size = room.len();
    let answer = Read(sheets::read(sheet, room));
    let room = Outlets(room);
    println!(rt; "{name} read, a room of {size}: {answer}, room{room}")
}

fn written(rail: Rail, budget: u64, room: &mut [u8]) -> Told<'static> {
    Told {
        what: "length",
        answer: sheets::write(rail.bins, rail.outlets, budget, room),
    }
}

fn write(rt: &impl Print, rail: Rail, budget: u64, room: &mut [u8]) -> io::Result<()> {
    let answer = written(rail, budget, room);
    let size = room.len();
    let room = Bytes(room);
    println!(rt; "{rail}, budget {budget}, a room of {size}: written, {answer}, room{room}")
}

// A room shorter than the outlets, or than the sheet, is 5. Bytes after the last record are 12.
pub fn three(rt: &impl Print) -> io::Result<()> {
    read(rt, "three", &SHEET, &mut [SET_BEFORE; 4])?;
    read(rt, "three", &SHEET, &mut [SET_BEFORE; 3])?;
    read(rt, "three", &SHEET, &mut [SET_BEFORE; 2])?;
    let mut room = [BEFORE; 26];
    write(rt, THREE, 4, &mut room)?;
    read(rt, "three and a byte", &room, &mut [SET_BEFORE; 3])?;
    write(rt, THREE, 4, &mut [BEFORE; 25])?;
    write(rt, THREE, 4, &mut [BEFORE; 24])
}

// The next record at a place.
fn next(rt: &impl Print, name: &str, sheet: &[u8], place: u64) -> io::Result<()> {
    let answer = sheets::next(sheet, place);
    let answer = Next { place, answer };
    println!(rt; "{name}, the record at {place}: {answer}")
}

// Kind 0 is the end. After a refusal or the end the place stays.
pub fn walked(rt: &impl Print) -> io::Result<()> {
    for place in [0, 7, 14, 19, 25, 26, 22, 21] {
        next(rt, "three", &SHEET, place)?;
    }
    next(rt, "three cut to 24", &SHEET[..24], 19)?;
    next(rt, "three cut to 0", &[], 0)
}

// The sheet of three up to a place.
fn cut_to(rt: &impl Print, place: usize) -> io::Result<()>
    requires { place < 25 }
{
    read(
        rt,
        format_args!("three cut to {place}"),
        &SHEET[..place],
        &mut [SET_BEFORE; 3],
    )
}

// A sheet that ends before the record does is 8, wherever it ends.
pub fn cut(rt: &impl Print) -> io::Result<()> {
    cut_to(rt, 0)?;
    cut_to(rt, 3)?;
    cut_to(rt, 6)?;
    cut_to(rt, 7)?;
    cut_to(rt, 10)?;
    cut_to(rt, 13)?;
    cut_to(rt, 24)
}

// The sheet of three with another byte at a place.
fn changed(rt: &impl Print, change: &str, place: usize, byte: u8) -> io::Result<()>
    requires { place < 25 }
{
    let mut sheet = SHEET;
    sheet[place] = byte;
    read(
        rt,
        format_args!("three, {change}"),
        &sheet,
        &mut [SET_BEFORE; 3],
    )
}

// The head: its length, its kind, bins, outlets, budget. After the head: 1, 2, 3, 5.
pub fn heads(rt: &impl Print) -> io::Result<()> {
    changed(rt, "head length 2", 0, 2)?;
    changed(rt, "head kind 2", 2, 2)?;
    changed(rt, "head kind 257", 3, 1)?;
    changed(rt, "64 bins", 4, 64)?;
    changed(rt, "65 bins", 4, 65)?;
    changed(rt, "3 bins", 4, 3)?;
    changed(rt, "2 outlets", 5, 2)?;
    changed(rt, "32 outlets", 5, 32)?;
    changed(rt, "33 outlets", 5, 33)?;
    changed(rt, "budget 30", 6, 30)?;
    changed(rt, "budget 31", 6, 31)?;
    changed(rt, "budget 254", 6, 254)?;
    changed(rt, "budget 255", 6, 255)
}

// The outlet records: length, kind, entries. Also where the last record of all is the bad one, nothing is written.
pub fn outlets(rt: &impl Print) -> io::Result<()> {
    changed(rt, "first outlet length 64", 7, 64)?;
    changed(rt, "first outlet length 65", 7, 65)?;
    changed(rt, "first outlet kind 1", 9, 1)?;
    changed(rt, "first outlet 0 0 3", 12, 0)?;
    changed(rt, "first outlet 3 2 3", 11, 3)?;
    changed(rt, "first outlet 0 4 3", 12, 4)?;
    changed(rt, "last outlet kind 3", 21, 3)?;
    changed(rt, "last outlet 3 3", 23, 3)?;
    changed(rt, "last outlet 0 4", 24, 4)
}

// A record of 64 bins is taken. With one entry more, which is no bin of the row, it is 10: the length is looked at first.
pub fn long_records(rt: &impl Print) -> io::Result<()> {
    let mut full = [BEFORE; 75];
    write(rt, Rail::of("all bins", 64, &[FULL]), 255, &mut full)?;
    read(rt, "a record of 64 bins", &full, &mut [SET_BEFORE; 2])?;
    next(rt, "a record of 64 bins", &full, 7)?;
    let mut longer = [64; 76];
    longer[..75].copy_from_slice(&full);
    longer[7] = 65;
    read(rt, "a record of 65 bins", &longer, &mut [SET_BEFORE; 2])?;
    next(rt, "a record of 65 bins", &longer, 7)
}

// The longest sheet has 7 + 32 x 68 = 2,183 bytes. Its rooms are too long for a line; what was read is counted.
pub fn longest(rt: &impl Print) -> io::Result<()> {
    let mut room = [BEFORE; 2183];
    let answer = written(Rail::of("", 64, &[FULL; 32]), 30, &mut room);
    println!(rt; "the longest sheet: written, {answer}")?;
    next(rt, "the longest sheet", &room, 2115)?;
    next(rt, "the longest sheet", &room, 2183)?;
    let mut outlets = [SET_BEFORE; 32];
    let job = Read(sheets::read(&room, &mut outlets));
    println!(rt; "the longest sheet read, a room of 32: {job}")?;
    let rail = Rail::of("the longest sheet", 64, &outlets);
    typed::counted(rt, rail, &typed::BY_NUMBER)
}

// Writing: check order 1, 2, 3, 4, 5, with each line one fault fewer.
pub fn check_order(rt: &impl Print) -> io::Result<()> {
    write(rt, Rail::of("bin 63", 65, &[LAST; 33]), 31, &mut [])?;
    write(rt, Rail::of("bin 63", 63, &[LAST; 33]), 31, &mut [])?;
    write(rt, Rail::of("bin 63", 63, &[LAST; 32]), 31, &mut [])?;
    write(rt, Rail::of("bin 63", 63, &[LAST; 32]), 30, &mut [])?;
    write(rt, Rail::of("bin 63", 64, &[LAST; 32]), 30, &mut [])
}
