// The program: reads a sheet from standard input and prints one line. What the line says is `lines::line`'s to promise.
#![tactic(auto)]

ghost use Rattle.std.specs.Prelude.{◌≤◌, length, IfOk};

use std::io::{self, Read, Write};

// The longest sheet has 7 + 32 x 68 bytes. Its room is fixed: nothing is allocated.
const LONGEST_SHEET: usize = 2183;

// Reads until the room is full or the input ends, and answers what it read: the front of the room. A loop over `read`, since
// `read_exact` doesn't say how much there was, and `read_to_end` allocates.
fn read_full<'a>(input: &mut impl Read, room: &'a mut [u8]) -> io::Result<&'a [u8]>
    ensures { IfOk result (λ sheet. length sheet.now ≤ length room.old) }
{
    let mut done = 0;
    while done < room.len() {
        match input.read(&mut room[done..])? {
            0 => break,
            read => done += read,
        }
    }
    Ok(&room[..done])
}

fn main(rt: HostRuntime) -> io::Result<()> {
    // one byte more than the longest sheet is enough
    let mut room = [0; LONGEST_SHEET + 1];
    let sheet = read_full(&mut rt.reader(), &mut room)?;
    let mut line = [0; 119];
    let length = lines::line(sheet, &mut line);
    io::writer(&rt).write_all(&line[..length])
}
