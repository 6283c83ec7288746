// Writing a sheet: the checks and the length first, so that a refused job writes nothing, and then the bytes, record by record.
// Each function that puts bytes is told the place, and answers where it stopped; its loops are counted by hand. In front of the room that is left, and
// along an iterator, sheets of outlets with few hoses took up to 2.6 times as long (docs/DESIGN-PASS.md has what was tried).
ghost use Rattle.std.specs.Prelude.{◌≡◌, ◌+◌, ◌<◌, ◌≤◌, length};
ghost use Rattle.std.proofs.lemmas.List.Edits.{sets};
ghost use Rattle.rules.specs.Sheet.{two, record_of, head_of, bins_of, outlet_records};
ghost use Rattle.rules.specs.Write.{SheetWritten};
ghost use Rattle.sheets.specs.Told.{write_told};

use refusals::Refusal;

// The length of the sheet of so many outlets: seven bytes for the head, four and its bins for each outlet. (How many there may be is asked by a clause: a
// struct for the slice would be made for this call.)
#[tactic(auto, using(crate::proofs::WriteLaws::lengths), unfolding(rules::specs::Sheet::outlet_records))]
fn sheet_length(outlets: &[u64]) -> u64
    requires { length outlets.now ≤ 32 }
    ensures { result ≡ 7 + length (outlet_records outlets.now) }
{
    let mut length: u64 = 7;
    for set in outlets {
        length += 4 + hoses::at_outlet(*set);
    }
    length
}

// Two bytes, little-endian.
fn put_two(room: &mut [u8], at: usize, n: u64)
    requires { (n < 65536) × (at + 2 ≤ length room.old) }
    ensures { room.new ≡ sets room.old at (two n) }
{
    room[at] = (n % 256) as u8;
    room[at + 1] = (n / 256) as u8;
}

// The bins of a set, the lowest first, one byte each; where they end.
fn put_bins(room: &mut [u8], at: usize, set: u64) -> usize
    requires { at + length (bins_of set) ≤ length room.old }
    ensures value { result ≡ at + length (bins_of set) }
    ensures room_after { room.new ≡ sets room.old at (bins_of set) }
{
    let mut left = set;
    let mut i = at;
    while left != 0 {
        room[i] = u64::trailing_zeros(left) as u8;
        left &= left - 1;
        i += 1;
    }
    i
}

// An outlet's record; where it ends.
fn put_record(room: &mut [u8], at: usize, set: u64) -> usize
    requires { at + length (record_of 2 (bins_of set)) ≤ length room.old }
    ensures value { result ≡ at + length (record_of 2 (bins_of set)) }
    ensures room_after { room.new ≡ sets room.old at (record_of 2 (bins_of set)) }
{
    put_two(room, at, hoses::at_outlet(set));
    put_two(room, at + 2, 2);
    put_bins(room, at + 4, set)
}

// The outlets' records, one after the other.
fn put_records(room: &mut [u8], from: usize, outlets: &[u64])
    requires { from + length (outlet_records outlets.now) ≤ length room.old }
    ensures { room.new ≡ sets room.old from (outlet_records outlets.now) }
{
    let mut at = from;
    let mut i = 0;
    while i < outlets.len() {
        at = put_record(room, at, outlets[i]);
        i += 1;
    }
}

// The head: bins, outlets, budget, one byte each.
fn put_head(room: &mut [u8], bins: u64, outlets: u64, budget: u64)
    requires { (7 ≤ length room.old) × (bins < 256) × (outlets < 256) × (budget < 256) }
    ensures { room.new ≡ sets room.old 0 (head_of bins outlets budget) }
{
    put_two(room, 0, 3);
    put_two(room, 2, 1);
    room[4] = bins as u8;
    room[5] = outlets as u8;
    room[6] = budget as u8;
}

// Writes a job's sheet in front of a lent room; the sheet's length.
pub fn write(bins: u64, outlets: &[u64], budget: u64, room: &mut [u8]) -> Result<u64, Refusal>
    ensures { SheetWritten bins outlets.now budget room.old (write_told result room.new) }
{
    jobs::check(bins, outlets, budget)?;
    let length = sheet_length(outlets);
    if (room.len() as u64) < length {
        return Err(Refusal::RoomTooShort);
    }
    put_head(room, bins, outlets.len() as u64, budget);
    put_records(room, 7, outlets);
    Ok(length)
}
