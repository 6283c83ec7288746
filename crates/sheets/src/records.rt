// The record at a place of a sheet, and the next record for a caller who keeps the place. Sheet and place come as two, since the walk that keeps both is
// a thin struct over these functions.
ghost use Rattle.std.specs.Prelude.{◌≡◌, ◌+◌, ◌<◌, length, IfOk};
ghost use Rattle.rules.specs.Next.{two_at, bad_length, record_checks, kind_due, NextRecord};
ghost use Rattle.refusals.specs.Numbers.{number_told};
ghost use Rattle.sheets.specs.Found.{record_at};
ghost use Rattle.sheets.specs.Told.{kind_number, next_told};

use refusals::Refusal;

// What a record of a sheet is: the head, or an outlet.
#[derive(Clone, Copy, PartialEq, Eq)]
pub enum Kind {
    Head,
    Outlet,
}

impl Kind {
    // Its number in a sheet. (A method, since `u64::from` would not say which number.)
    pub fn number(self) -> u64
        ensures { result ≡ kind_number self }
    {
        match self {
            Kind::Head => 1,
            Kind::Outlet => 2,
        }
    }
}

// A record: where its body starts, how long that is, and where the next record starts.
#[derive(Clone, Copy)]
pub struct Record {
    pub kind: Kind,
    pub start: u64,
    pub length: u64,
    pub next: u64,
}

// Two bytes, little-endian.
#[tactic(auto, unfolding(rules::specs::Next::two_at))]
fn two(sheet: &[u8], at: usize) -> u64
    requires { at + 1 < length sheet.now }
    ensures { result ≡ two_at sheet.now at }
{
    u64::from(u16::from_le_bytes([sheet[at], sheet[at + 1]]))
}

// A head is three bytes, an outlet record at most one for each bin.
#[tactic(auto, unfolding(rules::specs::Next::bad_length))]
fn bad_length(kind: Kind, length: u64) -> bool
    ensures { result ≡ bad_length (kind_number kind) length }
{
    match kind {
        Kind::Head => length != 3,
        Kind::Outlet => 64 < length,
    }
}

// The record of a kind at a place: 8, 9, 10, and 8 again for a body past the end.
#[tactic(auto, unfolding(rules::specs::Numbers::first_of, rules::specs::Next::record_checks, rules::specs::Next::kind_at, rules::specs::Next::length_at, rules::specs::Next::after))]
pub(crate) fn record_at(sheet: &[u8], place: u64, kind: Kind) -> Result<Record, Refusal>
    ensures number { number_told result ≡ record_checks (kind_number kind) sheet.now place }
    ensures found { IfOk result (λ r. r ≡ record_at kind sheet.now place) }
{
    let n = sheet.len() as u64;
    if n < place || n - place < 4 {
        return Err(Refusal::SheetEnds);
    }
    let at = place as usize;
    if two(sheet, at + 2) != kind.number() {
        return Err(Refusal::WrongKind);
    }
    let length = two(sheet, at);
    if bad_length(kind, length) {
        return Err(Refusal::BadLength);
    }
    let start = place + 4;
    if n - start < length {
        return Err(Refusal::SheetEnds);
    }
    Ok(Record {
        kind,
        start,
        length,
        next: start + length,
    })
}

// The head stands at the start, outlets after it.
#[tactic(auto, unfolding(rules::specs::Next::kind_due))]
fn kind_due(place: u64) -> Kind
    ensures { kind_number result ≡ kind_due place }
{
    if place == 0 { Kind::Head } else { Kind::Outlet }
}

// The next record, or none at the end of the bytes: but an empty sheet has no end to come to.
#[tactic(auto, unfolding(rules::specs::Next::at_end))]
pub fn next(sheet: &[u8], place: u64) -> Result<Option<Record>, Refusal>
    ensures { NextRecord sheet.now place (next_told place result) }
{
    let n = sheet.len() as u64;
    if 0 < n && place == n {
        return Ok(None);
    }
    Ok(Some(record_at(sheet, place, kind_due(place))?))
}
