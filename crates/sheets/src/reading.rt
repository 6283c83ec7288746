// Reading a sheet. The outlets are read into a row of the reader's own first, so that a refused sheet writes nothing
// into the lent room, wherever the bad record stands. A place in a sheet becomes one in a slice by `as`: there is no From.
ghost use Rattle.std.specs.Prelude.{◌≡◌, ◌≤◌, length, take, IfOk};
ghost use Rattle.rules.specs.Crossing.{set_of};
ghost use Rattle.rules.specs.Next.{body_at, after};
ghost use Rattle.rules.specs.Read.{head_outlets, head_numbers, head_checks, entry_checks, outlet_checks, outlets_checks, outlet_sets, outlets_end, sheet_checks, sheet_sets, sheet_end, SheetRead};
ghost use Rattle.refusals.specs.Numbers.{number_told};
ghost use Rattle.sheets.specs.Told.{read_told};
ghost use Rattle.sheets.specs.Found.{job_at};

use crate::records::{Kind, record_at};
use refusals::Refusal;

// A job as its sheet's head has it; the budget is 255 where none is written.
#[derive(Clone, Copy)]
pub struct Job {
    pub bins: u64,
    pub outlets: u64,
    pub budget: u64,
}

// How many bins the row has: no more than a set has places.
#[derive(Clone, Copy)]
struct BinCount {
    number: u64,
    ghost few: { number ≤ 64 },
}

// An outlet: the set of its bins, and where the next record starts.
#[derive(Clone, Copy)]
struct Outlet {
    set: u64,
    next: u64,
}

// The head's job, and where what follows the head, or the whole sheet, starts.
#[derive(Clone, Copy)]
struct Sheet {
    job: Job,
    next: u64,
}

// The entries of an outlet record, one by one: 4 before 11.
fn entries(body: &[u8], bins: BinCount) -> Result<u64, Refusal>
    ensures number { number_told result ≡ entry_checks bins.number 0 body.now }
    ensures set { IfOk result (λ set. set ≡ set_of body.now) }
{
    let mut set: u64 = 0;
    let mut least: u64 = 0;
    for entry in body {
        let bin = u64::from(*entry);
        if bins.number <= bin {
            return Err(Refusal::StrayHose);
        }
        if bin < least {
            return Err(Refusal::NotRising);
        }
        set |= 1 << bin;
        least = bin + 1;
    }
    Ok(set)
}

// The outlet record at a place.
#[tactic(auto, using(crate::proofs::ReadLaws::steps), unfolding(rules::specs::Next::after, rules::specs::Next::body_at, rules::specs::Read::outlet_checks))]
fn outlet_record(sheet: &[u8], place: u64, bins: BinCount) -> Result<Outlet, Refusal>
    ensures number { number_told result ≡ outlet_checks bins.number sheet.now place }
    ensures outlet { IfOk result (λ o. o ≡ record { set = set_of (body_at sheet.now place); next = after sheet.now place }) }
{
    let record = record_at(sheet, place, Kind::Outlet)?;
    let set = entries(&sheet[record.start as usize..record.next as usize], bins)?;
    Ok(Outlet {
        set,
        next: record.next,
    })
}

// The outlet records from a place on, one set each into the row; where they end.
#[tactic(auto, using(crate::proofs::ReadLaws::record_steps))]
fn outlet_records(sheet: &[u8], from: u64, bins: BinCount, row: &mut [u64]) -> Result<u64, Refusal>
    ensures number { number_told result ≡ outlets_checks bins.number (length row.old) sheet.now from }
    ensures end { IfOk result (λ end. end ≡ outlets_end (length row.old) sheet.now from) }
    ensures sets { IfOk result (λ end. row.new ≡ outlet_sets (length row.old) sheet.now from) }
{
    let mut place = from;
    for set in row {
        let outlet = outlet_record(sheet, place, bins)?;
        *set = outlet.set;
        place = outlet.next;
    }
    Ok(place)
}

// After the head: 1, 2, 3, 5.
#[tactic(auto, unfolding(rules::specs::Numbers::first_of, rules::specs::Numbers::too_many_bins, rules::specs::Numbers::room_too_short, rules::specs::Read::head_numbers))]
fn head_numbers(room: u64, job: Job) -> Result<(), Refusal>
    ensures { number_told result ≡ head_numbers room job.bins job.outlets job.budget }
{
    if jobs::MOST_BINS < job.bins {
        return Err(Refusal::TooManyBins);
    }
    if (jobs::MOST_OUTLETS as u64) < job.outlets {
        return Err(Refusal::TooManyOutlets);
    }
    if jobs::bad_budget(job.budget) {
        return Err(Refusal::BadBudget);
    }
    if room < job.outlets {
        return Err(Refusal::RoomTooShort);
    }
    Ok(())
}

// The head at a place.
#[tactic(auto, using(crate::proofs::ReadLaws::steps), unfolding(rules::specs::Read::head_checks, rules::specs::Read::head_bins, rules::specs::Read::head_outlets, rules::specs::Read::head_budget))]
fn head_at(sheet: &[u8], place: u64, room: u64) -> Result<Sheet, Refusal>
    ensures number { number_told result ≡ head_checks room sheet.now place }
    ensures head { IfOk result (λ h. h ≡ record { job = job_at sheet.now place; next = after sheet.now place }) }
{
    let record = record_at(sheet, place, Kind::Head)?;
    let at = record.start as usize;
    let job = Job {
        bins: u64::from(sheet[at]),
        outlets: u64::from(sheet[at + 1]),
        budget: u64::from(sheet[at + 2]),
    };
    head_numbers(room, job)?;
    Ok(Sheet {
        job,
        next: record.next,
    })
}

// A sheet from a place on, whatever follows it: the head, and the outlets into the row.
#[tactic(auto, using(crate::proofs::ReadLaws::steps), unfolding(rules::specs::Read::sheet_checks, rules::specs::Read::sheet_end, rules::specs::Read::sheet_sets))]
fn sheet_at(sheet: &[u8], place: u64, room: u64, row: &mut [u64; 32]) -> Result<Sheet, Refusal>
    ensures number { number_told result ≡ sheet_checks room sheet.now place }
    ensures sheet { IfOk result (λ s. s ≡ record { job = job_at sheet.now place; next = sheet_end sheet.now place }) }
    ensures sets { IfOk result (λ s. take (head_outlets sheet.now place) row.new ≡ sheet_sets sheet.now place) }
{
    let head = head_at(sheet, place, room)?;
    let bins = BinCount {
        number: head.job.bins,
    };
    let outlets = &mut row[..head.job.outlets as usize];
    let next = outlet_records(sheet, head.next, bins, outlets)?;
    Ok(Sheet { next, ..head })
}

// Reads a sheet into a lent room: one set an outlet.
#[tactic(auto, using(crate::proofs::ReadLaws::row_copied))]
pub fn read(sheet: &[u8], room: &mut [u64]) -> Result<Job, Refusal>
    ensures { SheetRead sheet.now room.old (read_told result room.new) }
{
    let mut row = [0u64; 32];
    let taken = sheet_at(sheet, 0, room.len() as u64, &mut row)?;
    if taken.next < sheet.len() as u64 {
        return Err(Refusal::BytesAfter);
    }
    let n = taken.job.outlets as usize;
    room[..n].copy_from_slice(&row[..n]);
    Ok(taken.job)
}
