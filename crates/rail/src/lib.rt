// The C face: numbers and rows only, each function a call of one operation, with that operation's contract. `include/rail.h` is its manual.
#![tactic(auto)]

mod answers;

ghost use Rattle.rules.specs.Pair.{Paired};
ghost use Rattle.rules.specs.Count.{Counted};
ghost use Rattle.rules.specs.Search.{Searched};
ghost use Rattle.rules.specs.Read.{SheetRead};
ghost use Rattle.rules.specs.Write.{SheetWritten};
ghost use Rattle.rules.specs.Next.{NextRecord};

use answers::{CountAnswer, Found, Job, Record, Written};

#[unsafe(no_mangle)]
pub extern "C" fn rail_pair(a: u64, b: u64) -> u64
    ensures { Paired a b result }
{
    hoses::pair(a, b)
}

#[unsafe(no_mangle)]
pub extern "C" fn rail_count(bins: u64, outlets: &[u64], order: &[u8]) -> CountAnswer
    ensures { Counted bins outlets.now order.now (record { number = result.number; count = result.crossings }) }
{
    CountAnswer::from(orders::count(bins, outlets, order))
}

#[unsafe(no_mangle)]
pub extern "C" fn rail_search(bins: u64, outlets: &[u64], budget: u64, room: &mut [u8]) -> Found
    ensures { Searched bins outlets.now budget room.old (record { number = result.number; count = result.crossings; cases = result.cases; room = room.new }) }
{
    Found::from(search::search(bins, outlets, budget, room))
}

#[unsafe(no_mangle)]
pub extern "C" fn rail_read(sheet: &[u8], room: &mut [u64]) -> Job
    ensures { SheetRead sheet.now room.old (record { number = result.number; bins = result.bins; outlets = result.outlets; budget = result.budget; room = room.new }) }
{
    Job::from(sheets::read(sheet, room))
}

#[unsafe(no_mangle)]
pub extern "C" fn rail_write(bins: u64, outlets: &[u64], budget: u64, room: &mut [u8]) -> Written
    ensures { SheetWritten bins outlets.now budget room.old (record { number = result.number; length = result.length; room = room.new }) }
{
    Written::from(sheets::write(bins, outlets, budget, room))
}

#[unsafe(no_mangle)]
pub extern "C" fn rail_next(sheet: &[u8], place: u64) -> Record
    ensures { NextRecord sheet.now place (record { number = result.number; kind = result.kind; start = result.start; length = result.length; next = result.next }) }
{
    Record::told(place, sheets::next(sheet, place))
}
