// The walk over a sheet that keeps the sheet and its place: a thin struct over `next`, made from a sheet, asked for the next record, moved on.
ghost use Rattle.std.specs.Prelude.{◌≡◌};
ghost use Rattle.rules.specs.Next.{NextRecord};
ghost use Rattle.sheets.specs.Told.{next_told};

use crate::records::{Record, next};
use refusals::Refusal;

#[derive(Clone, Copy)]
pub struct Walk<'a> {
    pub sheet: &'a [u8],
    pub place: u64,
}

impl<'a> Walk<'a> {
    // A walk at the start of a sheet.
    pub fn start(sheet: &'a [u8]) -> Walk<'a>
        ensures { result ≡ record { sheet = sheet.entry; place = 0 } }
    {
        Walk { sheet, place: 0 }
    }

    // The next record, at the walk's place.
    pub fn record_ahead(self) -> Result<Option<Record>, Refusal>
        ensures { NextRecord self.entry.sheet.now self.entry.place (next_told self.entry.place result) }
    {
        next(self.sheet, self.place)
    }

    // The same sheet at another place: `next` of the record that was answered. After a refusal and at the end a walk stays where it is.
    pub fn moved(self, place: u64) -> Walk<'a>
        ensures { result ≡ record { sheet = self.entry.sheet; place = place } }
    {
        Walk { place, ..self }
    }
}

// The first record of a sheet, for a caller who keeps no walk.
pub fn first(sheet: &[u8]) -> Result<Option<Record>, Refusal>
    ensures { NextRecord sheet.now 0 (next_told 0 result) }
{
    Walk::start(sheet).record_ahead()
}
