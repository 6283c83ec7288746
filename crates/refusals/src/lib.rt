// Why a call is refused: the list of refusals, the number of each, and what a refusal tells besides.
#![tactic(auto)]

ghost use Rattle.std.specs.Prelude.{◌≡◌};
ghost use Rattle.refusals.specs.Numbers.{number_of, cases_of};

#[derive(Clone, Copy, PartialEq, Eq)]
pub enum Refusal {
    TooManyBins,
    TooManyOutlets,
    BadBudget,
    StrayHose,
    RoomTooShort,
    // no order within the budget, after so many cases
    NoOrder { cases: u64 },
    NotAnOrder,
    SheetEnds,
    WrongKind,
    BadLength,
    NotRising,
    BytesAfter,
}

impl Refusal {
    // Its number in the list. (A method, since `u64::from` would not say which number.)
    pub fn number(self) -> u64
        ensures { result ≡ number_of self }
    {
        match self {
            Refusal::TooManyBins => 1,
            Refusal::TooManyOutlets => 2,
            Refusal::BadBudget => 3,
            Refusal::StrayHose => 4,
            Refusal::RoomTooShort => 5,
            Refusal::NoOrder { .. } => 6,
            Refusal::NotAnOrder => 7,
            Refusal::SheetEnds => 8,
            Refusal::WrongKind => 9,
            Refusal::BadLength => 10,
            Refusal::NotRising => 11,
            Refusal::BytesAfter => 12,
        }
    }

    // The cases that were opened before it: only a search that finds no order has opened any.
    pub fn cases(self) -> u64
        ensures { result ≡ cases_of self }
    {
        match self {
            Refusal::NoOrder { cases } => cases,
            _ => 0,
        }
    }
}
