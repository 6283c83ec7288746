// What the C functions answer: structs of numbers by value, made of what the operations answer.
// A refusal has its number and 0 for every other number, but for the cases of 6 and the place that the next record was asked at.
// The C interface needs each as it stands in rail.h: the numbers, and a struct for each answer, also where two are alike.
ghost use Rattle.std.specs.Prelude.{◌≡◌, ℕ, List};
ghost use Rattle.orders.specs.Told.{count_told};
ghost use Rattle.search.specs.Told.{search_told};
ghost use Rattle.sheets.specs.Told.{read_told, write_told, next_told};

use refusals::Refusal;

#[repr(C)]
#[derive(Clone, Copy)]
pub struct CountAnswer {
    pub number: u64,
    pub crossings: u64,
}

impl From<Result<u64, Refusal>> for CountAnswer {
    ghost from_gives = { λ answer told. count_told answer ≡ record { number = told.number; count = told.crossings } };

    fn from(answer: Result<u64, Refusal>) -> CountAnswer {
        match answer {
            Ok(crossings) => CountAnswer {
                number: 0,
                crossings,
            },
            Err(refusal) => CountAnswer {
                number: refusal.number(),
                crossings: 0,
            },
        }
    }
}

#[repr(C)]
#[derive(Clone, Copy)]
pub struct Found {
    pub number: u64,
    pub crossings: u64,
    pub cases: u64,
}

impl From<Result<search::Found, Refusal>> for Found {
    ghost from_gives = { λ answer told. (room : List ℕ) → search_told answer room ≡ record { number = told.number; count = told.crossings; cases = told.cases; room = room } };

    fn from(answer: Result<search::Found, Refusal>) -> Found {
        match answer {
            Ok(found) => Found {
                number: 0,
                crossings: found.crossings,
                cases: found.cases,
            },
            Err(refusal) => Found {
                number: refusal.number(),
                crossings: 0,
                cases: refusal.cases(),
            },
        }
    }
}

#[repr(C)]
#[derive(Clone, Copy)]
pub struct Job {
    pub number: u64,
    pub bins: u64,
    pub outlets: u64,
    pub budget: u64,
}

impl From<Result<sheets::Job, Refusal>> for Job {
    ghost from_gives = { λ answer told. (room : List ℕ) → read_told answer room ≡ record { number = told.number; bins = told.bins; outlets = told.outlets; budget = told.budget; room = room } };

    fn from(answer: Result<sheets::Job, Refusal>) -> Job {
        match answer {
            Ok(job) => Job {
                number: 0,
                bins: job.bins,
                outlets: job.outlets,
                budget: job.budget,
            },
            Err(refusal) => Job {
                number: refusal.number(),
                bins: 0,
                outlets: 0,
                budget: 0,
            },
        }
    }
}

#[repr(C)]
#[derive(Clone, Copy)]
pub struct Written {
    pub number: u64,
    pub length: u64,
}

impl From<Result<u64, Refusal>> for Written {
    ghost from_gives = { λ answer told. (room : List ℕ) → write_told answer room ≡ record { number = told.number; length = told.length; room = room } };

    fn from(answer: Result<u64, Refusal>) -> Written {
        match answer {
            Ok(length) => Written { number: 0, length },
            Err(refusal) => Written {
                number: refusal.number(),
                length: 0,
            },
        }
    }
}

#[repr(C)]
#[derive(Clone, Copy)]
pub struct Record {
    pub number: u64,
    pub kind: u64,
    pub start: u64,
    pub length: u64,
    pub next: u64,
}

impl Record {
    // No record at a place, for the reason of the number: the place stays.
    fn none(number: u64, place: u64) -> Record
        ensures { result ≡ record { number = number; kind = 0; start = 0; length = 0; next = place } }
    {
        Record {
            number,
            kind: 0,
            start: 0,
            length: 0,
            next: place,
        }
    }

    // What is told of the next record at a place; the end is number 0 and kind 0.
    pub fn told(place: u64, answer: Result<Option<sheets::Record>, Refusal>) -> Record
        ensures { next_told place answer ≡ record { number = result.number; kind = result.kind; start = result.start; length = result.length; next = result.next } }
    {
        match answer {
            Ok(Some(found)) => Record {
                number: 0,
                kind: found.kind.number(),
                start: found.start,
                length: found.length,
                next: found.next,
            },
            Ok(None) => Record::none(0, place),
            Err(refusal) => Record::none(refusal.number(), place),
        }
    }
}
