// How the answers of the library are shown: as the numbers of the list, 0 for what is done. The program reads an answer only here.
use refusals::Refusal;
use std::fmt;

// What a search answers.
#[derive(Clone, Copy)]
pub struct Searched(pub Result<search::Found, Refusal>);

impl fmt::Display for Searched {
    fn fmt<W: fmt::Write>(&self, f: &mut fmt::Formatter<W>) -> fmt::Result {
        let (number, crossings, cases) = match self.0 {
            Ok(found) => (0, found.crossings, found.cases),
            Err(refusal) => (refusal.number(), 0, refusal.cases()),
        };
        write!(f, "number {number}, crossings {crossings}, cases {cases}")
    }
}

// What is answered with one number: a count's crossings, the length of a sheet that is written.
#[derive(Clone, Copy)]
pub struct Told<'a> {
    pub what: &'a str,
    pub answer: Result<u64, Refusal>,
}

impl fmt::Display for Told<'_> {
    fn fmt<W: fmt::Write>(&self, f: &mut fmt::Formatter<W>) -> fmt::Result {
        let (number, told) = match self.answer {
            Ok(told) => (0, told),
            Err(refusal) => (refusal.number(), 0),
        };
        write!(f, "number {number}, {} {told}", self.what)
    }
}

// What a sheet that is read answers.
#[derive(Clone, Copy)]
pub struct Read(pub Result<sheets::Job, Refusal>);

impl fmt::Display for Read {
    fn fmt<W: fmt::Write>(&self, f: &mut fmt::Formatter<W>) -> fmt::Result {
        let (number, bins, outlets, budget) = match self.0 {
            Ok(job) => (0, job.bins, job.outlets, job.budget),
            Err(refusal) => (refusal.number(), 0, 0, 0),
        };
        write!(
            f,
            "number {number}, bins {bins}, outlets {outlets}, budget {budget}"
        )
    }
}

// What the next record at a place answers. At the end and after a refusal the place stays.
#[derive(Clone, Copy)]
pub struct Next {
    pub place: u64,
    pub answer: Result<Option<sheets::Record>, Refusal>,
}

impl fmt::Display for Next {
    fn fmt<W: fmt::Write>(&self, f: &mut fmt::Formatter<W>) -> fmt::Result {
        let (number, kind, start, length, next) = match self.answer {
            Ok(Some(r)) => (0, r.kind.number(), r.start, r.length, r.next),
            Ok(None) => (0, 0, 0, 0, self.place),
            Err(refusal) => (refusal.number(), 0, 0, 0, self.place),
        };
        write!(
            f,
            "number {number}, kind {kind}, start {start}, length {length}, next {next}"
        )
    }
}
