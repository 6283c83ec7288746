// What is asked about: rails, and the outlets that more than one of them has.
use std::fmt;

// The outlet on all 64 bins, and the one on bin 63 alone.
pub const FULL: u64 = u64::MAX;

pub const LAST: u64 = 1 << 63;

// A rail to be asked about. The name says which bins its outlets have.
#[derive(Clone, Copy)]
pub struct Rail<'a> {
    pub name: &'a str,
    pub bins: u64,
    pub outlets: &'a [u64],
}

impl<'a> Rail<'a> {
    pub fn of(name: &'a str, bins: u64, outlets: &'a [u64]) -> Rail<'a> {
        Rail {
            name,
            bins,
            outlets,
        }
    }
}

impl fmt::Display for Rail<'_> {
    fn fmt<W: fmt::Write>(&self, f: &mut fmt::Formatter<W>) -> fmt::Result {
        write!(
            f,
            "{}: bins {}, outlets {}",
            self.name,
            self.bins,
            self.outlets.len()
        )
    }
}

// The rail that document 01 takes through a search and a sheet.
pub const THREE: Rail = Rail {
    name: "three",
    bins: 4,
    outlets: &[0b1101, 0b0010, 0b1001],
};
