// What was tried, and the failures of each kind.
use std::fmt;

// A count that stays far below the largest number; nothing is proved of it.
#[derive(Clone, Copy, Default)]
pub struct Count(u64);

impl Count {
    pub fn add(&mut self, more: u64) {
        self.0 = self.0.wrapping_add(more);
    }

    // One more where a check failed.
    pub fn add_if(&mut self, failed: bool) {
        self.add(u64::from(failed));
    }
}

impl fmt::Display for Count {
    fn fmt<W: fmt::Write>(&self, f: &mut fmt::Formatter<W>) -> fmt::Result {
        write!(f, "{}", self.0)
    }
}

#[derive(Clone, Copy, Default)]
pub struct Tally {
    pub rails: Count,
    pub searches: Count,
    pub pairs: Count,
    pub answers: Count,
    pub orders: Count,
    pub counts: Count,
    pub budgets: Count,
    pub rooms: Count,
    pub cases: Count,
}
