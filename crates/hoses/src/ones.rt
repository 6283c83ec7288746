// The ones of a number, one after another, the lowest first: the bins of a set, or the outlets in a mask.
ghost use Rattle.std.specs.Prelude.{◌≡◌};
ghost use Rattle.std.specs.Iterator.{at_most};
ghost use Rattle.hoses.specs.Ones.{LowestFirst};

#[derive(Clone, Copy)]
pub struct Ones {
    pub rest: u64,
}

impl Ones {
    pub fn of(set: u64) -> Ones
        ensures { result.rest ≡ set }
    {
        Ones { rest: set }
    }
}

impl Iterator for Ones {
    type Item = usize;

    ghost next_gives = { λ before one after. LowestFirst before.rest one after.rest };

    ghost remaining = { λ ones. at_most ones.rest };

    fn next(&mut self) -> Option<usize> {
        if self.rest == 0 {
            return None;
        }
        let lowest = self.rest.trailing_zeros() as usize;
        self.rest &= self.rest - 1;
        Some(lowest)
    }
}
