// What the lines show besides words and numbers: rows of bytes, and of outlets.
use hoses::Ones;
use std::fmt;

// What a place of a lent room holds before a call: no order, no sheet and no outlet here has it.
pub const BEFORE: u8 = 170;

pub const SET_BEFORE: u64 = 170;

// A set by its bins, as `{ 0 2 3 }`.
#[derive(Clone, Copy)]
struct Set(u64);

impl fmt::Display for Set {
    fn fmt<W: fmt::Write>(&self, f: &mut fmt::Formatter<W>) -> fmt::Result {
        write!(f, "{{")?;
        for bin in Ones::of(self.0) {
            write!(f, " {bin}")?;
        }
        write!(f, " }}")
    }
}

// The places of a row, each behind a blank; one that a call left as it was is a `-`.
fn places<W: fmt::Write, T: Copy + PartialEq, D: fmt::Display + Drop, F: Fn(T) -> D>(
    f: &mut fmt::Formatter<W>,
    row: &[T],
    before: T,
    shown: F,
) -> fmt::Result
    requires { F.IsAlwaysCallable shown }
{
    for place in row {
        if *place == before {
            write!(f, " -")?;
        } else {
            write!(f, " {}", shown(*place))?;
        }
    }
    Ok(())
}

// An order, a sheet, or a room for one.
#[derive(Clone, Copy)]
pub struct Bytes<'a>(pub &'a [u8]);

impl fmt::Display for Bytes<'_> {
    fn fmt<W: fmt::Write>(&self, f: &mut fmt::Formatter<W>) -> fmt::Result {
        places(f, self.0, BEFORE, |byte| byte)
    }
}

// The outlets of a rail, or a room for them.
#[derive(Clone, Copy)]
pub struct Outlets<'a>(pub &'a [u64]);

impl fmt::Display for Outlets<'_> {
    fn fmt<W: fmt::Write>(&self, f: &mut fmt::Formatter<W>) -> fmt::Result {
        places(f, self.0, SET_BEFORE, |outlet| Set(outlet))
    }
}
