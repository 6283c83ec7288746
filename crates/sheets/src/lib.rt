// Job sheets: the next record at a place, reading a sheet and writing one.
// Every operation answers every input; what it answers stands in crates/rules/specs (Next, Read, Write), and how an answer tells it in specs/Told.
#![tactic(auto)]

mod reading;
mod records;
mod walking;
mod writing;

pub use reading::{Job, read};
pub use records::{Kind, Record, next};
pub use walking::{Walk, first};
pub use writing::write;
