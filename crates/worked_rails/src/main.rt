// The rails worked by hand, and the edges of the limits: each is run, and its whole answer printed on a line, with what the lent room then holds.
// A `-` stands for a place of a lent room that the call left as it was.
#![tactic(auto)]

mod answers;
mod asked;
mod limits;
mod on_sheets;
mod print;
mod table;
mod typed;

use std::io;

fn main(rt: HostRuntime) -> io::Result<()> {
    table::rows(&rt)?;
    limits::sizes(&rt)?;
    limits::budgets(&rt)?;
    limits::rooms(&rt)?;
    limits::check_order(&rt)?;
    typed::pairs(&rt)?;
    typed::orders(&rt)?;
    typed::no_orders(&rt)?;
    on_sheets::three(&rt)?;
    on_sheets::walked(&rt)?;
    on_sheets::cut(&rt)?;
    on_sheets::heads(&rt)?;
    on_sheets::outlets(&rt)?;
    on_sheets::long_records(&rt)?;
    on_sheets::longest(&rt)?;
    on_sheets::check_order(&rt)
}
