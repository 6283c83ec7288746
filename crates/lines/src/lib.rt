// The line that the program prints for a sheet: its words, numbers in decimal, single blanks, a line feed at the end.
// The parts of a line are put in front of the room that is left; each function answers how many bytes it put. It is no Display: of what that prints a
// contract can speak in a String only, which allocates.
#![tactic(auto)]

ghost use Rattle.std.specs.Prelude.{◌≡◌, ◌++◌, ◌≤◌, length};
ghost use Rattle.rules.specs.Line.{decimal, order_line, no_order_line, refused_line, LineMade};
ghost use Rattle.sheets.specs.Writing.{in_front};
ghost use Rattle.lines.specs.Parts.{outlets_part, order_part, crossings_part, last_part};
ghost use Rattle.lines.specs.Told.{line_told};

use refusals::Refusal;
use search::Found;

// A word, or what else is written as it stands.
fn put_word(room: &mut [u8], word: &[u8]) -> usize
    requires { length word.now ≤ length room.old }
    ensures value { result ≡ length word.now }
    ensures room_after { room.new ≡ in_front word.now room.old }
{
    room[..word.len()].copy_from_slice(word);
    word.len()
}

// A number in decimal.
fn put_number(room: &mut [u8], n: u64) -> usize
    requires { length (decimal n) ≤ length room.old }
    ensures value { result ≡ length (decimal n) }
    ensures room_after { room.new ≡ in_front (decimal n) room.old }
{
    put_word(room, itoa::Buffer::new().format(n).as_bytes())
}

// Words as they stand, and a number behind them.
#[tactic(auto, using(crate::proofs::Laws::then_put))]
fn put_counted(room: &mut [u8], words: &[u8], n: u64) -> usize
    requires { length (words.now ++ decimal n) ≤ length room.old }
    ensures value { result ≡ length (words.now ++ decimal n) }
    ensures room_after { room.new ≡ in_front (words.now ++ decimal n) room.old }
{
    let number = put_word(room, words);
    number + put_number(&mut room[number..], n)
}

// The outlets of an order, each behind a blank.
fn put_outlets(room: &mut [u8], order: &[u8]) -> usize
    requires { length (outlets_part order.now) ≤ length room.old }
    ensures value { result ≡ length (outlets_part order.now) }
    ensures room_after { room.new ≡ in_front (outlets_part order.now) room.old }
{
    let mut at = 0;
    for outlet in order {
        at += put_counted(&mut room[at..], b" ", u64::from(*outlet));
    }
    at
}

// The last words of a line, their number, and the line's end.
#[tactic(auto, using(crate::proofs::Laws::then_put))]
fn put_last(room: &mut [u8], words: &[u8], n: u64) -> usize
    requires { length (last_part words.now n) ≤ length room.old }
    ensures value { result ≡ length (last_part words.now n) }
    ensures room_after { room.new ≡ in_front (last_part words.now n) room.old }
{
    let end = put_counted(room, words, n);
    end + put_word(&mut room[end..], b"\n")
}

// `order`, and the outlets left to right.
#[tactic(auto, using(crate::proofs::Laws::then_put), unfolding(rules::specs::Text::text))]
fn put_order(room: &mut [u8], order: &[u8]) -> usize
    requires { length (order_part order.now) ≤ length room.old }
    ensures value { result ≡ length (order_part order.now) }
    ensures room_after { room.new ≡ in_front (order_part order.now) room.old }
{
    let outlets = put_word(room, b"order");
    outlets + put_outlets(&mut room[outlets..], order)
}

// Behind them `crossings` and the count.
#[tactic(auto, unfolding(rules::specs::Text::text))]
fn put_crossings(room: &mut [u8], order: &[u8], crossings: u64) -> usize
    requires { length (crossings_part order.now crossings) ≤ length room.old }
    ensures value { result ≡ length (crossings_part order.now crossings) }
    ensures room_after { room.new ≡ in_front (crossings_part order.now crossings) room.old }
{
    let count = put_order(room, order);
    count + put_counted(&mut room[count..], b" crossings ", crossings)
}

// Success: all that, and `cases` and the count.
#[tactic(auto, using(crate::proofs::Laws::order_put), unfolding(rules::specs::Text::text))]
fn order_line(room: &mut [u8], order: &[u8], crossings: u64, cases: u64) -> usize
    requires { length (order_line order.now crossings cases) ≤ length room.old }
    ensures value { result ≡ length (order_line order.now crossings cases) }
    ensures room_after { room.new ≡ in_front (order_line order.now crossings cases) room.old }
{
    let last = put_crossings(room, order, crossings);
    last + put_last(&mut room[last..], b" cases ", cases)
}

// Number 6: `refused 6 cases` and the count. A line of its own in the rules, as the next one: what the two share is `put_last`.
#[tactic(auto, using(crate::proofs::Laws::no_order_parts), unfolding(rules::specs::Text::text))]
fn no_order_line(room: &mut [u8], cases: u64) -> usize
    requires { length (no_order_line cases) ≤ length room.old }
    ensures value { result ≡ length (no_order_line cases) }
    ensures room_after { room.new ≡ in_front (no_order_line cases) room.old }
{
    put_last(room, b"refused 6 cases ", cases)
}

// Others: `refused` and the number, which is what the rules' line is of.
#[tactic(auto, using(crate::proofs::Laws::refused_parts), unfolding(rules::specs::Text::text))]
fn refused_line(room: &mut [u8], number: u64) -> usize
    requires { length (refused_line number) ≤ length room.old }
    ensures value { result ≡ length (refused_line number) }
    ensures room_after { room.new ≡ in_front (refused_line number) room.old }
{
    put_last(room, b"refused ", number)
}

// The line of what a search answered.
#[tactic(auto, using(crate::proofs::Laws::told_refused), unfolding(rules::specs::Line::answer_line))]
fn answer_line(room: &mut [u8], answer: Result<Found, Refusal>, order: &[u8]) -> usize
    requires { length (line_told answer order.now) ≤ length room.old }
    ensures value { result ≡ length (line_told answer order.now) }
    ensures room_after { room.new ≡ in_front (line_told answer order.now) room.old }
{
    match answer {
        Ok(found) => order_line(room, order, found.crossings, found.cases),
        Err(refusal) => match refusal {
            Refusal::NoOrder { cases } => no_order_line(room, cases),
            _ => refused_line(room, refusal.number()),
        },
    }
}

// Makes the line of a sheet in front of a lent room, and answers its length. The longest line has 119 bytes. Its own
// rooms are fixed: nothing is allocated.
#[tactic(auto, using(rules::proofs::LongestLine::refused_at_most), unfolding(rules::specs::Line::own_room))]
pub fn line(sheet: &[u8], room: &mut [u8; 119]) -> usize
    ensures { LineMade sheet.now room.old (record { length = result; room = room.new }) }
{
    let mut outlets = [0u64; 32];
    let job = match sheets::read(sheet, &mut outlets) {
        Ok(job) => job,
        Err(refusal) => return refused_line(room, refusal.number()),
    };
    let n = job.outlets as usize;
    let mut order = [0u8; 32];
    let answer = search::search(job.bins, &outlets[..n], job.budget, &mut order);
    answer_line(room, answer, &order[..n])
}
