// The lines of a statement's text, each written behind what the text has so far; in `lent`, into a lent buffer.
#![tactic(auto)]

ghost use Rattle.std.specs.Prelude.{◌≡◌, ◌+◌, ◌≤◌, ◌++◌, length, get_or};
ghost use Rattle.format.specs.Layout.{user_count};
ghost use Rattle.text.specs.Text.{ascii, van_text, refused_text, crew_line, standing_text, outcome_text, user_line, user_text, users_text};
ghost use Rattle.text_lines.specs.Room.{van_room, refused_room, crew_room, standing_room, outcome_room, line_room, users_room, no_line};

pub mod lent;
pub mod room;

use format::{Line, Totals};
use text_words::Text;

// The end of each line.
fn end_line<const N: usize>(text: &mut Text<N>)
    requires { length text.old + 1 ≤ N }
    ensures { text.new ≡ text.old ++ ascii "\n" }
{
    text.bytes(b"\n");
}

// The line of a van: the paper's word for a replica.
pub fn put_van<const N: usize>(text: &mut Text<N>, replica: u8)
    requires { length text.old + van_room ≤ N }
    ensures text { text.new ≡ text.old ++ van_text replica }
    ensures room { length text.new ≤ length text.old + van_room }
{
    text.figure(b"van ", replica as u64);
    end_line(text);
}

// The line of a refusal.
pub fn put_refused<const N: usize>(text: &mut Text<N>, answer: u32)
    requires { length text.old + refused_room ≤ N }
    ensures text { text.new ≡ text.old ++ refused_text answer }
    ensures room { length text.new ≤ length text.old + refused_room }
{
    text.figure(b"refused ", answer as u64);
    end_line(text);
}

// The line of a crew: the paper's word for a group.
pub fn put_crew<const N: usize>(text: &mut Text<N>, group: u8, totals: Totals)
    requires { length text.old + crew_room ≤ N }
    ensures text { text.new ≡ text.old ++ crew_line group totals }
    ensures room { length text.new ≤ length text.old + crew_room }
{
    text.figure(b"crew ", group as u64);
    text.figure(b" members ", totals.members as u64);
    text.figure(b" costs ", totals.expenses as u64);
    text.figure(b" gifts ", totals.gifts);
    end_line(text);
}

// The line of a user, in two halves.
pub fn put_standing<const N: usize>(text: &mut Text<N>, user: usize, counter: u16, raw: i64)
    requires { length text.old + standing_room ≤ N }
    ensures text { text.new ≡ text.old ++ standing_text user counter raw }
    ensures room { length text.new ≤ length text.old + standing_room }
{
    text.figure(b"user ", user as u64);
    text.figure(b" counter ", counter as u64);
    text.signed_figure(b" raw ", raw);
}

pub fn put_outcome<const N: usize>(text: &mut Text<N>, gift: u64, part: u64, balance: i64)
    requires { length text.old + outcome_room ≤ N }
    ensures text { text.new ≡ text.old ++ outcome_text gift part balance }
    ensures room { length text.new ≤ length text.old + outcome_room }
{
    text.figure(b" gift ", gift);
    text.figure(b" part ", part);
    text.signed_figure(b" balance ", balance);
    end_line(text);
}

pub fn put_line<const N: usize>(text: &mut Text<N>, user: usize, line: Line)
    requires { length text.old + line_room ≤ N }
    ensures text { text.new ≡ text.old ++ user_line user line }
    ensures room { length text.new ≤ length text.old + line_room }
{
    put_standing(text, user, line.counter, line.raw);
    put_outcome(text, line.gift, line.part, line.balance);
}

// The same of one who was ever a member, else nothing.
pub fn put_user<const N: usize>(text: &mut Text<N>, user: usize, line: Line)
    requires { length text.old + line_room ≤ N }
    ensures text { text.new ≡ text.old ++ user_text user line }
    ensures room { length text.new ≤ length text.old + line_room }
{
    if 0 < line.counter {
        put_line(text, user, line);
    }
}

// The lines of the eight users.
pub fn put_users<const N: usize>(text: &mut Text<N>, lines: [Line; 8])
    requires { (length text.old + users_room ≤ N) × (length lines ≡ 8) }
    ensures text { text.new ≡ text.old ++ users_text user_count (λ u. get_or lines u no_line) }
    ensures room { length text.new ≤ length text.old + users_room }
{
    for user in 0..format::USERS {
        put_user(text, user, lines[user]);
    }
}
