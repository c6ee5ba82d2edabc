// The lines of a statement's text, written into a lent buffer from a place on. Each function answers the place behind what it wrote.

ghost use Rattle.std.specs.Prelude.{◌≡◌, ◌+◌, ◌≤◌, length, get_or};
ghost use Rattle.format.specs.Layout.{user_count};
ghost use Rattle.text.specs.Text.{van_text, refused_text, crew_line, standing_text, outcome_text, user_line, user_text, users_text};
ghost use Rattle.text_words.specs.Put.{Put};
ghost use Rattle.text_lines.specs.Room.{van_room, refused_room, crew_room, standing_room, outcome_room, line_room, users_room, no_line};

use crate::room::{
    CREW_ROOM, LINE_ROOM, OUTCOME_ROOM, REFUSED_ROOM, STANDING_ROOM, USERS_ROOM, VAN_ROOM,
};
use format::{Line, Totals};
use text_words::Text;
use text_words::lent::put_text;

// The line of a van: the paper's word for a replica.
pub fn put_van(out: &mut [u8], at: usize, replica: u8) -> usize
    requires { at + van_room ≤ length out.old }
    ensures { Put out.old at (van_text replica) out.new result × (result ≤ at + van_room) }
{
    let mut text = Text::<VAN_ROOM>::new();
    crate::put_van(&mut text, replica);
    put_text(out, at, &text)
}

// The line of a refusal.
pub fn put_refused(out: &mut [u8], at: usize, answer: u32) -> usize
    requires { at + refused_room ≤ length out.old }
    ensures { Put out.old at (refused_text answer) out.new result × (result ≤ at + refused_room) }
{
    let mut text = Text::<REFUSED_ROOM>::new();
    crate::put_refused(&mut text, answer);
    put_text(out, at, &text)
}

// The line of a crew: the paper's word for a group.
pub fn put_crew(out: &mut [u8], at: usize, group: u8, totals: Totals) -> usize
    requires { at + crew_room ≤ length out.old }
    ensures { Put out.old at (crew_line group totals) out.new result × (result ≤ at + crew_room) }
{
    let mut text = Text::<CREW_ROOM>::new();
    crate::put_crew(&mut text, group, totals);
    put_text(out, at, &text)
}

// The line of a user, in two halves.
pub fn put_standing(out: &mut [u8], at: usize, user: usize, counter: u16, raw: i64) -> usize
    requires { at + standing_room ≤ length out.old }
    ensures { Put out.old at (standing_text user counter raw) out.new result × (result ≤ at + standing_room) }
{
    let mut text = Text::<STANDING_ROOM>::new();
    crate::put_standing(&mut text, user, counter, raw);
    put_text(out, at, &text)
}

pub fn put_outcome(out: &mut [u8], at: usize, gift: u64, part: u64, balance: i64) -> usize
    requires { at + outcome_room ≤ length out.old }
    ensures { Put out.old at (outcome_text gift part balance) out.new result × (result ≤ at + outcome_room) }
{
    let mut text = Text::<OUTCOME_ROOM>::new();
    crate::put_outcome(&mut text, gift, part, balance);
    put_text(out, at, &text)
}

pub fn put_line(out: &mut [u8], at: usize, user: usize, line: Line) -> usize
    requires { at + line_room ≤ length out.old }
    ensures { Put out.old at (user_line user line) out.new result × (result ≤ at + line_room) }
{
    let mut text = Text::<LINE_ROOM>::new();
    crate::put_line(&mut text, user, line);
    put_text(out, at, &text)
}

// The same of one who was ever a member, else nothing.
pub fn put_user(out: &mut [u8], at: usize, user: usize, line: Line) -> usize
    requires { at + line_room ≤ length out.old }
    ensures { Put out.old at (user_text user line) out.new result × (result ≤ at + line_room) }
{
    let mut text = Text::<LINE_ROOM>::new();
    crate::put_user(&mut text, user, line);
    put_text(out, at, &text)
}

// The lines of the eight users.
pub fn put_users(out: &mut [u8], at: usize, lines: [Line; 8]) -> usize
    requires { (at + users_room ≤ length out.old) × (length lines ≡ 8) }
    ensures { Put out.old at (users_text user_count (λ u. get_or lines u no_line)) out.new result × (result ≤ at + users_room) }
{
    let mut text = Text::<USERS_ROOM>::new();
    crate::put_users(&mut text, lines);
    put_text(out, at, &text)
}
