// Whole records read from lent bytes, from a part or at their place in an image. With fields, store and header the only code that knows
// where a field stands.
#![tactic(auto)]

ghost use Rattle.std.specs.Prelude.{◌≡◌, ◌≤◌, ◌<◌, length};
ghost use Rattle.format.specs.Layout.{group_count, expenses_at, expense_size, expense_count};
ghost use Rattle.format.specs.Bytes.{shares_of, expense_of, group_of, group_part, expense_part};
ghost use Rattle.images.specs.Meaning.{group_record_at};
ghost use Rattle.images.specs.Image.{decode};

use format::{ExpenseRecord, GroupRecord};
use layout::{GroupPart, Image};

// The eight shares of an expense or of an action.
pub fn read_shares(part: &[u8]) -> [u32; 8]
    requires { 40 ≤ length part.now }
    ensures { result ≡ shares_of part.now }
{
    std::array::from_fn(|u| numbers::read_u32(part, 8 + 4 * u))
}

pub fn read_expense(part: &[u8]) -> ExpenseRecord
    requires { expense_size ≤ length part.now }
    ensures { result ≡ expense_of part.now }
{
    ExpenseRecord {
        payer: part[0],
        group: part[1],
        deleted: part[2],
        acknowledged: part[3],
        version: numbers::read_u32(part, 4),
        shares: read_shares(part),
        day: numbers::read_u16(part, 40),
    }
}

// The eight counters of a group, which come first in every version.
pub fn read_counters(part: &[u8]) -> [u16; 8]
    requires { 16 ≤ length part.now }
    ensures { result ≡ (group_of part.now).counters }
{
    std::array::from_fn(|u| numbers::read_u16(part, 2 * u))
}

pub fn read_group(part: &GroupPart) -> GroupRecord
    ensures { result ≡ group_of part.now }
{
    GroupRecord {
        counters: read_counters(part),
        rule: numbers::read_u16(part, 16),
    }
}

// One expense and one group of an image.
pub fn expense_at(image: &Image, c: usize) -> ExpenseRecord
    requires { c < expense_count }
    ensures { result ≡ expense_of (expense_part image.now c) }
{
    read_expense(layout::expense_part(image, c))
}

pub fn group_at(image: &Image, g: usize) -> GroupRecord
    requires { g < group_count }
    ensures { result ≡ group_of (group_part image.now g) }
{
    read_group(layout::group_part(image, g))
}

// The rule of one group alone.
pub fn rule_at(image: &[u8], g: usize) -> u16
    requires { (g < group_count) × (expenses_at ≤ length image.now) }
    ensures { result ≡ (group_of (group_part image.now g)).rule }
{
    let at = format::GROUPS_AT + g * format::GROUP_SIZE;
    let end = at + format::GROUP_SIZE;
    numbers::read_u16(&image[at..end], 16)
}

// Any group number's record, zeros where there is no such group.
pub fn counters_of(image: &Image, g: u8) -> GroupRecord
    ensures { result ≡ group_record_at (decode image.now) g }
{
    let at = g as usize;
    if at < format::GROUP_COUNT {
        return group_at(image, at);
    }
    GroupRecord {
        counters: [0; 8],
        rule: 0,
    }
}
