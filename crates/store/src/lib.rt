// Whole records, or one field of a record, written to lent bytes: to a part or at their place in an image. With fields, codec and header the
// only code that knows where a field stands.
#![tactic(auto)]

ghost use Rattle.std.specs.Prelude.{◌≡◌, ◌++◌, ◌+◌, ◌≤◌, ◌<◌, length, set};
ghost use Rattle.std.proofs.lemmas.List.Edits.{sets};
ghost use Rattle.format.specs.Layout.{group_size, group_count, expense_size, expense_count, group_place, expense_place};
ghost use Rattle.format.specs.Bytes.{le16, share_bytes, expense_of, bytes_of, counter_bytes, group_bytes_of, splice};
ghost use Rattle.store.specs.Changed.{record_with_acknowledged};

use format::{ExpenseRecord, GroupRecord};
use layout::Image;

// Eight numbers, one behind the other. One function for shares and counters would take their bytes by a closure with a clause: no plainer than two loops.
pub fn put_shares(part: &mut [u8], s: [u32; 8])
    requires { expense_size ≤ length part.old }
    ensures { part.new ≡ sets part.old 8 (share_bytes s) }
{
    for u in 0..8 {
        numbers::put_u32(part, 8 + 4 * u, s[u]);
    }
}

pub fn put_expense(part: &mut [u8], e: ExpenseRecord)
    requires { expense_size ≤ length part.old }
    ensures { part.new ≡ sets part.old 0 (bytes_of e) }
{
    let s = e.shares;
    numbers::put(part, 0, [e.payer, e.group, e.deleted, e.acknowledged]);
    numbers::put_u32(part, 4, e.version);
    put_shares(part, s);
    numbers::put_u16(part, 40, e.day);
}

pub fn put_counters(part: &mut [u8], s: [u16; 8])
    requires { group_size ≤ length part.old }
    ensures { part.new ≡ sets part.old 0 (counter_bytes s) }
{
    for u in 0..8 {
        numbers::put_u16(part, 2 * u, s[u]);
    }
}

pub fn set_group(part: &mut [u8], g: GroupRecord)
    requires { group_size ≤ length part.old }
    ensures { part.new ≡ sets part.old 0 (group_bytes_of g) }
{
    let s = g.counters;
    put_counters(part, s);
    numbers::put_u16(part, 16, g.rule);
}

// The whole of a part. Here and below a part is a slice: of a part of an image that `as_mut_array` lent, a proof knows no more than its length
// once it is handed back.
pub fn put_record(part: &mut [u8], e: ExpenseRecord)
    requires { length part.old ≡ expense_size }
    ensures { part.new ≡ bytes_of e }
{
    put_expense(part, e);
}

// The whole of a part: an expense of an older version, which is forty bytes, and a day behind it.
pub fn put_dated(part: &mut [u8], old: &[u8], day: u16)
    requires { (length part.old ≡ expense_size) × (length old.now ≡ 40) }
    ensures { part.new ≡ old.now ++ le16 day }
{
    numbers::copy_forty(old, part);
    numbers::put_u16(part, 40, day);
}

// Other acknowledgements in a part, of which nothing else changes.
pub fn put_acknowledged(part: &mut [u8], acknowledged: u8)
    requires { length part.old ≡ expense_size }
    ensures { part.new ≡ bytes_of (record_with_acknowledged (expense_of part.old) acknowledged) }
{
    part[3] = acknowledged;
}

pub fn put_group(part: &mut [u8], g: GroupRecord)
    requires { length part.old ≡ group_size }
    ensures { part.new ≡ group_bytes_of g }
{
    set_group(part, g);
}

// One expense and one group of an image.
pub fn write_expense(image: &mut Image, c: usize, e: ExpenseRecord)
    requires { c < expense_count }
    ensures { image.new ≡ splice image.old (expense_place c) (bytes_of e) }
{
    let at = format::EXPENSES_AT + c * format::EXPENSE_SIZE;
    let end = at + format::EXPENSE_SIZE;
    put_record(&mut image[at..end], e);
}

pub fn write_group(image: &mut Image, g: usize, r: GroupRecord)
    requires { g < group_count }
    ensures { image.new ≡ splice image.old (group_place g) (group_bytes_of r) }
{
    let at = format::GROUPS_AT + g * format::GROUP_SIZE;
    let end = at + format::GROUP_SIZE;
    put_group(&mut image[at..end], r);
}

// Another payer of one expense of an image, of which nothing else changes.
pub fn put_payer(image: &mut Image, c: usize, payer: u8)
    requires { c < expense_count }
    ensures { image.new ≡ set image.old (expense_place c) payer }
{
    let at = format::EXPENSES_AT + c * format::EXPENSE_SIZE;
    image[at] = payer;
}
