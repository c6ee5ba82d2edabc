// What a record of an older version is in the current one: a group's rule, and what stands in the place of an expense's day.
#![tactic(auto)]

ghost use Rattle.std.specs.Prelude.{◌≡◌, length};
ghost use Rattle.format.specs.Layout.{v1, group_size_in};
ghost use Rattle.images.specs.Meaning.{group_record_of};
ghost use Rattle.images.specs.Image.{read_group, read_rule};
ghost use Rattle.raised.specs.Day.{day_raised};

use format::GroupRecord;

// A group of version 1 as the current version has it: under rule 1 where it is present.
pub fn raised_group(part: &[u8]) -> GroupRecord
    requires { length part.now ≡ group_size_in v1 }
    ensures { result ≡ group_record_of (read_group part.now) (read_rule v1 part.now) }
{
    let counters = codec::read_counters(part);
    if fields::nobody_ever(part) {
        return GroupRecord { counters, rule: 0 };
    }
    GroupRecord {
        counters,
        rule: format::EQUAL_RULE,
    }
}

// What stands in the place of the day that an older version does not tell.
#[tactic(auto, unfolding(crate::specs::Day::day_raised))]
pub fn day_of(payer: u8) -> u16
    ensures { result ≡ day_raised payer }
{
    if payer == format::NO_EXPENSE {
        0
    } else {
        format::UNDATED
    }
}
