// The text of the groups of a checked image: the lines of one from its sums, and of all sixteen, whose sums come from one pass over the expenses; in `lent`, into a lent buffer.
#![tactic(auto)]

ghost use Rattle.std.specs.Prelude.{◌≡◌, ◌+◌, ◌≤◌, ◌++◌, length};
ghost use Rattle.format.specs.Layout.{group_count};
ghost use Rattle.images.specs.Image.{decode, image_check};
ghost use Rattle.balance.specs.Sums.{sums_of};
ghost use Rattle.text.specs.Text.{crew_text, crews_text};
ghost use Rattle.text_lines.specs.Room.{group_room, groups_room};

pub mod lent;

use balance::Sums;
use gather::Rows;
use layout::Image;
use text_words::Text;

// A group from its sums: the line of the crew and those of its users, or nothing where it is absent.
pub fn put_group<const N: usize>(text: &mut Text<N>, image: &Image, group: u8, sums: Sums)
    requires { (length text.old + group_room ≤ N) × (sums ≡ sums_of (decode image.now) ((decode image.now).rule group) group) }
    ensures text { text.new ≡ text.old ++ crew_text (decode image.now) group }
    ensures room { length text.new ≤ length text.old + group_room }
{
    let r = codec::counters_of(image, group);
    let f = r.counters;
    if kinds::nobody_in(f) {
        return;
    }
    let report = figures::report_from(r.rule, f, sums);
    let totals = report.totals;
    let lines = report.lines;
    text_lines::put_crew(text, group, totals);
    text_lines::put_users(text, lines);
}

// The sixteen groups. Each expense is looked at once, for the one group that it names, not once for each group.
pub fn put_groups<const N: usize>(text: &mut Text<N>, image: &Image)
    requires { (length text.old + groups_room ≤ N) × (image_check image.now ≡ 0) }
    ensures text { text.new ≡ text.old ++ crews_text group_count (decode image.now) }
    ensures room { length text.new ≤ length text.old + groups_room }
{
    let mut rows = Rows::new();
    rows.add_all(image);
    for g in 0..format::GROUP_COUNT {
        let sums = rows.sums_at(g);
        put_group(text, image, g as u8, sums);
    }
}
