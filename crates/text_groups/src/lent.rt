// The text of the groups of a checked image, written into a lent buffer from a place on. Each function answers the place behind what it wrote.

ghost use Rattle.std.specs.Prelude.{◌≡◌, ◌+◌, ◌≤◌, length};
ghost use Rattle.format.specs.Layout.{group_count};
ghost use Rattle.images.specs.Image.{decode, image_check};
ghost use Rattle.balance.specs.Sums.{sums_of};
ghost use Rattle.text.specs.Text.{crew_text, crews_text};
ghost use Rattle.text_words.specs.Put.{Put};
ghost use Rattle.text_lines.specs.Room.{group_room, groups_room};

use balance::Sums;
use layout::Image;
use text_lines::room::{GROUP_ROOM, GROUPS_ROOM};
use text_words::Text;
use text_words::lent::put_text;

// A group from its sums: the line of the crew and those of its users, or nothing where it is absent.
pub fn put_group(out: &mut [u8], at: usize, image: &Image, group: u8, sums: Sums) -> usize
    requires { (at + group_room ≤ length out.old) × (sums ≡ sums_of (decode image.now) ((decode image.now).rule group) group) }
    ensures { Put out.old at (crew_text (decode image.now) group) out.new result × (result ≤ at + group_room) }
{
    let mut text = Text::<GROUP_ROOM>::new();
    crate::put_group(&mut text, image, group, sums);
    put_text(out, at, &text)
}

// The sixteen groups.
pub fn put_groups(out: &mut [u8], at: usize, image: &Image) -> usize
    requires { (at + groups_room ≤ length out.old) × (image_check image.now ≡ 0) }
    ensures { Put out.old at (crews_text group_count (decode image.now)) out.new result × (result ≤ at + groups_room) }
{
    let mut text = Text::<GROUPS_ROOM>::new();
    crate::put_groups(&mut text, image);
    put_text(out, at, &text)
}
