// An image as an array of its bytes, and the part of it that each group and each expense has.
#![tactic(auto)]

ghost use Rattle.std.specs.Prelude.{◌≡◌, ◌<◌};
ghost use Rattle.format.specs.Layout.{group_count, expense_count};
ghost use Rattle.format.specs.Bytes.{group_part, expense_part};

// An image of the right length: who has one need not ask for its length.
pub type Image = [u8; format::IMAGE_SIZE];

pub type GroupPart = [u8; format::GROUP_SIZE];

pub type ExpensePart = [u8; format::EXPENSE_SIZE];

pub fn group_part(image: &Image, g: usize) -> &GroupPart
    requires { g < group_count }
    ensures { result.now ≡ group_part image.now g }
{
    let at = format::GROUPS_AT + g * format::GROUP_SIZE;
    image[at..at + format::GROUP_SIZE].as_array().unwrap()
}

pub fn expense_part(image: &Image, c: usize) -> &ExpensePart
    requires { c < expense_count }
    ensures { result.now ≡ expense_part image.now c }
{
    let at = format::EXPENSES_AT + c * format::EXPENSE_SIZE;
    image[at..at + format::EXPENSE_SIZE].as_array().unwrap()
}
