// The checks of images of older versions, 2 to 5, which raising makes of an image of the right length: the tests are those of the current version; where
// groups and expenses stand, and that an expense has forty bytes, is the older versions'.
#![tactic(auto)]

ghost use Rattle.std.specs.Prelude.{◌≡◌, length};
ghost use Rattle.format.specs.Layout.{v1, v2, image_size_in};
ghost use Rattle.images.specs.Image.{decode_in, image_check_in};
ghost use Rattle.record_check.specs.Sets.{Knows};
ghost use Rattle.refusals.specs.Numbers.{fault_code};

use refusals::Fault;

// Who was ever a member of each group of version 1. A `for`, since by `from_fn` the proof did not close: its clause does not tie what each call saw.
pub fn known_sets(old: &[u8]) -> [u16; 16]
    requires { length old.now ≡ image_size_in v1 }
    ensures { Knows result (decode_in v1 old.now).counter }
{
    let mut known = [0; format::GROUP_COUNT];
    for g in 0..format::GROUP_COUNT {
        let at = format::GROUPS_AT + g * format::GROUP_SIZE_1;
        let end = at + format::GROUP_SIZE_1;
        known[g] = record_check::known_in(&old[at..end]);
    }
    known
}

// The first fault, 2 to 5, of an image of version 1, whose groups have no rule that might not fit.
pub fn check_1(old: &[u8]) -> Result<(), Fault>
    requires { length old.now ≡ image_size_in v1 }
    ensures { fault_code result ≡ image_check_in v1 old.now }
{
    image_check::header_fault(old, format::VERSION_1)?;
    let known = Some(known_sets(old));
    image_check::check_as::<{ format::EXPENSE_SIZE_1 }>(
        old,
        format::VERSION_1,
        format::EXPENSES_AT_1,
        known,
    )
}

// The same of version 2, whose groups stand as in the current version.
pub fn check_2(old: &[u8]) -> Result<(), Fault>
    requires { length old.now ≡ image_size_in v2 }
    ensures { fault_code result ≡ image_check_in v2 old.now }
{
    image_check::header_fault(old, format::VERSION_2)?;
    let known = group_check::known_sets(old);
    image_check::check_as::<{ format::EXPENSE_SIZE_1 }>(
        old,
        format::VERSION_2,
        format::EXPENSES_AT,
        known,
    )
}
