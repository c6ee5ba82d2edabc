// The call of an action: the image check, the record taken apart, the actor's home, then the kind.
#![tactic(auto)]

ghost use Rattle.std.specs.Prelude.{◌≡◌, true};
ghost use Rattle.rules.specs.Action.{fields_fit};
ghost use Rattle.images.specs.Image.{Checked, image_check};
ghost use Rattle.images.specs.Calls.{ruled, done, act_answer, act_image};
ghost use Rattle.reader.specs.Reading.{action_meaning};
ghost use Rattle.refusals.specs.Numbers.{code};

use layout::Image;
use reader::{Action, Deed};
use refusals::Refusal;

// One action on a checked image whose actor is at home.
// Users stay numbers below 8: what the kinds do with one asks for the number, so a struct would be opened again at each use.
#[tactic(auto, unfolding(rules::specs::Action::fields_fit, rules::specs::Tests::all_of))]
pub fn perform(image: &mut Image, action: Action, shares: [u32; 8]) -> Result<(), Refusal>
    requires { (fields_fit (action_meaning action shares) ≡ true) × Checked image.old }
    ensures code { code result ≡ ruled image.old (action_meaning action shares) }
    ensures bytes { image.new ≡ done image.old (action_meaning action shares) }
{
    let actor = action.actor;
    match action.deed {
        Deed::Found { group, rule } => membership::found_group(image, actor, group, rule),
        Deed::Add { other, group } => membership::add_member(image, actor, other, group),
        Deed::Leave { group } => leave::leave_group(image, actor, group),
        Deed::Enter { expense, day } => entries::enter_expense(image, actor, expense, shares, day),
        Deed::PutIn { group, expense } => entries::put_in(image, actor, group, expense),
        Deed::TakeOut { group, expense } => entries::take_out(image, actor, group, expense),
        Deed::Change { expense, day } => entries::change_shares(image, actor, expense, shares, day),
        Deed::Delete { expense } => edits::delete_expense(image, actor, expense),
        Deed::Acknowledge { expense } => edits::acknowledge(image, actor, expense),
        Deed::Absorb { other, expense } => edits::absorb_share(image, actor, other, expense),
    }
}

// The same of a record as it was lent, on an image that passes the check.
fn act_on(image: &mut Image, bytes: &[u8]) -> Result<(), Refusal>
    requires { image_check image.old ≡ 0 }
    ensures code { code result ≡ act_answer image.old bytes.now }
    ensures bytes { image.new ≡ act_image image.old bytes.now }
{
    let read = reader::read_action(bytes);
    let Some(action) = read.action else {
        return Err(Refusal::BadAction);
    };
    let home = header::home_of(image, action.actor);
    if home != header::replica_of(image) {
        return Err(Refusal::NotHome);
    }
    perform(image, action, read.shares)
}

// Does what an action record asks of an image, or refuses and writes nothing.
pub fn act(image: &mut [u8], bytes: &[u8]) -> Result<(), Refusal>
    ensures code { code result ≡ act_answer image.old bytes.now }
    ensures bytes { image.new ≡ act_image image.old bytes.now }
{
    image_check::check(image)?;
    let image: &mut Image = image.as_mut_array().unwrap();
    act_on(image, bytes)
}
