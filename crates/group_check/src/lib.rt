// The check of the groups: each one's rule fits it, in one pass that keeps who was ever a member of each.
#![tactic(auto)]

ghost use Rattle.std.specs.Prelude.{◌≡◌, true, false, cond, ◌≤◌, ◌<◌, length, Some, None, MatchOption};
ghost use Rattle.format.specs.Layout.{group_count, expenses_at};
ghost use Rattle.rules.specs.Sound.{rule_fits, rules_fit};
ghost use Rattle.images.specs.Image.{decode};
ghost use Rattle.record_check.specs.Sets.{known_set, Knows};

// Those who were ever members of a group, if its rule fits it. A rule of 0 is told apart first: it is most groups', and then two words of zeros are
// all there is to see.
pub fn group_set(image: &[u8], g: usize) -> Option<u16>
    requires { (g < group_count) × (expenses_at ≤ length image.now) }
    ensures { result ≡ cond (rule_fits ((decode image.now).counter g) ((decode image.now).rule g)) (Some (known_set ((decode image.now).counter g))) None }
{
    let at = format::GROUPS_AT + g * format::GROUP_SIZE;
    let end = at + format::GROUP_SIZE;
    let rule = codec::rule_at(image, g);
    if rule == 0 {
        if fields::nobody_ever(&image[at..end]) {
            return Some(0);
        }
        return None;
    }
    if format::USE_RULE < rule {
        return None;
    }
    let k = record_check::known_in(&image[at..end]);
    if k == 0 {
        return None;
    }
    Some(k)
}

// Who was ever a member of each group, if every group's rule fits it. Only the groups are looked at, which version 2 has in the same places.
pub fn known_sets(image: &[u8]) -> Option<[u16; 16]>
    requires { expenses_at ≤ length image.now }
    ensures { MatchOption result (rules_fit (decode image.now) ≡ false) (λ known. (rules_fit (decode image.now) ≡ true) × Knows known (decode image.now).counter) }
{
    let mut known = [0; format::GROUP_COUNT];
    for g in 0..format::GROUP_COUNT {
        let set = group_set(image, g)?;
        known[g] = set;
    }
    Some(known)
}
