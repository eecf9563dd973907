// Document 01, "Lent besides the image": the rule order.
ghost use Rattle.std.specs.Prelude.{◌≡◌, ◌≤◌, length};
ghost use Rattle.hume.specs.Image.{program};
ghost use Rattle.hume.specs.Refusals.{permutation, order_ok, image_refusal};

use crate::image::byte_at;
use crate::layout;

// "a permutation of 0..count-1": no word is too large and none stands twice.
fn permutation_ok(s: &[u32]) -> bool
    requires { length s.now ≤ 16 }
    ensures { result ≡ permutation (length s.now) s.now }
{
    let mut seen = [false; 16];
    for &x in s {
        let x = x as usize;
        if s.len() <= x || seen[x] {
            return false;
        }
        seen[x] = true;
    }
    true
}

// "Rule order: one word per rule, ruleset after ruleset; in each ruleset a permutation of 0..count-1."
pub(crate) fn order_ok(image: &[u8], order: &[u32]) -> bool
    requires { image_refusal image.now ≡ 0 }
    ensures { result ≡ order_ok (program image.now) order.now }
{
    let rulesets = byte_at(image, 7);
    let starts = layout(image);
    if order.len() != starts[rulesets].order {
        return false;
    }
    for r in 0..rulesets {
        if !permutation_ok(&order[starts[r].order..starts[r + 1].order]) {
            return false;
        }
    }
    true
}
