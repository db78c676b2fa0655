// One contact list, held against the counts of the models that it may name: refusal 7. One pass, which reads contacts
// by `look` alone and so tells how many it has read. `names` asks for a list within the scene, which its callers have
// from the walk through the fields.
ghost use Rattle.std.specs.Prelude.{◌≡◌, ◌+◌, ◌*◌, ◌≤◌, length};
ghost use Rattle.scene_format.specs.Format.{name_width};
ghost use Rattle.scene_check.specs.Looks.{names_looked};

use crate::look::look;
use scene_format::Refusal;
use scene_format::format::NAMEABLE_MODELS;

// How a walk through a list ended, and how many looks at its contacts it took.
#[derive(Clone, Copy)]
pub struct Looked {
    pub walk: Result<usize, Refusal>,
    pub looks: usize,
}

// A list of n contacts of w bytes. `counts` has the count of each model that they may name, 0 for a model that is not
// there.
pub fn names(s: &[u8], counts: &[usize; NAMEABLE_MODELS], w: usize, n: usize, from: usize) -> Looked
    requires { (name_width ≤ w) × (from + w * n ≤ length s.now) }
    ensures { result ≡ names_looked s.now counts.now w n from }
{
    let mut looks = 0;
    let mut at = from;
    for _ in 0..n {
        let seen = look(s, at, looks);
        let model = seen.name.model.0;
        let particle = seen.name.particle.0;
        if counts[model] <= particle {
            return Looked {
                walk: Err(Refusal::DanglingContact(at)),
                looks: seen.looks,
            };
        }
        looks = seen.looks;
        at += w;
    }
    Looked {
        walk: Ok(at),
        looks,
    }
}
