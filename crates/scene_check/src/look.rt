// A look at a contact of a list, counted.
ghost use Rattle.std.specs.Prelude.{◌≡◌, ◌+◌, ◌≤◌, ◌<◌, length};
ghost use Rattle.scene_format.specs.Format.{name_width};
ghost use Rattle.scene_format.specs.Within.{NameIs};

use scene_format::ContactName;
use scene_format::read::contact_name;

// What a look finds, and how many looks there were with it.
#[derive(Clone, Copy)]
pub struct Seen {
    pub name: ContactName,
    pub looks: usize,
}

// The name of the contact at an offset, after so many looks. The check of a list reads its contacts by nothing else.
pub fn look(s: &[u8], at: usize, looks: usize) -> Seen
    requires { (at + name_width ≤ length s.now) × (looks < length s.now) }
    ensures { NameIs s.now at result.name × (result.looks ≡ looks + 1) }
{
    Seen {
        name: contact_name(s, at),
        looks: looks + 1,
    }
}
