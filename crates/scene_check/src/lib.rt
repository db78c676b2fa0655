// The check of a packed scene (FORMAT 2): refusals 1 to 7, and where the models of an accepted scene stand.
#![tactic(auto)]

pub mod contact_list;
mod look;
pub mod walk_names;

ghost use Rattle.scene_check.specs.Check.{ChecksTo};

use crate::walk_names::all_names;
use scene_format::Refusal;
use scene_layout::{Layout, layout_of};
use scene_walk::fields;

// The check of a packed scene, refusals 1 to 7: the layout of an accepted scene.
pub fn check(scene: &[u8]) -> Result<Layout, Refusal>
    ensures { ChecksTo scene.now result }
{
    fields(scene)?;
    let layout = layout_of(scene);
    all_names(scene, layout)?;
    Ok(layout)
}
