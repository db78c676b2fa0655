// Where the index says that a record stands, and the head of a fluid particle's fluid.
ghost use Rattle.std.specs.Prelude.{◌≡◌, ◌<◌};
ghost use Rattle.scene_format.specs.Format.{location_of};
ghost use Rattle.scene_format.specs.Scene.{fluid_size, size_of};
ghost use Rattle.scene_format.specs.SceneOf.{scene_of};
ghost use Rattle.scene_index.specs.Index.{Indexed};

use crate::index::{BOUNDARY_RECORDS, HEADS, RECORDS};
use scene_format::Kind;

// The offset of the record of particle i of a kind.
pub fn record_of(scene: &[u8], index: &[usize], kind: Kind, i: usize) -> usize
    requires { Indexed scene.now index.now × (i < size_of kind (scene_of scene.now)) }
    ensures { result ≡ (location_of kind scene.now i).at }
{
    match kind {
        Kind::Fluid => {
            let records = index[RECORDS];
            index[records + i]
        }
        Kind::Boundary => {
            let records = index[BOUNDARY_RECORDS];
            index[records + i]
        }
    }
}

// The offset of the head of fluid particle i's fluid.
pub fn head_of(scene: &[u8], index: &[usize], i: usize) -> usize
    requires { Indexed scene.now index.now × (i < fluid_size (scene_of scene.now)) }
    ensures { result ≡ (location_of Kind.Fluid scene.now i).head }
{
    let heads = index[HEADS];
    index[heads + i]
}
