// The contacts of a fluid particle, kind by kind, and what a contact names: the particle's number among all of its
// kind.
ghost use Rattle.std.specs.Prelude.{◌≡◌, ◌<◌};
ghost use Rattle.scene_format.specs.Format.{axes_of, starts_of, location_of};
ghost use Rattle.scene_format.specs.Scene.{fluid_size};
ghost use Rattle.scene_format.specs.SceneOf.{target_at, scene_of};
ghost use Rattle.scene_index.specs.Contacts.{TargetReady, contact_list_at};
ghost use Rattle.scene_index.specs.Index.{Indexed};

use crate::index::{BLOCK_SIZE, BOUNDARY_BASES, FLUID_BASES, MODEL_BLOCKS};
use crate::records::{head_of, record_of};
use scene_format::format::{DENSITY0, contact_counts, contact_width};
use scene_format::{Kind, read};

// The contacts of one kind that a fluid particle has: how many there are and where the first stands, with the rest
// density of the particle's fluid.
#[derive(Clone, Copy)]
pub struct ContactList {
    pub density0: f64,
    pub count: usize,
    pub at: usize,
}

// The contacts of one kind of fluid particle i, where the scene has `dim` axes.
pub fn contacts_of(scene: &[u8], index: &[usize], dim: u8, kind: Kind, i: usize) -> ContactList
    requires indexed { Indexed scene.now index.now × (dim ≡ axes_of scene.now) }
    requires i_bound { i < fluid_size (scene_of scene.now) }
    ensures { result ≡ contact_list_at kind scene.now (location_of Kind.Fluid scene.now i) }
{
    let at = record_of(scene, index, Kind::Fluid, i);
    let head = head_of(scene, index, i);
    let density0 = read::double(scene, head + DENSITY0);
    let counts = contact_counts(dim);
    let fluids = read::byte(scene, at + counts);
    match kind {
        Kind::Fluid => ContactList {
            density0,
            count: fluids,
            at: at + (counts + 2),
        },
        Kind::Boundary => {
            let count = read::byte(scene, at + (counts + 1));
            ContactList {
                density0,
                count,
                at: at + (counts + 2) + contact_width(dim) * fluids,
            }
        }
    }
}

// The number, among all of its kind, of the particle that the contact at an offset names. Because `block` has a `let`
// of its own, the compiled code finds the base by the name's first byte and adds the second.
pub fn target_of(scene: &[u8], index: &[usize], kind: Kind, at: usize) -> usize
    requires indexed { Indexed scene.now index.now }
    requires target_ready { TargetReady kind scene.now at }
    ensures { result ≡ target_at (starts_of kind scene.now) scene.now at }
{
    let name = read::contact_name(scene, at);
    let model = name.model.0;
    let particle = name.particle.0;
    let block = MODEL_BLOCKS * model + particle / BLOCK_SIZE;
    match kind {
        Kind::Fluid => index[FLUID_BASES + block] + particle % BLOCK_SIZE,
        Kind::Boundary => {
            let bases = index[BOUNDARY_BASES];
            index[bases + block] + particle % BLOCK_SIZE
        }
    }
}
