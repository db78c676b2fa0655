// What a contact of a fluid particle names, as its owner sees it: the neighbour's mass and velocity (METHOD 5.1, 5.2).
// The kind of contact is a const parameter, so that in compiled code no contact looks at its kind.
ghost use Rattle.std.specs.Prelude.{◌≡◌};
ghost use Rattle.iisph_rows.specs.Passes.{PassOn, CoefficientsReady};
ghost use Rattle.math.specs.Vector.{coordinates};
ghost use Rattle.scene_format.specs.Format.{starts_of};
ghost use Rattle.scene_format.specs.SceneOf.{contact_at, scene_of};
ghost use Rattle.scene_index.specs.Contacts.{ContactReady};
ghost use Rattle.iisph_coefficients.specs.Neighbours.{kind_of, mass_of, velocity_of};

use iisph_rows::over::Over;
use iisph_rows::rows::{ADVECTED, MASS, row_at, vector_at, volume_at};
use math::Vec3;
use scene_format::{Kind, read};
use scene_index::contacts::target_of;
use scene_index::records::record_of;

// The mass that the contact at an offset has for its owner, whose fluid has the rest density `density0`.
pub fn mass<const FLUID: bool>(over: Over, work: &[f64], density0: f64, at: usize) -> f64
    requires pass_over { PassOn over }
    requires contact_ready { let b = over.scene.now in
        ContactReady (kind_of FLUID) over.dim b at × CoefficientsReady (scene_of b) over.dim over.n work.now }
    ensures { let b = over.entry.scene.now in
        let κ = kind_of FLUID in
        result ≡ mass_of κ (scene_of b) density0 (contact_at over.entry.dim (starts_of κ b) b at) }
{
    if FLUID {
        let j = target_of(over.scene, over.index, Kind::Fluid, at);
        work[row_at(work, over.dim, j) + MASS]
    } else {
        let j = target_of(over.scene, over.index, Kind::Boundary, at);
        work[volume_at(work, over.dim, over.n, j)] * density0
    }
}

// The velocity of the particle that the contact at an offset names: of a fluid particle with its change before
// the pressures.
pub fn velocity<const FLUID: bool>(over: Over, work: &[f64], at: usize) -> Vec3
    requires pass_over { PassOn over }
    requires contact_ready { let b = over.scene.now in
        ContactReady (kind_of FLUID) over.dim b at × CoefficientsReady (scene_of b) over.dim over.n work.now }
    ensures { let b = over.entry.scene.now in
        let d = over.entry.dim in
        let κ = kind_of FLUID in
        coordinates d result ≡ velocity_of κ (scene_of b) (contact_at d (starts_of κ b) b at) }
{
    if FLUID {
        let j = target_of(over.scene, over.index, Kind::Fluid, at);
        vector_at(work, row_at(work, over.dim, j) + ADVECTED, over.dim)
    } else {
        let j = target_of(over.scene, over.index, Kind::Boundary, at);
        let record = record_of(over.scene, over.index, Kind::Boundary, j);
        read::vector(over.scene, record, over.dim)
    }
}
