// What a pass takes of a fluid particle's own record: mass, first pressure, and velocity with its change before
// the pressures.
ghost use Rattle.std.specs.Prelude.{◌≡◌, ◌<◌};
ghost use Rattle.iisph_rules.specs.Coefficients.{particle_mass, velocity_change, advected_velocity};
ghost use Rattle.math.specs.Vector.{coordinates};
ghost use Rattle.scene_format.specs.Scene.{particle};
ghost use Rattle.scene_format.specs.SceneOf.{scene_of};
ghost use Rattle.iisph_rows.specs.Passes.{PassOn, DrivenOn, first_pressure};

use crate::over::{Drive, Over};
use math::Vec3;
use scene_format::format::{DENSITY0, acceleration, vector_width, volume, warm_pressure};
use scene_format::{Kind, read};
use scene_index::records::{head_of, record_of};

// Volume × rest density (the Rust's `Fluid::particle_mass`).
pub fn mass_of(over: Over, i: usize) -> f64
    requires { PassOn over × (i < over.n) }
    ensures { result ≡ particle_mass (particle (scene_of over.entry.scene.now) i) }
{
    let at = record_of(over.scene, over.index, Kind::Fluid, i);
    let head = head_of(over.scene, over.index, i);
    read::double(over.scene, at + volume(over.dim)) * read::double(over.scene, head + DENSITY0)
}

// 0 + (acceleration + gravity) × dt (the Rust's `predict_advection` and `integrate_and_clear_accelerations`).
pub fn velocity_change_of(over: Over, drive: Drive, i: usize) -> Vec3
    requires { DrivenOn over drive × (i < over.n) }
    ensures { let s = scene_of over.entry.scene.now in
        coordinates over.entry.dim result ≡ velocity_change s (particle s i) }
{
    let at = record_of(over.scene, over.index, Kind::Fluid, i);
    let own = read::vector(over.scene, at + acceleration(over.dim), over.dim);
    let acceleration = own.add(drive.gravity);
    let none = Vec3::zero();
    none.add(acceleration.scale(drive.dt))
}

// Velocity plus its change before the pressures.
pub fn advected_of(over: Over, drive: Drive, i: usize) -> Vec3
    requires { DrivenOn over drive × (i < over.n) }
    ensures { let s = scene_of over.entry.scene.now in
        coordinates over.entry.dim result ≡ advected_velocity s (particle s i) }
{
    let at = record_of(over.scene, over.index, Kind::Fluid, i);
    let change = velocity_change_of(over, drive, i);
    read::vector(over.scene, at + vector_width(over.dim), over.dim).add(change)
}

// Half the warm pressure, from which the Rust's `step` begins.
pub fn first_pressure(over: Over, i: usize) -> f64
    requires { PassOn over × (i < over.n) }
    ensures { result ≡ first_pressure (scene_of over.entry.scene.now) i }
{
    let at = record_of(over.scene, over.index, Kind::Fluid, i);
    read::double(over.scene, at + warm_pressure(over.dim)) * 0.5
}
