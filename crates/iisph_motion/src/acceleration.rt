// What the terms of a fluid particle's contacts take of the particle itself, and a of METHOD 7.2 for a boundary
// contact.
ghost use Rattle.std.specs.Prelude.{◌≡◌, ◌<◌};
ghost use Rattle.iisph_pressures.specs.IterationRows.{pressures_in, Iterating};
ghost use Rattle.iisph_rows.specs.Passes.{PassOn};
ghost use Rattle.math.specs.Vector.{coordinates};
ghost use Rattle.scene_format.specs.Format.{starts_of};
ghost use Rattle.scene_format.specs.SceneOf.{contact_at, scene_of};
ghost use Rattle.scene_index.specs.Contacts.{ContactReady};
ghost use Rattle.iisph_motion.specs.Changes.{PressureStateIs, acceleration_of};

use iisph_rows::over::Over;
use iisph_rows::rows::{MASS, column_at, density_column, pressure_slot, row_at, volume_at};
use math::Vec3;
use scene_format::format::{CONTACT_GRADIENT, DENSITY0};
use scene_format::{Kind, read};
use scene_index::contacts::target_of;
use scene_index::records::head_of;

// Of one fluid particle: the rest density of its fluid, p, rho × rho and m.
#[derive(Clone, Copy)]
pub struct PressureState {
    pub density0: f64,
    pub pressure: f64,
    pub square: f64,
    pub mass: f64,
}

// The pressure state of fluid particle i.
pub fn pressure_state_of(over: Over, work: &[f64], i: usize) -> PressureState
    requires pass_over { PassOn over × (i < over.n) }
    requires iterating { Iterating (scene_of over.scene.now) over.dim over.n work.now }
    ensures { let o = over.entry in
        PressureStateIs (scene_of o.scene.now) (pressures_in o.dim o.n work.now) i result }
{
    let dim = over.dim;
    let head = head_of(over.scene, over.index, i);
    let density0 = read::double(over.scene, head + DENSITY0);
    let row = row_at(work, dim, i);
    let rho = work[column_at(work, dim, over.n, density_column(dim), i)];
    let pressure = work[row + pressure_slot(dim)];
    let mass = work[row + MASS];
    let square = rho * rho;
    PressureState {
        density0,
        pressure,
        square,
        mass,
    }
}

// g × ((m_j × p_i) / (rho_i × rho_i)), a of METHOD 7.2, for the boundary contact at an offset of a particle with that
// state.
pub fn boundary_acceleration(over: Over, work: &[f64], at: usize, state: PressureState) -> Vec3
    requires pass_over { PassOn over × Iterating (scene_of over.scene.now) over.dim over.n work.now }
    requires contact_ready { ContactReady Kind.Boundary over.dim over.scene.now at }
    ensures { let o = over.entry in
        let b = o.scene.now in
        coordinates o.dim result
        ≡ acceleration_of (scene_of b) state (contact_at o.dim (starts_of Kind.Boundary b) b at) }
{
    let j = target_of(over.scene, over.index, Kind::Boundary, at);
    let m = work[volume_at(work, over.dim, over.n, j)] * state.density0;
    read::vector(over.scene, at + CONTACT_GRADIENT, over.dim).scale(
        m * state.pressure / state.square,
    )
}
