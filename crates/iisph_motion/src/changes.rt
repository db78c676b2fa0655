// The velocity change of a fluid particle (METHOD 7.2; the Rust's compute_velocity_changes): from the change before the
// pressures on, over the fluid contacts of the particle and then over its boundary contacts.
ghost use Rattle.std.specs.Prelude.{◌≡◌, ◌<◌};
ghost use Rattle.iisph_pressures.specs.IterationRows.{pressures_in, Iterating};
ghost use Rattle.iisph_rows.specs.Passes.{PassOn, DrivenOn};
ghost use Rattle.iisph_rules.specs.Coefficients.{coefficients};
ghost use Rattle.iisph_rules.specs.Step.{final_velocity_change};
ghost use Rattle.math.specs.Vector.{coordinates};
ghost use Rattle.scene_format.specs.SceneOf.{scene_of};
ghost use Rattle.scene_index.specs.Contacts.{ContactsReady, over_list};
ghost use Rattle.iisph_motion.specs.Changes.{fluid_change, boundary_change, less_by, ChangesReady};

use crate::acceleration::{PressureState, boundary_acceleration, pressure_state_of};
use iisph_rows::over::{Drive, Over};
use iisph_rows::records::velocity_change_of;
use iisph_rows::rows::{MASS, column_at, quotient_column, row_at};
use math::Vec3;
use scene_format::format::{CONTACT_GRADIENT, contact_width};
use scene_format::{Kind, read};
use scene_index::contacts::{ContactList, contacts_of, target_of};

// What is left of a velocity change after the fluid contacts of a particle whose p / (rho × rho) is `own`.
fn fluid_changes(over: Over, work: &[f64], list: ContactList, own: f64, dt: f64, from: Vec3) -> Vec3
    requires pass_over { PassOn over × ChangesReady (scene_of over.scene.now) over.dim over.n work.now }
    requires contacts_ready { ContactsReady Kind.Fluid over.dim over.scene.now list }
    ensures { let o = over.entry in
        let b = o.scene.now in
        let change = fluid_change (scene_of b) (pressures_in o.dim o.n work.now) dt own in
        coordinates o.dim result ≡ over_list Kind.Fluid o.dim b list (less_by change) (coordinates o.dim from) }
{
    let dim = over.dim;
    let at = list.at;
    let width = contact_width(dim);
    let shares = quotient_column(dim);
    let mut change = from;
    for k in 0..list.count {
        let c = at + width * k;
        let j = target_of(over.scene, over.index, Kind::Fluid, c);
        let m = work[row_at(work, dim, j) + MASS];
        let share = work[column_at(work, dim, over.n, shares, j)];
        change = change.sub(read::vector(over.scene, c + CONTACT_GRADIENT, dim).scale(
            dt * m * (own + share),
        ));
    }
    change
}

// What is left of a velocity change after the boundary contacts of a particle with that state.
fn boundary_changes(
    over: Over,
    work: &[f64],
    list: ContactList,
    state: PressureState,
    dt: f64,
    from: Vec3,
) -> Vec3
    requires pass_over { PassOn over × Iterating (scene_of over.scene.now) over.dim over.n work.now }
    requires contacts_ready { ContactsReady Kind.Boundary over.dim over.scene.now list }
    ensures { let o = over.entry in
        let b = o.scene.now in
        let change = boundary_change (scene_of b) dt state in
        coordinates o.dim result ≡ over_list Kind.Boundary o.dim b list (less_by change) (coordinates o.dim from) }
{
    let at = list.at;
    let width = contact_width(over.dim);
    let mut change = from;
    for k in 0..list.count {
        let c = at + width * k;
        change = change.sub(boundary_acceleration(over, work, c, state).scale(dt));
    }
    change
}

// The velocity change of fluid particle i, where the shares stand in their column.
pub(crate) fn final_change_of(over: Over, work: &[f64], drive: Drive, i: usize) -> Vec3
    requires driven_pass { DrivenOn over drive × (i < over.n) }
    requires changes_ready { ChangesReady (scene_of over.scene.now) over.dim over.n work.now }
    ensures { let o = over.entry in
        let s = scene_of o.scene.now in
        coordinates o.dim result ≡ final_velocity_change s (coefficients s) (pressures_in o.dim o.n work.now) i }
{
    let dim = over.dim;
    let fluid = contacts_of(over.scene, over.index, dim, Kind::Fluid, i);
    let boundary = contacts_of(over.scene, over.index, dim, Kind::Boundary, i);
    let state = pressure_state_of(over, work, i);
    let share = work[column_at(work, dim, over.n, quotient_column(dim), i)];
    let first = velocity_change_of(over, drive, i);
    let part = fluid_changes(over, work, fluid, share, drive.dt, first);
    boundary_changes(over, work, boundary, state, drive.dt, part)
}
