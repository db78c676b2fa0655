// The passes over all fluid particles, in the order of their numbers: each stores some slots of every particle in the
// work list. What a pass reads of the list it does not store, so the order of the particles is free.
ghost use Rattle.std.specs.Prelude.{◌≡◌, ◌+◌, ◌*◌, ◌<◌, ◌≤◌, length, set};
ghost use Rattle.std.proofs.lemmas.List.Edits.{sets};
ghost use Rattle.math.specs.Vector.{Axes, coordinates};
ghost use Rattle.scene_lengths.specs.Lengths.{work_width};
ghost use Rattle.iisph_rows.specs.Passes.{DrivenOn, Room};
ghost use Rattle.iisph_rows.specs.Rows.{pressure_slot, row_at, row_width, volumes_at, set_slots, stored};
ghost use Rattle.scene_format.specs.SceneOf.{scene_of};
ghost use Rattle.iisph_passes.specs.Traverse.{slot_of, row_of, Ready, coefficient_list, row_next};

use iisph_coefficients::coefficients::{CoefficientsOf, coefficients_of};
use iisph_pressures::iteration::{dij_pjl_of, next_pressure_of};
use iisph_pressures::quotients::{quotient_of, share_of};
use iisph_rows::over::{Drive, Over};
use iisph_rows::records::{advected_of, first_pressure, mass_of};
use iisph_rows::rows::{
    DIJ_PJL, MASS, aii_column, column_at, density_column, next_pressure_column, predicted_column,
    pressure_slot, put_vector, quotient_column, row_at,
};
use math::Vec3;

// What is stored of every particle.
#[derive(Clone, Copy)]
pub enum Pass {
    // Fluid::particle_mass; predict_advection, integrate_and_clear_accelerations.
    Advection,
    // compute_densities, compute_predicted_densities, compute_dii, compute_aii; the first pressures.
    Coefficients,
    // ((-m) × p) / (rho × rho), which compute_dij_pjl takes of every contact.
    Quotients,
    // compute_dij_pjl.
    DijPjl,
    // compute_next_pressures, beside the old pressures.
    NextPressures,
    // The next pressures take the old ones' place.
    Exchange,
    // p / (rho × rho), which compute_velocity_changes takes of every contact.
    Shares,
}

// A double of fluid particle i of n, in a column.
fn put_column(work: &mut [f64], dim: u8, n: usize, column: usize, i: usize, x: f64)
    requires { (column < work_width dim) × (i < n) × (volumes_at dim n ≤ length work.old) }
    ensures { work.new ≡ set work.old (column * n + i) x }
{
    let at = column_at(work, dim, n, column, i);
    work[at] = x;
}

// A double of fluid particle i of n and a vector right behind it, from a slot of its row on.
fn put_in_row(work: &mut [f64], dim: u8, n: usize, i: usize, slot: usize, x: f64, v: Vec3)
    requires axes { Axes dim × (i < n) × (volumes_at dim n ≤ length work.old) }
    requires dim_bound { slot + 1 + dim ≤ row_width dim }
    ensures { work.new
        ≡ sets (set work.old (row_at dim i + slot) x) (row_at dim i + (slot + 1)) (coordinates dim v) }
{
    let row = row_at(work, dim, i);
    let place = row + slot;
    let behind = row + (slot + 1);
    work[place] = x;
    put_vector(work, behind, v, dim);
}

// A pressure and the coefficients of fluid particle i of n: the pressure and dii in its row, the others in columns.
fn put_coefficients(work: &mut [f64], dim: u8, n: usize, i: usize, c: CoefficientsOf, pressure: f64)
    requires { Axes dim × (i < n) × (volumes_at dim n ≤ length work.old) }
    ensures { work.new
        ≡ set_slots dim n i (pressure_slot dim) (coefficient_list dim c pressure) work.old }
{
    let dii = c.dii;
    put_in_row(work, dim, n, i, pressure_slot(dim), pressure, dii);
    put_column(work, dim, n, density_column(dim), i, c.density);
    put_column(work, dim, n, predicted_column(dim), i, c.predicted_density);
    put_column(work, dim, n, aii_column(dim), i, c.aii);
}

// The next pressure of fluid particle i of n, in the old one's place.
fn exchange(work: &mut [f64], dim: u8, n: usize, i: usize)
    requires { Axes dim × (i < n) × (volumes_at dim n ≤ length work.old) }
    ensures { let l = work.old in work.new ≡ set l (row_at dim i + pressure_slot dim) (row_next dim l n i) }
{
    let row = row_at(work, dim, i);
    let slot = row + pressure_slot(dim);
    let next = column_at(work, dim, n, next_pressure_column(dim), i);
    work[slot] = work[next];
}

// The slots of fluid particle i.
fn update_row(pass: Pass, over: Over, drive: Drive, work: &mut [f64], i: usize)
    requires driven_pass { DrivenOn over drive × (i < over.n) }
    requires room { let s = scene_of over.scene.now in
        Room s over.dim over.n work.old × Ready s over.dim over.n work.old pass }
    ensures { let o = over.entry in
        let row = row_of o.dim (scene_of o.scene.now) work.old pass i in
        work.new ≡ set_slots o.dim o.n i (slot_of o.dim pass) row work.old }
{
    let Over { dim, n, .. } = over;
    match pass {
        Pass::Advection => {
            let m = mass_of(over, i);
            let v = advected_of(over, drive, i);
            put_in_row(work, dim, n, i, MASS, m, v);
        }
        Pass::Coefficients => {
            let c = coefficients_of(over, work, drive.dt, i);
            let pressure = first_pressure(over, i);
            put_coefficients(work, dim, n, i, c, pressure);
        }
        Pass::Quotients => {
            let q = quotient_of(work, dim, n, i);
            put_column(work, dim, n, quotient_column(dim), i, q);
        }
        Pass::DijPjl => {
            let d = dij_pjl_of(over, work, drive.dt, i);
            let row = row_at(work, dim, i);
            put_vector(work, row + DIJ_PJL, d, dim);
        }
        Pass::NextPressures => {
            let next = next_pressure_of(over, work, drive.dt, i);
            put_column(work, dim, n, quotient_column(dim), i, next.term);
            put_column(work, dim, n, next_pressure_column(dim), i, next.pressure);
        }
        Pass::Exchange => exchange(work, dim, n, i),
        Pass::Shares => {
            let share = share_of(work, dim, n, i);
            put_column(work, dim, n, quotient_column(dim), i, share);
        }
    }
}

// The slots of all fluid particles, one particle after the other.
fn update_rows(pass: Pass, over: Over, drive: Drive, work: &mut [f64])
    requires driven_pass { DrivenOn over drive }
    requires room { let s = scene_of over.scene.now in
        Room s over.dim over.n work.old × Ready s over.dim over.n work.old pass }
    ensures { let o = over.entry in
        let row = row_of o.dim (scene_of o.scene.now) work.old pass in
        work.new ≡ stored o.dim o.n (slot_of o.dim pass) row work.old }
{
    for i in 0..over.n {
        update_row(pass, over, drive, work, i);
    }
}

// A pass over the fluid particles. Where there are none nothing is called: what a call hands on would cost an iteration
// over an empty scene twice as much.
#[inline(always)]
pub fn traverse(pass: Pass, over: Over, drive: Drive, work: &mut [f64])
    requires driven_pass { DrivenOn over drive }
    requires room { let s = scene_of over.scene.now in
        Room s over.dim over.n work.old × Ready s over.dim over.n work.old pass }
    ensures { let o = over.entry in
        let row = row_of o.dim (scene_of o.scene.now) work.old pass in
        work.new ≡ stored o.dim o.n (slot_of o.dim pass) row work.old }
{
    if over.n > 0 {
        update_rows(pass, over, drive, work);
    }
}
