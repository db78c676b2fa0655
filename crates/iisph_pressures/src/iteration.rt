// What an iteration makes of a fluid particle (METHOD 6.1 to 6.3): compute_dij_pjl and compute_next_pressures of the
// Rust, particle by particle. Whatever does not depend on a contact is computed once per particle.
ghost use Rattle.std.specs.Prelude.{◌≡◌, ◌+◌, ◌*◌, ◌<◌, ◌≤◌, length};
ghost use Rattle.iisph_rows.specs.Passes.{PassOn, TimedOn};
ghost use Rattle.iisph_rows.specs.Rows.{row_at, row_width, volumes_at, element_at};
ghost use Rattle.iisph_rules.specs.Coefficients.{coefficients};
ghost use Rattle.iisph_rules.specs.Iteration.{dij_pjl, error_term, next_pressure};
ghost use Rattle.math.specs.Real.{+0};
ghost use Rattle.math.specs.Vector.{Axes, coordinates, origin};
ghost use Rattle.scene_format.specs.Bytes.{AllFinite, vector_at};
ghost use Rattle.scene_format.specs.Format.{gradient_offset};
ghost use Rattle.scene_format.specs.Scene.{particle};
ghost use Rattle.scene_format.specs.SceneOf.{scene_of};
ghost use Rattle.scene_index.specs.Contacts.{ContactsReady, over_list};
ghost use Rattle.scene_lengths.specs.Lengths.{work_width};
ghost use Rattle.iisph_pressures.specs.IterationRows.{pressures_in, dijs_in, with_dij, row_term, fluid_term};
ghost use Rattle.iisph_pressures.specs.IterationRows.{boundary_term, with_term, next_from, DijReady, Iterating};
ghost use Rattle.iisph_pressures.specs.IterationRows.{OwnerIs, NextIs};

use iisph_rows::over::Over;
use iisph_rows::rows::{
    DIJ_PJL, MASS, aii_column, column_at, density_column, dii_slot, predicted_column,
    pressure_slot, quotient_column, row_at, vector_at, volume_at,
};
use math::{PLANE, SPACE, Vec3, magnitude};
use scene_format::format::{CONTACT_GRADIENT, contact_width};
use scene_format::{Criterion, Kind, read};
use scene_index::contacts::{ContactList, contacts_of, target_of};

// What the fluid terms of a pressure sum take of the particle itself: its dij_pjl, e of METHOD 5.6, and its pressure.
#[derive(Clone, Copy)]
pub struct Owner {
    pub dij: Vec3,
    pub factor: f64,
    pub pressure: f64,
}

// A next pressure with its error term.
#[derive(Clone, Copy)]
pub struct Next {
    pub pressure: f64,
    pub term: f64,
}

// The sum of compute_dij_pjl over a list of fluid contacts: g × the quotient of the particle that a contact names.
fn dij_sum(over: Over, work: &[f64], list: ContactList) -> Vec3
    requires pass_over { PassOn over × DijReady (scene_of over.scene.now) over.dim over.n work.now }
    requires contacts_ready { ContactsReady Kind.Fluid over.dim over.scene.now list }
    ensures { let o = over.entry in
        let b = o.scene.now in
        let ps = pressures_in o.dim o.n work.now in
        coordinates o.dim result ≡ over_list Kind.Fluid o.dim b list (with_dij (scene_of b) ps) (origin o.dim) }
{
    let dim = over.dim;
    let at = list.at;
    let width = contact_width(dim);
    let quotients = quotient_column(dim);
    let mut sum = Vec3::zero();
    for k in 0..list.count {
        let c = at + width * k;
        let j = target_of(over.scene, over.index, Kind::Fluid, c);
        let g = read::vector(over.scene, c + CONTACT_GRADIENT, dim);
        let place = column_at(work, dim, over.n, quotients, j);
        sum = sum.add(g.scale(work[place]));
    }
    sum
}

// The dij_pjl of fluid particle i, where the quotients stand in their column.
pub fn dij_pjl_of(over: Over, work: &[f64], dt: f64, i: usize) -> Vec3
    requires timed_pass { TimedOn over dt × (i < over.n) }
    requires dij_ready { DijReady (scene_of over.scene.now) over.dim over.n work.now }
    ensures { let o = over.entry in
        let s = scene_of o.scene.now in
        coordinates o.dim result ≡ dij_pjl s (coefficients s) (pressures_in o.dim o.n work.now) (particle s i) }
{
    let list = contacts_of(over.scene, over.index, over.dim, Kind::Fluid, i);
    dij_sum(over, work, list).scale(dt * dt)
}

// What a fluid contact with gradient g adds to the pressure sum of its owner, where it names row j.
fn row_term(work: &[f64], dim: u8, j: usize, owner: Owner, g: Vec3) -> f64
    requires { Axes dim × (row_at dim j + row_width dim ≤ length work.now) }
    ensures { result ≡ row_term dim work.now j owner (coordinates dim g) }
{
    let row = row_at(work, dim, j);
    let dii = row + dii_slot(dim);
    let pressure = row + pressure_slot(dim);
    let m = work[row + MASS];
    let d = owner.dij;
    let own = d.sub(vector_at(work, dii, dim).scale(work[pressure]));
    let other = vector_at(work, row + DIJ_PJL, dim).sub(
        g.scale(owner.factor).scale(owner.pressure),
    );
    m * own.sub(other).dot(g, dim)
}

// The same for the contact at an offset. By the number of axes the compiler makes two loops of the one that calls it,
// each with that number as a constant.
fn fluid_term(scene: &[u8], work: &[f64], dim: u8, j: usize, owner: Owner, c: usize) -> f64
    requires axes { Axes dim × AllFinite scene.now (c + gradient_offset) dim }
    requires dim_in_bounds { row_at dim j + row_width dim ≤ length work.now }
    ensures { result ≡ row_term dim work.now j owner (vector_at dim scene.now (c + gradient_offset)) }
{
    if dim == SPACE {
        let g = read::vector(scene, c + CONTACT_GRADIENT, SPACE);
        return row_term(work, SPACE, j, owner, g);
    }
    let g = read::vector(scene, c + CONTACT_GRADIENT, PLANE);
    row_term(work, PLANE, j, owner, g)
}

// Of fluid particle i of n: what the pressure sum takes of it.
fn owner_of(work: &[f64], dim: u8, n: usize, dt: f64, i: usize) -> Owner
    requires { Axes dim × (i < n) × (volumes_at dim n ≤ length work.now) }
    ensures { OwnerIs dim work.now n i dt result }
{
    let row = row_at(work, dim, i);
    let slot = row + pressure_slot(dim);
    let density = column_at(work, dim, n, density_column(dim), i);
    let rho = work[density];
    let dij = vector_at(work, row + DIJ_PJL, dim);
    Owner {
        dij,
        factor: dt * dt * work[row + MASS] / (rho * rho),
        pressure: work[slot],
    }
}

// Of fluid particle i of n: its element of a column.
fn in_column(work: &[f64], dim: u8, n: usize, column: usize, i: usize) -> f64
    requires { (column < work_width dim) × (i < n) × (volumes_at dim n ≤ length work.now) }
    ensures { result ≡ element_at work.now (column * n + i) }
{
    let at = column_at(work, dim, n, column, i);
    work[at]
}

// The sum of compute_next_pressures over the fluid contacts.
fn fluid_pressure_sum(over: Over, work: &[f64], list: ContactList, owner: Owner) -> f64
    requires pass_over { PassOn over × Iterating (scene_of over.scene.now) over.dim over.n work.now }
    requires contacts_ready { ContactsReady Kind.Fluid over.dim over.scene.now list }
    ensures { let o = over.entry in
        let b = o.scene.now in
        let l = work.now in
        let term = fluid_term o.dim (scene_of b) (pressures_in o.dim o.n l) (dijs_in o.dim o.n l) owner in
        result ≡ over_list Kind.Fluid o.dim b list (with_term term) +0 }
{
    let at = list.at;
    let width = contact_width(over.dim);
    let mut sum = 0.0;
    for k in 0..list.count {
        let c = at + width * k;
        let j = target_of(over.scene, over.index, Kind::Fluid, c);
        sum += fluid_term(over.scene, work, over.dim, j, owner, c);
    }
    sum
}

// The same sum over the boundary contacts, from that over the fluid contacts on; d is the particle's dij_pjl.
fn boundary_pressure_sum(over: Over, work: &[f64], list: ContactList, d: Vec3, from: f64) -> f64
    requires pass_over { PassOn over × Iterating (scene_of over.scene.now) over.dim over.n work.now }
    requires contacts_ready { ContactsReady Kind.Boundary over.dim over.scene.now list }
    ensures { let o = over.entry in
        let b = o.scene.now in
        let term = boundary_term (scene_of b) list.density0 (coordinates o.dim d) in
        result ≡ over_list Kind.Boundary o.dim b list (with_term term) from }
{
    let dim = over.dim;
    let at = list.at;
    let density0 = list.density0;
    let width = contact_width(dim);
    let mut sum = from;
    for k in 0..list.count {
        let c = at + width * k;
        let j = target_of(over.scene, over.index, Kind::Boundary, c);
        let g = read::vector(over.scene, c + CONTACT_GRADIENT, dim);
        let place = volume_at(work, dim, over.n, j);
        sum += work[place] * density0 * d.dot(g, dim);
    }
    sum
}

// The error term of a next pressure p above 0: the Rust's, or that of the density which results from the iteration.
fn error_term(
    criterion: Criterion,
    density0: f64,
    predicted_density: f64,
    aii: f64,
    sum: f64,
    p: f64,
) -> f64
    ensures { result ≡ error_term criterion density0 predicted_density aii sum p }
{
    match criterion {
        Criterion::Salva => (-sum - aii * p) / density0,
        Criterion::Ihmsen => (predicted_density + (sum + aii * p) - density0) / density0,
    }
}

// The next pressure from the pressure p and the pressure sum: +0 where |aii| is not above 1e-9, or where it is not
// above 0.
fn next_from(
    criterion: Criterion,
    density0: f64,
    aii: f64,
    predicted_density: f64,
    sum: f64,
    p: f64,
) -> Next
    ensures { NextIs result (next_from criterion density0 aii predicted_density sum p) }
{
    if magnitude(aii) > 1e-9 {
        let next = 0.5 * p + 0.5 * (density0 - predicted_density - sum) / aii;
        if next > 0.0 {
            return Next {
                pressure: next,
                term: error_term(criterion, density0, predicted_density, aii, sum, next),
            };
        }
    }
    Next {
        pressure: 0.0,
        term: 0.0,
    }
}

// The next pressure of fluid particle i, where the dij_pjl of this iteration stand in the rows.
pub fn next_pressure_of(over: Over, work: &[f64], dt: f64, i: usize) -> Next
    requires timed_pass { TimedOn over dt × (i < over.n) }
    requires iterating { Iterating (scene_of over.scene.now) over.dim over.n work.now }
    ensures { let o = over.entry in
        let s = scene_of o.scene.now in
        let l = work.now in
        NextIs result (next_pressure s (coefficients s) (pressures_in o.dim o.n l) (dijs_in o.dim o.n l) i) }
{
    let dim = over.dim;
    let fluid = contacts_of(over.scene, over.index, dim, Kind::Fluid, i);
    let boundary = contacts_of(over.scene, over.index, dim, Kind::Boundary, i);
    let owner = owner_of(work, dim, over.n, dt, i);
    let dij = owner.dij;
    let part = fluid_pressure_sum(over, work, fluid, owner);
    let sum = boundary_pressure_sum(over, work, boundary, dij, part);
    next_from(
        read::criterion(over.scene),
        fluid.density0,
        in_column(work, dim, over.n, aii_column(dim), i),
        in_column(work, dim, over.n, predicted_column(dim), i),
        sum,
        owner.pressure,
    )
}
