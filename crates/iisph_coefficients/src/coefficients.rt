// The coefficients of a fluid particle (METHOD 5.3 to 5.6): compute_densities, compute_predicted_densities, compute_dii
// and compute_aii of the Rust, particle by particle. Each sum takes the fluid contacts in list order, then the boundary
// contacts. The kind is a const parameter of a sum, so that in compiled code no contact looks at its kind.
ghost use Rattle.std.specs.Prelude.{◌≡◌, ◌<◌};
ghost use Rattle.iisph_rows.specs.Passes.{TimedOn, CoefficientsReady};
ghost use Rattle.iisph_rules.specs.Coefficients.{coefficients_of};
ghost use Rattle.math.specs.Vector.{coordinates};
ghost use Rattle.scene_format.specs.Scene.{particle};
ghost use Rattle.scene_format.specs.SceneOf.{scene_of};
ghost use Rattle.iisph_coefficients.specs.Neighbours.{weighed, approached, pushed, returned, summed, SumReady};
ghost use Rattle.iisph_coefficients.specs.Neighbours.{CoefficientsAre, kind_of};

use crate::neighbours::{mass, velocity};
use crate::terms::{approach, returning};
use iisph_rows::over::Over;
use iisph_rows::rows::{ADVECTED, MASS, row_at, vector_at};
use math::Vec3;
use scene_format::format::{CONTACT_GRADIENT, CONTACT_WEIGHT, contact_width};
use scene_format::{Kind, read};
use scene_index::contacts::{ContactList, contacts_of};

// The density, and delta of METHOD 5.4, summed up to some contact.
#[derive(Clone, Copy)]
pub struct Sums {
    pub density: f64,
    pub delta: f64,
}

// The coefficients of one particle.
#[derive(Clone, Copy)]
pub struct CoefficientsOf {
    pub density: f64,
    pub predicted_density: f64,
    pub aii: f64,
    pub dii: Vec3,
}

// The sums of compute_densities and of compute_predicted_densities over the contacts of one kind, where v is v_i.
fn densities<const FLUID: bool>(
    over: Over,
    work: &[f64],
    list: ContactList,
    v: Vec3,
    from: Sums,
) -> Sums
    requires { SumReady (kind_of FLUID) over work.now list }
    ensures { let o = over.entry in
        let sum = summed (kind_of FLUID) o.dim o.scene.now list in
        (result.density ≡ sum weighed from.density list.count)
        × (result.delta ≡ sum (approached (coordinates o.dim v)) from.delta list.count) }
{
    let width = contact_width(over.dim);
    let mut sums = from;
    for k in 0..list.count {
        let c = list.at + width * k;
        let m = mass::<FLUID>(over, work, list.density0, c);
        let vj = velocity::<FLUID>(over, work, c);
        sums.density += m * read::double(over.scene, c + CONTACT_WEIGHT);
        sums.delta += m * approach(over.scene, over.dim, c, v.sub(vj));
    }
    sums
}

// The sum of compute_dii over the contacts of one kind.
fn dii<const FLUID: bool>(
    over: Over,
    work: &[f64],
    list: ContactList,
    factor: f64,
    from: Vec3,
) -> Vec3
    requires { SumReady (kind_of FLUID) over work.now list }
    ensures { let o = over.entry in
        let sum = summed (kind_of FLUID) o.dim o.scene.now list in
        coordinates o.dim result ≡ sum (pushed factor) (coordinates o.dim from) list.count }
{
    let width = contact_width(over.dim);
    let mut sum = from;
    for k in 0..list.count {
        let c = list.at + width * k;
        let m = mass::<FLUID>(over, work, list.density0, c);
        sum = sum.add(read::vector(over.scene, c + CONTACT_GRADIENT, over.dim).scale(m * factor));
    }
    sum
}

// The sum of compute_aii over the contacts of one kind, where d is dii_i.
fn aii<const FLUID: bool>(
    over: Over,
    work: &[f64],
    list: ContactList,
    factor: f64,
    d: Vec3,
    from: f64,
) -> f64
    requires { SumReady (kind_of FLUID) over work.now list }
    ensures { let o = over.entry in
        let sum = summed (kind_of FLUID) o.dim o.scene.now list in
        result ≡ sum (returned (coordinates o.dim d) factor) from list.count }
{
    let width = contact_width(over.dim);
    let mut sum = from;
    for k in 0..list.count {
        let c = list.at + width * k;
        let m = mass::<FLUID>(over, work, list.density0, c);
        sum += m * returning(over.scene, over.dim, c, factor, d);
    }
    sum
}

// All coefficients of fluid particle i.
pub fn coefficients_of(over: Over, work: &[f64], dt: f64, i: usize) -> CoefficientsOf
    requires timed_pass { TimedOn over dt × (i < over.n) }
    requires coefficients_ready { CoefficientsReady (scene_of over.scene.now) over.dim over.n work.now }
    ensures { let s = scene_of over.entry.scene.now in
        CoefficientsAre over.entry.dim result (coefficients_of s (particle s i)) }
{
    let fluid = contacts_of(over.scene, over.index, over.dim, Kind::Fluid, i);
    let boundary = contacts_of(over.scene, over.index, over.dim, Kind::Boundary, i);
    let row = row_at(work, over.dim, i);
    let v = vector_at(work, row + ADVECTED, over.dim);
    let none = Sums {
        density: 0.0,
        delta: 0.0,
    };
    let part = densities::<true>(over, work, fluid, v, none);
    let sums = densities::<false>(over, work, boundary, v, part);
    let rho = sums.density;
    let factor = -dt * dt / (rho * rho);
    let part = dii::<true>(over, work, fluid, factor, Vec3::zero());
    let d = dii::<false>(over, work, boundary, factor, part);
    let e = dt * dt * work[row + MASS] / (rho * rho);
    let part = aii::<true>(over, work, fluid, e, d, 0.0);
    let a = aii::<false>(over, work, boundary, e, d, part);
    CoefficientsOf {
        density: rho,
        predicted_density: rho + sums.delta * dt,
        aii: a,
        dii: d,
    }
}
