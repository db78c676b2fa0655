// What a step does before its iterations, on an accepted scene (METHOD 4 and 5): the index, boundary volumes, masses,
// advected velocities, coefficients and first pressures, then refusals 9 and 10, each over all particles. `prepare` is
// for the crates of the step and of the validation, which show what it asks: a checked scene, its header and room.
#![tactic(auto)]

ghost use Rattle.std.specs.Prelude.{◌≡◌, ℕ, ◌≤◌, length};
ghost use Rattle.iisph_header.specs.Header.{StepHeaderIs};
ghost use Rattle.iisph_rows.specs.Passes.{PassOn, DrivenOn, Room, volumes};
ghost use Rattle.iisph_rows.specs.Rows.{density_slot, predicted_slot, volumes_at, column, Behind};
ghost use Rattle.iisph_rules.specs.Step.{scene_answer};
ghost use Rattle.iisph_rules.specs.declared.Report.{Report};
ghost use Rattle.scene_check.specs.Check.{Passed};
ghost use Rattle.scene_format.specs.Format.{location_of};
ghost use Rattle.scene_format.specs.SceneOf.{scene_of};
ghost use Rattle.scene_format.specs.declared.Kind.TheVariants.{Fluid};
ghost use Rattle.scene_index.specs.Index.{index_needed};
ghost use Rattle.scene_lengths.specs.Lengths.{work_needed};
ghost use Rattle.iisph_preparation.specs.Prepare.{rows_filled, readiness, work_prepared, zero_answer, Prepares};

use iisph_header::StepHeader;
use iisph_passes::traverse::{Pass, traverse};
use iisph_rows::boundary_volumes::compute_boundary_volumes;
use iisph_rows::over::{Drive, Over};
use iisph_rows::rows::{density_column, predicted_column};
use iisph_rows::zeros::{clear, first_zero};
use math::Vec3;
use scene_format::read::axes;
use scene_format::{Kind, Refusal};
use scene_index::index::fill;
use scene_index::records::record_of;
use scene_layout::Layout;
use scene_lengths::lengths_of;

// The masses, advected velocities, coefficients and first pressures of every particle. The boundary volumes are there.
fn fill_rows(over: Over, drive: Drive, work: &mut [f64])
    requires driven_pass { DrivenOn over drive }
    requires room { let s = scene_of over.scene.now in
        Room s over.dim over.n work.old × Behind over.dim over.n (volumes s) work.old }
    ensures { work.new ≡ rows_filled over.entry.dim (scene_of over.entry.scene.now) work.old }
{
    traverse(Pass::Advection, over, drive, work);
    traverse(Pass::Coefficients, over, drive, work);
}

// Two searches, one after the other: refusal 9 in the densities, 10 in the predicted ones. Each gives the offset of the
// particle's record.
fn zero_refusal(over: Over, work: &[f64]) -> Result<(), Refusal>
    requires { PassOn over × (volumes_at over.dim over.n ≤ length work.now) }
    ensures { (report : Report) →
        (let o = over.entry in
        let at : ℕ → ℕ = λ i. (location_of Fluid o.scene.now i).at in
        let densities = column o.n (density_slot o.dim) work.now in
        let predicted = column o.n (predicted_slot o.dim) work.now in
        result ≡ readiness (zero_answer at densities predicted report)) }
{
    if let Some(i) = first_zero(work, over.dim, over.n, density_column(over.dim)) {
        let at = record_of(over.scene, over.index, Kind::Fluid, i);
        return Err(Refusal::ZeroDensity(at));
    }
    if let Some(i) = first_zero(work, over.dim, over.n, predicted_column(over.dim)) {
        let at = record_of(over.scene, over.index, Kind::Fluid, i);
        return Err(Refusal::ZeroPredictedDensity(at));
    }
    Ok(())
}

// The passes, then the refusals, after which the part of the work list that the scene needs is +0.
fn prepare_rows(over: Over, layout: Layout, drive: Drive, work: &mut [f64]) -> Result<(), Refusal>
    requires driven_pass { DrivenOn over drive }
    requires passed { Passed over.scene.now layout × (work_needed (scene_of over.scene.now) ≤ length work.old) }
    ensures { let b = over.entry.scene.now in
        (result ≡ readiness (scene_answer (λ i. (location_of Fluid b i).at) (scene_of b)))
        × (work.new ≡ work_prepared b result work.old) }
{
    compute_boundary_volumes(over, layout, work);
    fill_rows(over, drive, work);
    let answer = zero_refusal(over, work);
    if answer.is_err() {
        let needed = lengths_of(over.scene, layout).work;
        clear(work, needed);
    }
    answer
}

// The index of the scene in a lent list, and its rows, columns and volumes.
pub fn prepare(
    scene: &[u8],
    layout: Layout,
    header: StepHeader,
    index: &mut [usize],
    work: &mut [f64],
) -> Result<(), Refusal>
    requires passed { Passed scene.now layout × StepHeaderIs (scene_of scene.now) header }
    requires scene_in_bounds { (index_needed scene.now ≤ length index.old)
        × (work_needed (scene_of scene.now) ≤ length work.old) }
    ensures { Prepares scene.now work.old result index.new work.new }
{
    let drive = Drive {
        dt: header.clock.dt,
        gravity: header.gravity,
    };
    fill(scene, layout, index);
    let over = Over {
        scene,
        index,
        dim: axes(scene),
        n: layout.fluids.total,
    };
    prepare_rows(over, layout, drive, work)
}
