// One pressure step (the Rust's compute_densities and step) that is lent its index: refusals 1 to 10, the iterations,
// then answers and forces. `step_lent` asks nothing of its caller; what else is public is for callers that have checked
// the scene, and show so.
#![tactic(auto)]

ghost use Rattle.std.specs.Prelude.{◌≡◌, ◌≤◌, length};
ghost use Rattle.iisph_header.specs.Header.{StepHeaderIs};
ghost use Rattle.iisph_pressures.specs.IterationRows.{IterationReady};
ghost use Rattle.iisph_rows.specs.Passes.{PassOn};
ghost use Rattle.iisph_rules.specs.Answer.{lists_short, LongEnough};
ghost use Rattle.iisph_rules.specs.Step.{first_pressures};
ghost use Rattle.scene_check.specs.Check.{Passed};
ghost use Rattle.scene_format.specs.SceneOf.{scene_of};
ghost use Rattle.scene_index.specs.Index.{index_needed};
ghost use Rattle.iisph_lent.specs.Lent.{StepsLent, IndexAfter};
ghost use Rattle.iisph_lent.specs.declared.LentRefusal.TheVariants.{Refused};
ghost use Rattle.iisph_lent.specs.Step.{Steps, Finishes};

use iisph_forces::boundary_answers;
use iisph_header::{StepHeader, step_header};
use iisph_iterations::pressure_solve::pressure_solve;
use iisph_motion::answers::update_velocities_and_positions;
use iisph_passes::traverse::{Pass, traverse};
use iisph_preparation::prepare;
use iisph_rows::over::{Drive, Over};
use iisph_rows::zeros::clear;
use iisph_rules::Report;
use scene_check::check;
use scene_format::Refusal;
use scene_format::read::axes;
use scene_index::index::index_needed;
use scene_layout::Layout;
use scene_lengths::lengths_of;

// Why a step that is lent its index is not done.
#[derive(Clone, Copy)]
pub enum LentRefusal {
    // The scene is refused, or a list is too short.
    Refused(Refusal),
    // The index is too short; the scene needs one of this length.
    ShortIndex(usize),
}

impl From<Refusal> for LentRefusal {
    ghost from_gives = { λ refusal answer. answer ≡ Refused refusal };

    fn from(refusal: Refusal) -> LentRefusal {
        LentRefusal::Refused(refusal)
    }
}

// The iterations and what follows them. Nothing is refused any more, so the answer list is written; the work list is
// left cleared.
fn finish(
    over: Over,
    layout: Layout,
    header: StepHeader,
    answers: &mut [f64],
    work: &mut [f64],
) -> Report
    requires pass_over { PassOn over × StepHeaderIs (scene_of over.scene.now) header }
    requires passed { Passed over.scene.now layout × LongEnough over.scene.now (length answers.old) (length work.old) }
    requires iteration_ready { let s = scene_of over.scene.now in
        IterationReady s (first_pressures s) over.dim over.n work.old }
    ensures { Finishes over.entry.scene.now answers.old work.old result answers.new work.new }
{
    let drive = Drive {
        dt: header.clock.dt,
        gravity: header.gravity,
    };
    let solved = pressure_solve(over, layout, drive, header.stopping, work);
    traverse(Pass::Shares, over, drive, work);
    update_velocities_and_positions(over, work, drive, answers);
    boundary_answers(over, layout, work, answers);
    let needed = lengths_of(over.scene, layout).work;
    clear(work, needed);
    Report {
        clock: header.clock,
        iterations: solved.iterations,
        ending: solved.ending,
    }
}

// Whether a list is too short for a step on a scene that its caller has checked (8).
pub fn lists_short(scene: &[u8], layout: Layout, answers: usize, work: usize) -> bool
    requires { Passed scene.now layout }
    ensures { result ≡ lists_short scene.now answers work }
{
    let needed = lengths_of(scene, layout);
    answers < needed.answers || work < needed.work
}

// The passes before the iterations, refusals 9 and 10, and what follows, of a scene that its caller has checked, with
// lists that are long enough.
pub fn step_long(
    scene: &[u8],
    layout: Layout,
    answers: &mut [f64],
    work: &mut [f64],
    index: &mut [usize],
) -> Result<Report, Refusal>
    requires passed { Passed scene.now layout × LongEnough scene.now (length answers.old) (length work.old) }
    requires scene_in_bounds { index_needed scene.now ≤ length index.old }
    ensures { Steps scene.now answers.old work.old result answers.new work.new }
{
    let header = step_header(scene);
    prepare(scene, layout, header, index, work)?;
    let over = Over {
        scene,
        index,
        dim: axes(scene),
        n: layout.fluids.total,
    };
    Ok(finish(over, layout, header, answers, work))
}

// A step on a scene that its caller has checked.
fn step_accepted(
    scene: &[u8],
    layout: Layout,
    answers: &mut [f64],
    work: &mut [f64],
    index: &mut [usize],
) -> Result<Report, LentRefusal>
    requires { Passed scene.now layout }
    ensures steps_lent { StepsLent scene.now answers.old work.old (length index.old) result
        answers.new work.new }
    ensures index_after { IndexAfter scene.now answers.old work.old index.old
        index.new }
{
    if lists_short(scene, layout, answers.len(), work.len()) {
        return Err(LentRefusal::Refused(Refusal::ShortList));
    }
    let needed = index_needed(scene, layout);
    if index.len() < needed {
        return Err(LentRefusal::ShortIndex(needed));
    }
    Ok(step_long(scene, layout, answers, work, index)?)
}

// A packed scene, one step on: the answers of every fluid and boundary particle in the answer list, and the report.
// Work list and index are scratch.
pub fn step_lent(
    scene: &[u8],
    answers: &mut [f64],
    work: &mut [f64],
    index: &mut [usize],
) -> Result<Report, LentRefusal>
    ensures steps_lent { StepsLent scene.now answers.old work.old (length index.old) result
        answers.new work.new }
    ensures index_after { IndexAfter scene.now answers.old work.old index.old
        index.new }
{
    let layout = check(scene)?;
    step_accepted(scene, layout, answers, work, index)
}
