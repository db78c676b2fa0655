// The text of a packed scene that is short enough (FORMAT 4). `put_scene` is for the crate that runs the program on all
// scenes, and shows that there is room.
#![tactic(auto)]

ghost use Rattle.std.specs.Prelude.{◌++◌, ◌≤◌, length};
ghost use Rattle.iisph_words.specs.Texts.{HasRoom, Adds};
ghost use Rattle.iisph_lines.specs.Lines.{step_line, clock_line, particles_text};
ghost use Rattle.scene_check.specs.Check.{Passed};
ghost use Rattle.iisph_rules.specs.Answer.{step_answer};
ghost use Rattle.iisph_lent.specs.Step.{Steps};
ghost use Rattle.iisph_text.specs.Text.{most_bytes, answer_text};
ghost use Rattle.iisph_text.specs.Run.{text_room, LinesReady, Runs};

use iisph_lent::{lists_short, step_long};
use iisph_lines::lines::{put_clock, put_models, put_refused, put_step};
use iisph_rules::Report;
use iisph_words::text::Text;
use scene_check::check;
use scene_format::format::MAX_MODELS;
use scene_format::read::axes;
use scene_format::{Kind, Refusal};
use scene_index::index::{FLUID_BASES, MODEL_BLOCKS};
use scene_layout::Layout;
use scene_lengths::fluid_answer_width;

// Long enough for the index of every scene that is read: a particle takes no more numbers of it than it has answers.
const MOST_ANSWERS: usize = 4096;

const ENOUGH_INDEX: usize = FLUID_BASES + 2 * (MODEL_BLOCKS * MAX_MODELS) + MOST_ANSWERS;

// The text of a step that is done on a scene with its layout, with its answers in front of the list.
fn put_done(text: &mut Text<'_>, scene: &[u8], layout: Layout, answers: &[f64], report: Report)
    requires { Passed scene.now layout × LinesReady scene.now answers.now report text.old }
    ensures { let particles = particles_text scene.now answers.now in
        Adds text.old (step_line report ++ clock_line report.clock ++ particles) text.new }
{
    let fluids = layout.fluids;
    let boundaries = layout.boundaries;
    let clock = report.clock;
    put_step(text, report);
    put_clock(text, clock);
    put_models(text, scene, Kind::Fluid, fluids, answers, 0);
    let behind = fluid_answer_width(axes(scene)) * fluids.total;
    put_models(text, scene, Kind::Boundary, boundaries, answers, behind);
}

// A step on an accepted scene that is short enough, with an index of its own.
fn step_short(
    scene: &[u8],
    layout: Layout,
    answers: &mut [f64],
    work: &mut [f64],
) -> Result<Report, Refusal>
    requires { Passed scene.now layout × (length scene.now ≤ most_bytes) }
    ensures { Steps scene.now answers.old work.old result answers.new work.new }
{
    if lists_short(scene, layout, answers.len(), work.len()) {
        return Err(Refusal::ShortList);
    }
    let mut index = [0usize; ENOUGH_INDEX];
    step_long(scene, layout, answers, work, &mut index)
}

// The text of an accepted scene that is short enough.
fn put_accepted(
    text: &mut Text<'_>,
    scene: &[u8],
    layout: Layout,
    answers: &mut [f64],
    work: &mut [f64],
)
    requires passed { Passed scene.now layout }
    requires scene_len_bound { (length scene.now ≤ most_bytes) × HasRoom text.old text_room }
    ensures stepped { let answer = step_answer scene.now (length answers.old) (length work.old) in
        Steps scene.now answers.old work.old answer answers.new work.new }
    ensures written { let answer = step_answer scene.now (length answers.old) (length work.old) in
        Adds text.old (answer_text scene.now answer) text.new }
{
    match step_short(scene, layout, answers, work) {
        Ok(report) => put_done(text, scene, layout, answers, report),
        Err(refusal) => put_refused(text, refusal),
    }
}

// The text of a scene that is short enough. The scene is checked once.
pub fn put_scene(scene: &[u8], answers: &mut [f64], work: &mut [f64], out: &mut [u8]) -> usize
    requires { (length scene.now ≤ most_bytes) × (text_room ≤ length out.old) }
    ensures { Runs scene.now answers.old work.old out.old
        result answers.new work.new out.new }
{
    let mut text = Text::new(out);
    match check(scene) {
        Ok(layout) => put_accepted(&mut text, scene, layout, answers, work),
        Err(refusal) => put_refused(&mut text, refusal),
    }
    text.len()
}
