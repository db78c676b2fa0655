// A step for callers that keep a clock, as the Rust's caller keeps its TimestepManager.
#![tactic(auto)]

ghost use Rattle.std.specs.Prelude.{◌≡◌};
ghost use Rattle.iisph_lent.specs.Step.{Steps};
ghost use Rattle.iisph_kept.specs.Kept.{clock_after};

use iisph_rules::Report;
use iisph_solver::step::step;
use scene_format::Refusal;
use timestep_manager::{Clock, advance_in_place};

// A step, over the one without a clock: where it is done the lent clock is moved on in the place where its caller keeps
// it, and where it is refused the clock is as it was. The report's own clock is made from the scene's header.
pub fn step_keeping(
    scene: &[u8],
    clock: &mut Clock,
    answers: &mut [f64],
    work: &mut [f64],
) -> Result<Report, Refusal>
    ensures { Steps scene.now answers.old work.old result answers.new work.new
        × (clock.new ≡ clock_after result clock.old) }
{
    let answer = step(scene, answers, work);
    if answer.is_ok() {
        advance_in_place(clock);
    }
    answer
}
