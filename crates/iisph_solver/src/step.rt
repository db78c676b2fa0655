// One pressure step with an index of its own: on the stack, of the smallest of three sizes that holds the scene's, so
// that a small scene clears few numbers.
ghost use Rattle.std.specs.Prelude.{◌≤◌, length};
ghost use Rattle.iisph_lent.specs.Step.{Steps};
ghost use Rattle.iisph_rules.specs.Answer.{LongEnough};
ghost use Rattle.scene_check.specs.Check.{Passed};
ghost use Rattle.scene_index.specs.Index.{index_needed, middle_index};

use iisph_lent::{lists_short, step_long};
use iisph_rules::Report;
use scene_check::check;
use scene_format::Refusal;
use scene_index::index::{LONGEST_INDEX, MIDDLE_INDEX, SMALL_INDEX, index_needed};
use scene_layout::Layout;

// With the longest index, 770 KiB, which no accepted scene finds too short; so it never calls itself. But a compiler
// puts no function that calls itself in the place of its call: this one stays apart, and its index takes no stack
// unless it is called.
fn step_largest(
    scene: &[u8],
    layout: Layout,
    answers: &mut [f64],
    work: &mut [f64],
) -> Result<Report, Refusal>
    requires { Passed scene.now layout × LongEnough scene.now (length answers.old) (length work.old) }
    ensures { Steps scene.now answers.old work.old result answers.new work.new }
{
    let mut index = [0usize; LONGEST_INDEX];
    let answer = step_long(scene, layout, answers, work, &mut index);
    if LONGEST_INDEX < index_needed(scene, layout) {
        return step_largest(scene, layout, answers, work);
    }
    answer
}

// With an index of N numbers.
fn step_within<const N: usize>(
    scene: &[u8],
    layout: Layout,
    answers: &mut [f64],
    work: &mut [f64],
) -> Result<Report, Refusal>
    requires passed { Passed scene.now layout × LongEnough scene.now (length answers.old) (length work.old) }
    requires scene_bound { (index_needed scene.now ≤ N) × (N ≤ middle_index) }
    ensures { Steps scene.now answers.old work.old result answers.new work.new }
{
    let mut index = [0usize; N];
    step_long(scene, layout, answers, work, &mut index)
}

// A step on an accepted scene: refusal 8, then with the first index that is long enough.
fn step_sized(
    scene: &[u8],
    layout: Layout,
    answers: &mut [f64],
    work: &mut [f64],
) -> Result<Report, Refusal>
    requires { Passed scene.now layout }
    ensures { Steps scene.now answers.old work.old result answers.new work.new }
{
    if lists_short(scene, layout, answers.len(), work.len()) {
        return Err(Refusal::ShortList);
    }
    let needed = index_needed(scene, layout);
    if needed <= SMALL_INDEX {
        return step_within::<SMALL_INDEX>(scene, layout, answers, work);
    }
    if needed <= MIDDLE_INDEX {
        return step_within::<MIDDLE_INDEX>(scene, layout, answers, work);
    }
    step_largest(scene, layout, answers, work)
}

// A packed scene, one step on: the answers of every fluid and boundary particle in the answer list, and the report. The
// work list is scratch.
pub fn step(scene: &[u8], answers: &mut [f64], work: &mut [f64]) -> Result<Report, Refusal>
    ensures { Steps scene.now answers.old work.old result answers.new work.new }
{
    let layout = check(scene)?;
    step_sized(scene, layout, answers, work)
}
