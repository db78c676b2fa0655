// What is said of a scene without solving it: whether a step on it would be refused, but for the length of the answer
// list. `validate` asks nothing of its caller.
#![tactic(auto)]

ghost use Rattle.std.specs.Prelude.{◌≤◌, length};
ghost use Rattle.scene_check.specs.Check.{Passed};
ghost use Rattle.scene_format.specs.SceneOf.{scene_of};
ghost use Rattle.scene_index.specs.Index.{index_needed, middle_index};
ghost use Rattle.scene_lengths.specs.Lengths.{work_needed};
ghost use Rattle.iisph_validation.specs.Validate.{Validates};

use iisph_header::step_header;
use iisph_preparation::prepare;
use iisph_rows::zeros::clear;
use scene_check::check;
use scene_format::Refusal;
use scene_index::index::{LONGEST_INDEX, MIDDLE_INDEX, SMALL_INDEX, index_needed};
use scene_layout::Layout;
use scene_lengths::lengths_of;

// The readiness of an accepted scene, with a work list and an index that are long enough.
fn validate_long(
    scene: &[u8],
    layout: Layout,
    work: &mut [f64],
    index: &mut [usize],
) -> Result<(), Refusal>
    requires passed { Passed scene.now layout × (work_needed (scene_of scene.now) ≤ length work.old) }
    requires scene_in_bounds { index_needed scene.now ≤ length index.old }
    ensures { Validates scene.now work.old result work.new }
{
    let header = step_header(scene);
    prepare(scene, layout, header, index, work)?;
    let needed = lengths_of(scene, layout).work;
    clear(work, needed);
    Ok(())
}

// As a step does (iisph_solver), with the smallest of three indexes on the stack that is long enough. No accepted scene
// finds the longest too short, so this never calls itself; but since a compiler puts no function that calls itself in
// the place of its call, this index takes no stack unless it is called.
fn validate_largest(scene: &[u8], layout: Layout, work: &mut [f64]) -> Result<(), Refusal>
    requires { Passed scene.now layout × (work_needed (scene_of scene.now) ≤ length work.old) }
    ensures { Validates scene.now work.old result work.new }
{
    let mut index = [0usize; LONGEST_INDEX];
    let answer = validate_long(scene, layout, work, &mut index);
    if LONGEST_INDEX < index_needed(scene, layout) {
        return validate_largest(scene, layout, work);
    }
    answer
}

// With an index of N numbers, on the stack.
fn validate_within<const N: usize>(
    scene: &[u8],
    layout: Layout,
    work: &mut [f64],
) -> Result<(), Refusal>
    requires passed { Passed scene.now layout × (work_needed (scene_of scene.now) ≤ length work.old) }
    requires scene_bound { (index_needed scene.now ≤ N) × (N ≤ middle_index) }
    ensures { Validates scene.now work.old result work.new }
{
    let mut index = [0usize; N];
    validate_long(scene, layout, work, &mut index)
}

// The readiness of an accepted scene: refusal 8, then with the first index that is long enough.
fn validate_sized(scene: &[u8], layout: Layout, work: &mut [f64]) -> Result<(), Refusal>
    requires { Passed scene.now layout }
    ensures { Validates scene.now work.old result work.new }
{
    if work.len() < lengths_of(scene, layout).work {
        return Err(Refusal::ShortList);
    }
    let needed = index_needed(scene, layout);
    if needed <= SMALL_INDEX {
        return validate_within::<SMALL_INDEX>(scene, layout, work);
    }
    if needed <= MIDDLE_INDEX {
        return validate_within::<MIDDLE_INDEX>(scene, layout, work);
    }
    validate_largest(scene, layout, work)
}

// Whether the iterations of a step on this scene could begin. The work list's needed front part is then all +0, but for
// refusals 1 to 8, which leave it as it was.
pub fn validate(scene: &[u8], work: &mut [f64]) -> Result<(), Refusal>
    ensures { Validates scene.now work.old result work.new }
{
    let layout = check(scene)?;
    validate_sized(scene, layout, work)
}
