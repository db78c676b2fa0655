// How long the two lists of a step must be, and how many answers a particle has (FORMAT 3). `lengths_needed` asks
// nothing; `lengths_of` is for the crates above, which show that the scene passed the check.
#![tactic(auto)]

ghost use Rattle.std.specs.Prelude.{◌≡◌, ◌*◌, ◌≤◌, ◌<◌};
ghost use Rattle.math.specs.Vector.{space};
ghost use Rattle.scene_format.specs.Format.{most_of_a_kind};
ghost use Rattle.scene_format.specs.SceneOf.{scene_of};
ghost use Rattle.scene_check.specs.Check.{Passed};
ghost use Rattle.scene_lengths.specs.Lengths.{fluid_answer_width, kept_answer_width, answer_width, work_width};
ghost use Rattle.scene_lengths.specs.Lengths.{added_width, lengths_needed};
ghost use Rattle.scene_lengths.specs.Lengths.{needs_of, answers_in};

use scene_check::check;
use scene_format::read::{axes, keeps, particles};
use scene_format::{Kind, Refusal, Summation, read};
use scene_layout::Layout;

// In doubles of the answer list: of a fluid particle the position, velocity and pressure; of a boundary particle whose
// force is kept the volume and the force.
pub fn fluid_answer_width(dim: u8) -> usize
    ensures { (result ≡ fluid_answer_width dim) × (result < 1024) }
{
    1 + 2 * usize::from(dim)
}

pub fn kept_answer_width(dim: u8) -> usize
    ensures { (result ≡ kept_answer_width dim) × (result < 1024) }
{
    1 + usize::from(dim)
}

// In doubles of the work list, for each fluid particle: what the passes keep of it.
pub fn work_width(dim: u8) -> usize
    ensures { (result ≡ work_width dim) × (result < 1024) }
{
    5 + 3 * usize::from(dim)
}

// The length of each list.
#[derive(Clone, Copy)]
pub struct Lengths {
    pub answers: usize,
    pub work: usize,
}

// How many answers a particle has, by whether a boundary keeps forces: 0 if not. A bool in its place would ask more of
// callers, who may hand over any number.
pub fn answer_width(dim: u8, kind: Kind, keeps: usize) -> usize
    ensures { (result ≡ answer_width dim kind keeps) × (result < 1024) }
{
    match kind {
        Kind::Fluid => fluid_answer_width(dim),
        Kind::Boundary => {
            if keeps == 0 {
                1
            } else {
                kept_answer_width(dim)
            }
        }
    }
}

// The answers of all boundaries.
fn boundary_answers(scene: &[u8], layout: Layout) -> usize
    requires { Passed scene.now layout }
    ensures { (result ≤ kept_answer_width space * most_of_a_kind) × (result ≡ answers_in Kind.Boundary scene.now) }
{
    let dim = axes(scene);
    let heads = &layout.boundaries.heads[..layout.boundaries.number];
    let mut needed = 0;
    for &head in heads {
        let keeps = usize::from(keeps(scene, head));
        let width = answer_width(dim, Kind::Boundary, keeps);
        needed += width * particles(scene, Kind::Boundary, head);
    }
    needed
}

// What a fluid particle needs in the work list besides what the passes keep.
fn added_width(summation: Summation) -> usize
    ensures { (result ≡ added_width summation) × (result ≤ 1) }
{
    match summation {
        Summation::InOrder => 0,
        Summation::ByHalves => 1,
    }
}

// The lengths that both lists must have at least, for a scene with its layout.
pub fn lengths_of(scene: &[u8], layout: Layout) -> Lengths
    requires { Passed scene.now layout }
    ensures { result ≡ lengths_needed (scene_of scene.now) }
{
    let dim = axes(scene);
    let fluids = layout.fluids.total;
    let boundaries = layout.boundaries.total;
    let behind = boundary_answers(scene, layout);
    let width = work_width(dim) + added_width(read::summation(scene));
    Lengths {
        answers: fluid_answer_width(dim) * fluids + behind,
        work: width * fluids + boundaries,
    }
}

// The lengths that the answer list and the work list of a step on a scene must have at least.
pub fn lengths_needed(scene: &[u8]) -> Result<Lengths, Refusal>
    ensures { result ≡ needs_of scene.now }
{
    let layout = check(scene)?;
    Ok(lengths_of(scene, layout))
}
