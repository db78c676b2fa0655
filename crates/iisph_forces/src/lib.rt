// The last part of a step for the boundary particles (METHOD 7.4): the volume of each and, if its boundary keeps
// forces, its force with what the contacts of the fluid particles add. Its public function is for the crate of the
// step, which shows what it asks: an accepted scene with its index and layout, and a work list that holds the last
// pressures.
#![tactic(auto)]

mod gather;
mod initial_forces;

ghost use Rattle.std.specs.Prelude.{◌≡◌, ◌*◌, ◌≤◌, length};
ghost use mathlib.Core.List.{flatten};
ghost use Rattle.std.proofs.lemmas.List.Edits.{sets};
ghost use Rattle.iisph_pressures.specs.IterationRows.{pressures_in, Iterating};
ghost use Rattle.iisph_rows.specs.Passes.{PassOn};
ghost use Rattle.iisph_rules.specs.Coefficients.{coefficients};
ghost use Rattle.iisph_rules.specs.Step.{boundary_answer};
ghost use Rattle.lists.specs.Lists.{table};
ghost use Rattle.scene_check.specs.Check.{Passed};
ghost use Rattle.scene_format.specs.Scene.{boundary_size};
ghost use Rattle.scene_format.specs.SceneOf.{scene_of};
ghost use Rattle.scene_lengths.specs.Lengths.{fluid_answer_width, answers_needed};

use crate::gather::gather_all;
use crate::initial_forces::put_initial;
use iisph_rows::over::Over;
use scene_format::format::NAMEABLE_MODELS;
use scene_layout::Layout;

// The answers of all boundary particles, behind those of the fluid particles: first with the forces that the scene
// has, then with what each contact adds.
pub fn boundary_answers(over: Over, layout: Layout, work: &[f64], answers: &mut [f64])
    requires pass_over { PassOn over × Iterating (scene_of over.scene.now) over.dim over.n work.now }
    requires passed { let b = over.scene.now in
        Passed b layout × (answers_needed (scene_of b) ≤ length answers.old) }
    ensures { let o = over.entry in
        let s = scene_of o.scene.now in
        let answer = boundary_answer s (coefficients s) (pressures_in o.dim o.n work.now) in
        answers.new ≡ sets answers.old (fluid_answer_width o.dim * o.n) (flatten (table (boundary_size s) answer)) }
{
    let mut forces = [None; NAMEABLE_MODELS];
    put_initial(over, layout, work, &mut forces, answers);
    gather_all(over, work, &forces, answers);
}
