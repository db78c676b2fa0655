// Velocities, positions and the answers of the fluid particles (METHOD 7.3; the Rust's
// update_velocities_and_positions).
ghost use Rattle.std.specs.Prelude.{◌≡◌, ◌+◌, ◌*◌, ◌<◌, ◌≤◌, length};
ghost use Rattle.std.proofs.lemmas.List.Edits.{sets};
ghost use Rattle.iisph_pressures.specs.IterationRows.{pressures_in};
ghost use Rattle.iisph_rows.specs.Passes.{DrivenOn};
ghost use Rattle.iisph_rules.specs.Coefficients.{coefficients};
ghost use Rattle.iisph_rules.specs.Step.{fluid_answer};
ghost use Rattle.lists.specs.Stores.{stored};
ghost use Rattle.scene_format.specs.SceneOf.{scene_of};
ghost use Rattle.scene_lengths.specs.Lengths.{fluid_answer_width};
ghost use Rattle.iisph_motion.specs.Changes.{ChangesReady};
ghost use Rattle.iisph_motion.specs.Motions.{MotionIs};

use crate::changes::final_change_of;
use iisph_rows::over::{Drive, Over};
use iisph_rows::rows::{pressure_slot, put_vector, row_at};
use math::Vec3;
use scene_format::format::vector_width;
use scene_format::{Kind, read};
use scene_index::records::record_of;
use scene_lengths::fluid_answer_width;

// Where a particle is, and how it moves.
#[derive(Clone, Copy)]
pub struct Motion {
    pub position: Vec3,
    pub velocity: Vec3,
}

// The motion of fluid particle i after the step: the change is added to the velocity, and the new velocity × dt to the
// position.
fn motion_of(over: Over, work: &[f64], drive: Drive, i: usize) -> Motion
    requires driven_pass { DrivenOn over drive × (i < over.n) }
    requires changes_ready { ChangesReady (scene_of over.scene.now) over.dim over.n work.now }
    ensures { let o = over.entry in
        MotionIs (scene_of o.scene.now) o.dim (pressures_in o.dim o.n work.now) i result }
{
    let change = final_change_of(over, work, drive, i);
    let at = record_of(over.scene, over.index, Kind::Fluid, i);
    let before = read::vector(over.scene, at + vector_width(over.dim), over.dim);
    let velocity = before.add(change);
    let position = read::vector(over.scene, at, over.dim).add(velocity.scale(drive.dt));
    Motion { position, velocity }
}

// The answers of fluid particle i: position, velocity, pressure.
fn put_answer(over: Over, work: &[f64], drive: Drive, answers: &mut [f64], i: usize)
    requires driven_pass { DrivenOn over drive × ChangesReady (scene_of over.scene.now) over.dim over.n work.now }
    requires i_lt_n { let width = fluid_answer_width over.dim in
        (i < over.n) × (width * i + width ≤ length answers.old) }
    ensures { let o = over.entry in
        let s = scene_of o.scene.now in
        let ps = pressures_in o.dim o.n work.now in
        answers.new ≡ sets answers.old (fluid_answer_width o.dim * i) (fluid_answer s (coefficients s) ps i) }
{
    let dim = over.dim;
    let motion = motion_of(over, work, drive, i);
    let position = motion.position;
    let velocity = motion.velocity;
    let pressure = work[row_at(work, dim, i) + pressure_slot(dim)];
    let axes = usize::from(dim);
    let at = fluid_answer_width(dim) * i;
    put_vector(answers, at, position, dim);
    put_vector(answers, at + axes, velocity, dim);
    answers[at + 2 * axes] = pressure;
}

// The answers of all fluid particles, in the order of their numbers.
pub fn update_velocities_and_positions(over: Over, work: &[f64], drive: Drive, answers: &mut [f64])
    requires driven_pass { DrivenOn over drive × ChangesReady (scene_of over.scene.now) over.dim over.n work.now }
    requires n_in_bounds { fluid_answer_width over.dim * over.n ≤ length answers.old }
    ensures { let o = over.entry in
        let s = scene_of o.scene.now in
        let ps = pressures_in o.dim o.n work.now in
        answers.new ≡ stored (fluid_answer_width o.dim) o.n 0 (fluid_answer s (coefficients s) ps) answers.old }
{
    for i in 0..over.n {
        put_answer(over, work, drive, answers, i);
    }
}
