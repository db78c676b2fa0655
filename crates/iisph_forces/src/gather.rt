// What the boundary contacts of the fluid particles add to the kept forces (METHOD 7.4), in fluid, particle, contact
// order.
ghost use Rattle.std.specs.Prelude.{◌≡◌, ◌≤◌, length};
ghost use Rattle.iisph_pressures.specs.IterationRows.{pressures_in, Iterating};
ghost use Rattle.iisph_rows.specs.Passes.{PassOn};
ghost use Rattle.scene_format.specs.Format.{starts_of};
ghost use Rattle.scene_format.specs.SceneOf.{contact_at, scene_of};
ghost use Rattle.scene_index.specs.Contacts.{over_list};
ghost use Rattle.scene_lengths.specs.Lengths.{answers_needed};
ghost use Rattle.iisph_forces.specs.Forces.{ForcesKnown, ForceContact, ForceContacts};
ghost use Rattle.iisph_forces.specs.Forces.{gathered, state_gain, gathered_all};

use iisph_motion::acceleration::{PressureState, boundary_acceleration, pressure_state_of};
use iisph_rows::over::Over;
use iisph_rows::rows::{put_vector, vector_at};
use scene_format::format::contact_width;
use scene_format::{Kind, read};
use scene_index::contacts::{ContactList, contacts_of};
use scene_lengths::kept_answer_width;

// The contact at an offset, of a particle with that state: if its boundary keeps forces, the force on the particle that
// the contact names gains a × m_i.
fn gather(
    over: Over,
    work: &[f64],
    at: usize,
    state: PressureState,
    forces: &[Option<usize>],
    answers: &mut [f64],
)
    requires pass_over { PassOn over × Iterating (scene_of over.scene.now) over.dim over.n work.now }
    requires force_contact { let b = over.scene.now in
        ForceContact over.dim b at
        × ForcesKnown over.dim b forces.now
        × (answers_needed (scene_of b) ≤ length answers.old) }
    ensures { let o = over.entry in
        let b = o.scene.now in
        let s = scene_of b in
        let c = contact_at o.dim (starts_of Kind.Boundary b) b at in
        answers.new ≡ gathered o.dim s (state_gain s state) answers.old c }
{
    let name = read::contact_name(over.scene, at);
    let model = name.model.0;
    let particle = name.particle.0;
    if let Some(first) = forces[model] {
        let k = first + kept_answer_width(over.dim) * particle;
        let a = boundary_acceleration(over, work, at, state);
        let force = vector_at(answers, k, over.dim).add(a.scale(state.mass));
        put_vector(answers, k, force, over.dim);
    }
}

// The contacts of a list, of a particle with that state.
fn gather_list(
    over: Over,
    work: &[f64],
    list: ContactList,
    state: PressureState,
    forces: &[Option<usize>],
    answers: &mut [f64],
)
    requires pass_over { PassOn over × Iterating (scene_of over.scene.now) over.dim over.n work.now }
    requires force_contacts { let b = over.scene.now in
        ForceContacts over.dim b list
        × ForcesKnown over.dim b forces.now
        × (answers_needed (scene_of b) ≤ length answers.old) }
    ensures { let o = over.entry in
        let b = o.scene.now in
        let s = scene_of b in
        answers.new ≡ over_list Kind.Boundary o.dim b list (gathered o.dim s (state_gain s state)) answers.old }
{
    let at = list.at;
    let width = contact_width(over.dim);
    for k in 0..list.count {
        let c = at + width * k;
        gather(over, work, c, state, forces, answers);
    }
}

// The boundary contacts of all fluid particles.
pub fn gather_all(over: Over, work: &[f64], forces: &[Option<usize>], answers: &mut [f64])
    requires pass_over { PassOn over × Iterating (scene_of over.scene.now) over.dim over.n work.now }
    requires forces_known { let b = over.scene.now in
        ForcesKnown over.dim b forces.now × (answers_needed (scene_of b) ≤ length answers.old) }
    ensures { let o = over.entry in
        answers.new ≡ gathered_all o.dim (scene_of o.scene.now) (pressures_in o.dim o.n work.now) o.n answers.old }
{
    for i in 0..over.n {
        let state = pressure_state_of(over, work, i);
        let list = contacts_of(over.scene, over.index, over.dim, Kind::Boundary, i);
        gather_list(over, work, list, state, forces, answers);
    }
}
