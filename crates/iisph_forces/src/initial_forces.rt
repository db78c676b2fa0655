// The answers of the boundary particles with the forces that the scene has (METHOD 7.4), boundary by boundary, and
// where the forces of each boundary begin.
ghost use Rattle.std.specs.Prelude.{◌≡◌, ◌+◌, ◌*◌, ◌<◌, ◌≤◌, length};
ghost use mathlib.Core.List.{flatten};
ghost use Rattle.std.proofs.lemmas.List.Edits.{sets};
ghost use Rattle.iisph_pressures.specs.IterationRows.{Iterating};
ghost use Rattle.iisph_rows.specs.Passes.{PassOn};
ghost use Rattle.lists.specs.Lists.{table};
ghost use Rattle.scene_check.specs.Check.{Passed};
ghost use Rattle.scene_format.specs.Format.{bit, nameable_models};
ghost use Rattle.scene_format.specs.Scene.{boundary_size, boundary};
ghost use Rattle.scene_format.specs.SceneOf.{scene_of};
ghost use Rattle.scene_index.specs.Runs.{BoundaryRun};
ghost use Rattle.scene_lengths.specs.Lengths.{fluid_answer_width, answers_needed};
ghost use Rattle.iisph_forces.specs.Forces.{width_at, answer_offset, force_starts, boundary_initial};

use iisph_rows::over::Over;
use iisph_rows::rows::{put_vector, volume_at};
use scene_format::format::vector_width;
use scene_format::{Kind, read};
use scene_index::records::record_of;
use scene_layout::Layout;
use scene_lengths::{fluid_answer_width, kept_answer_width};

// Volume and any force of boundary particle j, from element `at` on; where the next particle's answers begin; by
// whether its boundary keeps forces.
fn put_particle(
    over: Over,
    work: &[f64],
    j: usize,
    keeps: bool,
    at: usize,
    answers: &mut [f64],
) -> usize
    requires pass_over { PassOn over × Iterating (scene_of over.scene.now) over.dim over.n work.now }
    requires fact { let s = scene_of over.scene.now in
        (j < boundary_size s)
        × ((boundary s j).keeps_forces ≡ keeps)
        × (at + width_at over.dim s j ≤ length answers.old) }
    ensures { let o = over.entry in
        let s = scene_of o.scene.now in
        (result ≡ at + width_at o.dim s j) × (answers.new ≡ sets answers.old at (boundary_initial s j)) }
{
    answers[at] = work[volume_at(work, over.dim, over.n, j)];
    if keeps {
        let record = record_of(over.scene, over.index, Kind::Boundary, j);
        let force = read::vector(over.scene, record + vector_width(over.dim), over.dim);
        put_vector(answers, at + 1, force, over.dim);
        let width = kept_answer_width(over.dim);
        return at + width;
    }
    at + 1
}

// Volumes and forces of one boundary, whose `count` particles have the numbers from `first` on; where the next
// boundary's answers begin.
fn put_boundary(
    over: Over,
    work: &[f64],
    first: usize,
    count: usize,
    keeps: bool,
    at: usize,
    answers: &mut [f64],
) -> usize
    requires pass_over { PassOn over × Iterating (scene_of over.scene.now) over.dim over.n work.now }
    requires fact { let b = over.scene.now in
        let s = scene_of b in
        BoundaryRun b first count (bit keeps)
        × (at ≡ answer_offset over.dim s first)
        × (answers_needed s ≤ length answers.old) }
    ensures { let o = over.entry in
        let s = scene_of o.scene.now in
        let initial = flatten (table count (λ p. boundary_initial s (first + p))) in
        (result ≡ answer_offset o.dim s (first + count)) × (answers.new ≡ sets answers.old at initial) }
{
    let mut to = at;
    for j in first..first + count {
        to = put_particle(over, work, j, keeps, to, answers);
    }
    to
}

// Volumes and forces of all boundaries, behind the answers of the fluid particles; `forces` takes where the forces of
// each boundary begin, if it keeps any.
pub fn put_initial(
    over: Over,
    layout: Layout,
    work: &[f64],
    forces: &mut [Option<usize>],
    answers: &mut [f64],
)
    requires pass_over { PassOn over × Iterating (scene_of over.scene.now) over.dim over.n work.now }
    requires passed { let b = over.scene.now in
        Passed b layout
        × (nameable_models ≤ length forces.old)
        × (answers_needed (scene_of b) ≤ length answers.old) }
    ensures { let o = over.entry in
        let b = o.scene.now in
        let s = scene_of b in
        let initial = flatten (table (boundary_size s) (boundary_initial s)) in
        (forces.new ≡ sets forces.old 0 (force_starts o.dim b))
        × (answers.new ≡ sets answers.old (fluid_answer_width o.dim * o.n) initial) }
{
    let boundaries = layout.boundaries;
    let heads = boundaries.heads;
    let number = boundaries.number;
    let mut to = fluid_answer_width(over.dim) * over.n;
    let mut first = 0;
    for m in 0..number {
        let head = heads[m];
        let count = read::particles(over.scene, Kind::Boundary, head);
        let kept = read::keeps(over.scene, head);
        forces[m] = kept.then_some(to + 1);
        to = put_boundary(over, work, first, count, kept, to, answers);
        first += count;
    }
}
