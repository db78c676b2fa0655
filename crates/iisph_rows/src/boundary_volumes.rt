// The volumes of the boundary particles (the Rust's `compute_boundary_volumes`), stored behind rows and columns of the
// work list.
ghost use Rattle.std.specs.Prelude.{◌≡◌, ℕ, ◌+◌, ◌*◌, ◌≤◌, ◌<◌, length};
ghost use Rattle.std.proofs.lemmas.List.Edits.{sets};
ghost use Rattle.iisph_rules.specs.Coefficients.{boundary_volume};
ghost use Rattle.lists.specs.Lists.{table};
ghost use Rattle.math.specs.Real.{+0, total};
ghost use Rattle.scene_check.specs.Check.{Passed};
ghost use Rattle.scene_format.specs.Bytes.{FiniteAt};
ghost use Rattle.scene_format.specs.Format.{bit, boundary_contact_width, weight_offset};
ghost use Rattle.scene_format.specs.Scene.{fluid_size, boundary};
ghost use Rattle.scene_format.specs.SceneOf.{boundary_weights, scene_of};
ghost use Rattle.scene_index.specs.Index.{Indexed};
ghost use Rattle.scene_index.specs.Runs.{BoundaryRun};
ghost use Rattle.scene_walk.specs.Accepted.{BoundaryRecordOk};
ghost use Rattle.iisph_rows.specs.Passes.{volumes, volume_at, Room};
ghost use Rattle.iisph_rows.specs.Rows.{volumes_at};

use crate::over::Over;
use math::is_zero;
use scene_format::Kind;
use scene_format::format::{BOUNDARY_CONTACT_WIDTH, CONTACT_WEIGHT, boundary_count};
use scene_format::read::{axes, byte, double, keeps, particles};
use scene_index::records::record_of;
use scene_layout::Layout;
use scene_lengths::work_width;

// The sum of the weights of n contacts, in their order.
fn weight_sum(scene: &[u8], n: usize, at: usize) -> f64
    requires { (j : ℕ) → j < n → FiniteAt scene.now (at + boundary_contact_width * j + weight_offset) }
    ensures { result ≡ total +0 (boundary_weights scene.now n at) }
{
    let mut sum = 0.0;
    for j in 0..n {
        sum += double(scene, at + BOUNDARY_CONTACT_WIDTH * j + CONTACT_WEIGHT);
    }
    sum
}

// The volume of the particle whose record is at an offset, by whether its boundary keeps forces.
fn volume(scene: &[u8], keeps: bool, at: usize) -> f64
    requires { BoundaryRecordOk scene.now (bit keeps) at }
    ensures { result ≡ volume_at scene.now (bit keeps) at }
{
    let count = boundary_count(axes(scene), keeps);
    let n = byte(scene, at + count);
    let denominator = weight_sum(scene, n, at + (count + 1));
    if is_zero(denominator) {
        0.0
    } else {
        1.0 / denominator
    }
}

// The volumes of one boundary, whose `count` particles have the numbers from `first` on, from element k on.
fn put_volumes(
    scene: &[u8],
    index: &[usize],
    first: usize,
    count: usize,
    keeps: bool,
    k: usize,
    work: &mut [f64],
)
    requires indexed { Indexed scene.now index.now }
    requires boundary_run { BoundaryRun scene.now first count (bit keeps) × (k + count ≤ length work.old) }
    ensures { let s = scene_of scene.now in
        work.new ≡ sets work.old k (table count (λ p. boundary_volume (boundary s (first + p)))) }
{
    for p in 0..count {
        let at = record_of(scene, index, Kind::Boundary, first + p);
        work[k + p] = volume(scene, keeps, at);
    }
}

// The pass: the volumes of all boundary particles, boundary by boundary.
pub fn compute_boundary_volumes(over: Over, layout: Layout, work: &mut [f64])
    requires indexed { Indexed over.scene.now over.index.now × Passed over.scene.now layout }
    requires n_value { let s = scene_of over.scene.now in
        (over.n ≡ fluid_size s) × Room s over.dim over.n work.old }
    ensures { let o = over.entry in
        work.new ≡ sets work.old (volumes_at o.dim o.n) (volumes (scene_of o.scene.now)) }
{
    let behind = work_width(over.dim) * over.n;
    let boundaries = layout.boundaries;
    let mut first = 0;
    for &head in &boundaries.heads[..boundaries.number] {
        let count = particles(over.scene, Kind::Boundary, head);
        put_volumes(
            over.scene,
            over.index,
            first,
            count,
            keeps(over.scene, head),
            behind + first,
            work,
        );
        first += count;
    }
}
