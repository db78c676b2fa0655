// The walk through the names of contacts, of a scene whose fields are accepted: refusal 7. Its functions ask for that,
// and those that are public for a layout; their callers have both from the walk through the fields.
ghost use Rattle.std.specs.Prelude.{◌≡◌, ◌≤◌, length};
ghost use Rattle.std.proofs.lemmas.List.Edits.{sets};
ghost use Rattle.scene_format.specs.Format.{most_models, model_number, first_head, counts_of};
ghost use Rattle.scene_format.specs.Within.{RecordWithin, ModelWithin, ModelsWithin};
ghost use Rattle.scene_layout.specs.Layout.{layout_models, layout_of};
ghost use Rattle.scene_check.specs.Check.{CountsAre};
ghost use Rattle.scene_check.specs.Walk as walk;
ghost use Rattle.scene_walk.specs.Walk.{fields};
ghost use Rattle.std.specs.declared.result.Result.TheVariants.{Ok};

use crate::contact_list::names;
use scene_format::format::{
    BOUNDARY_CONTACT_WIDTH, NAMEABLE_MODELS, boundary_count, contact_counts, contact_width,
    header_width,
};
use scene_format::read::{axes, byte, first_record, keeps, particles};
use scene_format::{Kind, Refusal};
use scene_layout::{Layout, Models};

// The record at an offset, of the model with that head. `fluids` and `boundaries` are the counts by model.
fn record_names(
    s: &[u8],
    kind: Kind,
    fluids: &[usize; NAMEABLE_MODELS],
    boundaries: &[usize; NAMEABLE_MODELS],
    head: usize,
    at: usize,
) -> Result<usize, Refusal>
    requires counts_are { CountsAre s.now fluids.now boundaries.now }
    requires record_within { RecordWithin kind s.now head at }
    ensures { result ≡ walk.record_names_of kind s.now head at }
{
    let dim = axes(s);
    match kind {
        Kind::Fluid => {
            let counts = contact_counts(dim);
            let width = contact_width(dim);
            let n = byte(s, at + counts);
            let middle = names(s, fluids, width, n, at + (counts + 2)).walk?;
            let n = byte(s, at + (counts + 1));
            names(s, boundaries, width, n, middle).walk
        }
        Kind::Boundary => {
            let count = boundary_count(dim, keeps(s, head));
            let n = byte(s, at + count);
            names(s, boundaries, BOUNDARY_CONTACT_WIDTH, n, at + (count + 1)).walk
        }
    }
}

// The records of the model with that head.
fn model_names(
    s: &[u8],
    kind: Kind,
    fluids: &[usize; NAMEABLE_MODELS],
    boundaries: &[usize; NAMEABLE_MODELS],
    head: usize,
) -> Result<usize, Refusal>
    requires counts_are { CountsAre s.now fluids.now boundaries.now }
    requires model_within { ModelWithin kind s.now head }
    ensures { result ≡ walk.model_names_of kind s.now head }
{
    let mut at = first_record(kind, head);
    for _ in 0..particles(s, kind, head) {
        at = record_names(s, kind, fluids, boundaries, head, at)?;
    }
    Ok(at)
}

// The n models of a kind, of which the first has its head at an offset.
fn models_names(
    s: &[u8],
    kind: Kind,
    fluids: &[usize; NAMEABLE_MODELS],
    boundaries: &[usize; NAMEABLE_MODELS],
    n: usize,
    from: usize,
) -> Result<usize, Refusal>
    requires counts_are { CountsAre s.now fluids.now boundaries.now }
    requires models_within { ModelsWithin kind s.now }
    requires n_value { (n ≡ model_number kind s.now) × (from ≡ first_head kind s.now) }
    ensures { result ≡ walk.models_names_of kind s.now from }
{
    let mut at = from;
    for _ in 0..n {
        at = model_names(s, kind, fluids, boundaries, at)?;
    }
    Ok(at)
}

// The count of each model of a kind, in front of a list.
pub fn fill_counts(s: &[u8], kind: Kind, models: Models, counts: &mut [usize])
    requires models_within { ModelsWithin kind s.now × (models ≡ layout_models kind s.now) }
    requires most_models_in_bounds { most_models ≤ length counts.old }
    ensures { counts.new ≡ sets counts.old 0 (counts_of kind s.now) }
{
    let heads = &models.heads[..models.number];
    for (m, &head) in heads.iter().enumerate() {
        counts[m] = particles(s, kind, head);
    }
}

// All contacts of a scene, by its layout.
pub fn all_names(s: &[u8], layout: Layout) -> Result<usize, Refusal>
    requires { (fields s.now ≡ Ok (length s.now)) × (layout ≡ layout_of s.now) }
    ensures { result ≡ walk.all_names s.now }
{
    let fluid_models = layout.fluids;
    let boundary_models = layout.boundaries;
    let mut fluids = [0usize; NAMEABLE_MODELS];
    let mut boundaries = [0usize; NAMEABLE_MODELS];
    fill_counts(s, Kind::Fluid, fluid_models, &mut fluids);
    fill_counts(s, Kind::Boundary, boundary_models, &mut boundaries);
    let number = fluid_models.number;
    let first = header_width(axes(s));
    let at = models_names(s, Kind::Fluid, &fluids, &boundaries, number, first)?;
    let number = boundary_models.number;
    models_names(s, Kind::Boundary, &fluids, &boundaries, number, at)
}
