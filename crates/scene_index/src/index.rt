// The index of an accepted scene, filled into a lent list: the bases of contacts' names, and where each record and its
// model's head stand.
ghost use Rattle.std.specs.Prelude.{◌≡◌, map, ◌+◌, ◌≤◌, length};
ghost use Rattle.std.proofs.lemmas.List.Edits.{sets};
ghost use Rattle.scene_check.specs.Check.{Passed};
ghost use Rattle.scene_format.specs.Format.{most_of_a_kind, particles_at, model_locations, locations_of};
ghost use Rattle.scene_format.specs.Scene.{size_of};
ghost use Rattle.scene_format.specs.SceneOf.{scene_of};
ghost use Rattle.scene_format.specs.Within.{ModelWithin, ModelsWithin};
ghost use Rattle.scene_layout.specs.Layout.{layout_models};
ghost use Rattle.scene_index.specs.Index.{model_blocks, starts_length, bases_length, index_needed, sections_of};
ghost use Rattle.scene_index.specs.Index.{blocks_from, kind_bases, entry_of, entries_of, start_numbers, index_of};

use scene_format::Kind;
use scene_format::format::{MAX_MODELS, MAX_PARTICLES, NAMEABLE_PARTICLES};
use scene_format::read::{first_record, next_record, particles};
use scene_layout::{Layout, Models};

// The names of a model's particles fall into blocks of so many numbers, and so many blocks.
pub const BLOCK_SIZE: usize = 256;

pub const MODEL_BLOCKS: usize = NAMEABLE_PARTICLES / BLOCK_SIZE;

const MAX_OF_A_KIND: usize = MAX_MODELS * MAX_PARTICLES;

// The first numbers of the index say where its sections begin, but for the bases of the fluids, which stand right
// behind them.
pub const BOUNDARY_BASES: usize = 0;

pub const RECORDS: usize = 1;

pub const HEADS: usize = 2;

pub const BOUNDARY_RECORDS: usize = 3;

pub const FLUID_BASES: usize = 4;

// Three sizes for an index on the stack: for fifty particles, for two thousand, and for every accepted scene.
pub const SMALL_INDEX: usize = 192;

pub const MIDDLE_INDEX: usize = 4096;

pub const LONGEST_INDEX: usize = FLUID_BASES + 2 * (MODEL_BLOCKS * MAX_MODELS) + 3 * MAX_OF_A_KIND;

// Where the sections of an index begin, and how long it is.
#[derive(Clone, Copy)]
pub struct Sections {
    pub boundary_bases: usize,
    pub records: usize,
    pub heads: usize,
    pub boundary_records: usize,
    pub end: usize,
}

// What the index holds of each record.
#[derive(Clone, Copy)]
enum Entry {
    // Its offset.
    Offset,
    // That of its model's head.
    Head,
}

// The sections of the index of a scene with this layout.
fn sections_of(scene: &[u8], layout: Layout) -> Sections
    requires { Passed scene.now layout }
    ensures { result ≡ sections_of scene.now }
{
    let fluids = layout.fluids;
    let boundaries = layout.boundaries;
    let boundary_bases = FLUID_BASES + MODEL_BLOCKS * fluids.number;
    let records = boundary_bases + MODEL_BLOCKS * boundaries.number;
    let heads = records + fluids.total;
    let boundary_records = heads + fluids.total;
    let end = boundary_records + boundaries.total;
    Sections {
        boundary_bases,
        records,
        heads,
        boundary_records,
        end,
    }
}

// How long the index of a scene with this layout is.
pub fn index_needed(scene: &[u8], layout: Layout) -> usize
    requires { Passed scene.now layout }
    ensures { result ≡ index_needed scene.now }
{
    sections_of(scene, layout).end
}

// The numbers in front.
fn put_starts(sections: Sections, index: &mut [usize])
    requires { starts_length ≤ length index.old }
    ensures { index.new ≡ sets index.old 0 (start_numbers sections) }
{
    index[BOUNDARY_BASES] = sections.boundary_bases;
    index[RECORDS] = sections.records;
    index[HEADS] = sections.heads;
    index[BOUNDARY_RECORDS] = sections.boundary_records;
}

// The bases of one model, whose first particle has the number `start`, from element k on: of each block of its names.
fn fill_blocks(start: usize, k: usize, index: &mut [usize])
    requires { (start ≤ most_of_a_kind) × (k + model_blocks ≤ length index.old) }
    ensures { index.new ≡ sets index.old k (blocks_from start) }
{
    for x in 0..MODEL_BLOCKS {
        index[k + x] = start + BLOCK_SIZE * x;
    }
}

// The bases of one kind, from element k on.
#[tactic(auto, using(scene_layout::proofs::Turns::number_few))]
fn fill_bases(scene: &[u8], kind: Kind, models: Models, k: usize, index: &mut [usize])
    requires models_within { ModelsWithin kind scene.now × (models ≡ layout_models kind scene.now) }
    requires scene_bound { (size_of kind (scene_of scene.now) ≤ most_of_a_kind)
        × (k + bases_length kind scene.now ≤ length index.old) }
    ensures { index.new ≡ sets index.old k (kind_bases kind scene.now) }
{
    let mut start = 0;
    let mut to = k;
    for &head in &models.heads[..models.number] {
        fill_blocks(start, to, index);
        start += particles(scene, kind, head);
        to += MODEL_BLOCKS;
    }
}

// The offsets of one model's n records, from element k on.
fn fill_offsets(scene: &[u8], kind: Kind, head: usize, n: usize, k: usize, index: &mut [usize])
    requires model_within { ModelWithin kind scene.now head }
    requires n_value { (n ≡ particles_at kind scene.now head) × (k + n ≤ length index.old) }
    ensures { index.new
        ≡ sets index.old k (map (entry_of Entry.Offset) (model_locations kind scene.now head)) }
{
    let mut at = first_record(kind, head);
    for i in 0..n {
        index[k + i] = at;
        at = next_record(scene, kind, head, at);
    }
}

// One entry of each of a model's n records, from element k on.
fn fill_model(
    scene: &[u8],
    kind: Kind,
    entry: Entry,
    head: usize,
    n: usize,
    k: usize,
    index: &mut [usize],
)
    requires model_within { ModelWithin kind scene.now head }
    requires n_value { (n ≡ particles_at kind scene.now head) × (k + n ≤ length index.old) }
    ensures { index.new
        ≡ sets index.old k (map (entry_of entry) (model_locations kind scene.now head)) }
{
    match entry {
        Entry::Offset => fill_offsets(scene, kind, head, n, k, index),
        Entry::Head => index[k..k + n].fill(head),
    }
}

// One entry of each record of a kind, from element k on.
#[tactic(auto, using(scene_layout::proofs::Turns::number_few))]
fn fill_models(
    scene: &[u8],
    kind: Kind,
    entry: Entry,
    models: Models,
    k: usize,
    index: &mut [usize],
)
    requires models_within { ModelsWithin kind scene.now × (models ≡ layout_models kind scene.now) }
    requires scene_in_bounds { k + length (locations_of kind scene.now) ≤ length index.old }
    ensures { index.new ≡ sets index.old k (entries_of entry kind scene.now) }
{
    let mut to = k;
    for &head in &models.heads[..models.number] {
        let n = particles(scene, kind, head);
        fill_model(scene, kind, entry, head, n, to, index);
        to += n;
    }
}

// The whole index, in front of a list.
pub fn fill(scene: &[u8], layout: Layout, index: &mut [usize])
    requires { Passed scene.now layout × (index_needed scene.now ≤ length index.old) }
    ensures { index.new ≡ sets index.old 0 (index_of scene.now) }
{
    let fluids = layout.fluids;
    let boundaries = layout.boundaries;
    let sections = sections_of(scene, layout);
    let bases = sections.boundary_bases;
    let records = sections.records;
    let heads = sections.heads;
    let boundary_records = sections.boundary_records;
    put_starts(sections, index);
    fill_bases(scene, Kind::Fluid, fluids, FLUID_BASES, index);
    fill_bases(scene, Kind::Boundary, boundaries, bases, index);
    fill_models(scene, Kind::Fluid, Entry::Offset, fluids, records, index);
    fill_models(scene, Kind::Fluid, Entry::Head, fluids, heads, index);
    fill_models(
        scene,
        Kind::Boundary,
        Entry::Offset,
        boundaries,
        boundary_records,
        index,
    );
}
