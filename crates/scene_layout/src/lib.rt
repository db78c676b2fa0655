// Where the models of a scene stand, found by stepping over the records. `layout_of` and `record_offset` ask that the
// scene's fields are accepted, which their callers have from the walk.
#![tactic(auto)]

ghost use Rattle.std.specs.Prelude.{◌≡◌, ◌≤◌, length};
ghost use Rattle.scene_format.specs.Format.{model_number, particles_at, model_end, first_head, record_at};
ghost use Rattle.scene_format.specs.Within.{ModelWithin, ModelsWithin};
ghost use Rattle.scene_layout.specs.Layout.{layout_models, layout_of};
ghost use Rattle.scene_walk.specs.Walk as walk;
ghost use Rattle.std.specs.declared.result.Result.TheVariants.{Ok};

use scene_format::Kind;
use scene_format::format::{MAX_MODELS, header_width};
use scene_format::read::{axes, first_record, model_number, next_record, particles};

// The models of one kind: how many there are and how many particles they have in all; the offset of each head, 0 beyond
// the last model; and the offset behind the last. What else is asked of a model is read at its head: a layout is handed
// on by value, so it is kept small.
#[derive(Clone, Copy)]
pub struct Models {
    pub number: usize,
    pub total: usize,
    pub heads: [usize; MAX_MODELS],
    pub end: usize,
}

// Where the models of an accepted scene stand. The boundaries begin where the fluids end.
#[derive(Clone, Copy)]
pub struct Layout {
    pub fluids: Models,
    pub boundaries: Models,
}

// Where record j of the model with that head begins; for as many as it has, where the model ends.
pub fn record_offset(s: &[u8], kind: Kind, head: usize, j: usize) -> usize
    requires { ModelWithin kind s.now head × (j ≤ particles_at kind s.now head) }
    ensures { result ≡ (record_at kind s.now head j).at }
{
    let mut at = first_record(kind, head);
    for _ in 0..j {
        at = next_record(s, kind, head, at);
    }
    at
}

// Where that model ends.
fn model_end(s: &[u8], kind: Kind, head: usize) -> usize
    requires { ModelWithin kind s.now head }
    ensures { result ≡ model_end kind s.now head }
{
    record_offset(s, kind, head, particles(s, kind, head))
}

// The n models of a kind, of which the first has its head at an offset.
fn models_of(s: &[u8], kind: Kind, n: usize, from: usize) -> Models
    requires models_within { ModelsWithin kind s.now }
    requires n_value { (n ≡ model_number kind s.now) × (from ≡ first_head kind s.now) }
    ensures { result ≡ layout_models kind s.now }
{
    let mut heads = [0usize; MAX_MODELS];
    let mut total = 0;
    let mut at = from;
    for head in &mut heads[..n] {
        *head = at;
        total += particles(s, kind, at);
        at = model_end(s, kind, at);
    }
    Models {
        number: n,
        total,
        heads,
        end: at,
    }
}

// The layout of both kinds; the boundaries begin where the fluids end.
pub fn layout_of(s: &[u8]) -> Layout
    requires { walk.fields s.now ≡ Ok (length s.now) }
    ensures { result ≡ layout_of s.now }
{
    let first = header_width(axes(s));
    let fluids = models_of(s, Kind::Fluid, model_number(s, Kind::Fluid), first);
    let number = model_number(s, Kind::Boundary);
    let boundaries = models_of(s, Kind::Boundary, number, fluids.end);
    Layout { fluids, boundaries }
}
