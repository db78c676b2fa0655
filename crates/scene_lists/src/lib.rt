// The check of one contact list of a scene for refusal 7, asked for by whose list it is, with the looks that it takes.
#![tactic(auto)]

ghost use Rattle.std.specs.Prelude.{◌≡◌};
ghost use Rattle.scene_format.specs.Within.{RecordWithin};
ghost use Rattle.scene_layout.specs.Layout.{layout_models, layout_of};
ghost use Rattle.scene_check.specs.Check.{CountsOfKind};
ghost use Rattle.scene_lists.specs.Lists.{owner_of, named_of, list_looked, list_answer};

use scene_check::contact_list::{Looked, names};
use scene_check::walk_names::fill_counts;
use scene_format::format::{
    BOUNDARY_CONTACT_WIDTH, NAMEABLE_MODELS, boundary_count, contact_counts, contact_width,
};
use scene_format::read::{axes, byte, keeps, particles};
use scene_format::{Kind, Refusal};
use scene_layout::{Layout, Models, layout_of, record_offset};
use scene_walk::fields;

// Whose contacts a list holds, and what they name. A fluid particle has a list of each of the first two, a boundary
// particle one of the third (the Rust's `fluid_fluid_contacts`, `fluid_boundary_contacts` and
// `boundary_boundary_contacts`).
#[derive(Clone, Copy)]
pub enum Contacts {
    FluidFluid,
    FluidBoundary,
    BoundaryBoundary,
}

// The kind of the particles that have such contacts.
fn owner_of(contacts: Contacts) -> Kind
    ensures { result ≡ owner_of contacts }
{
    match contacts {
        Contacts::FluidFluid => Kind::Fluid,
        Contacts::FluidBoundary => Kind::Fluid,
        Contacts::BoundaryBoundary => Kind::Boundary,
    }
}

// The kind of the particles that they name.
fn named_of(contacts: Contacts) -> Kind
    ensures { result ≡ named_of contacts }
{
    match contacts {
        Contacts::FluidFluid => Kind::Fluid,
        Contacts::FluidBoundary => Kind::Boundary,
        Contacts::BoundaryBoundary => Kind::Boundary,
    }
}

// The models of a kind.
fn models_of(scene: &[u8], layout: Layout, kind: Kind) -> Models
    requires { layout ≡ layout_of scene.now }
    ensures { result ≡ layout_models kind scene.now }
{
    match kind {
        Kind::Fluid => layout.fluids,
        Kind::Boundary => layout.boundaries,
    }
}

// A list of the record at an offset, of the model with that head. `counts` has the count of each model that its
// contacts may name.
fn list_looked(
    s: &[u8],
    counts: &[usize; NAMEABLE_MODELS],
    contacts: Contacts,
    head: usize,
    at: usize,
) -> Looked
    requires record_within { RecordWithin (owner_of contacts) s.now head at }
    requires counts_of_kind { CountsOfKind (named_of contacts) s.now counts.now }
    ensures { result ≡ list_looked contacts s.now (record { head = head; at = at }) }
{
    let dim = axes(s);
    match contacts {
        Contacts::FluidFluid => {
            let count = contact_counts(dim);
            let width = contact_width(dim);
            let n = byte(s, at + count);
            names(s, counts, width, n, at + (count + 2))
        }
        Contacts::FluidBoundary => {
            let count = contact_counts(dim);
            let width = contact_width(dim);
            let before = byte(s, at + count);
            let n = byte(s, at + (count + 1));
            names(s, counts, width, n, at + (count + 2) + width * before)
        }
        Contacts::BoundaryBoundary => {
            let count = boundary_count(dim, keeps(s, head));
            let n = byte(s, at + count);
            names(s, counts, BOUNDARY_CONTACT_WIDTH, n, at + (count + 1))
        }
    }
}

// The check of one contact list: that of particle `particle` of model `model`.
pub fn check_list(
    scene: &[u8],
    contacts: Contacts,
    model: usize,
    particle: usize,
) -> Result<Option<Looked>, Refusal>
    ensures { result ≡ list_answer scene.now contacts model particle }
{
    fields(scene)?;
    let layout = layout_of(scene);
    let owner = owner_of(contacts);
    let owners = models_of(scene, layout, owner);
    if owners.number <= model {
        return Ok(None);
    }
    let head = owners.heads[model];
    if particles(scene, owner, head) <= particle {
        return Ok(None);
    }
    let named = named_of(contacts);
    let mut counts = [0usize; NAMEABLE_MODELS];
    fill_counts(scene, named, models_of(scene, layout, named), &mut counts);
    let at = record_offset(scene, owner, head, particle);
    Ok(Some(list_looked(scene, &counts, contacts, head, at)))
}
