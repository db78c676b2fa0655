// The walk through the fields of a packed scene: refusals 1 to 6. Each function is a step of specs/Walk.antt, and takes
// any offset; two more look ahead at contacts, by specs/Plainly.antt.
#![tactic(auto)]

ghost use Rattle.std.specs.Prelude.{◌≡◌, ◌+◌, ◌*◌, ◌≤◌, ◌<◌, length};
ghost use Rattle.scene_fields.specs.Fields.{times};
ghost use Rattle.scene_format.specs.Bytes.{double_width};
ghost use Rattle.scene_format.specs.Format.{bit, contact_doubles, min_pressure_iter_offset, count_width};
ghost use Rattle.scene_walk.specs.Plainly.{contact_bytes, doubles_plainly_finite, contacts_plainly_finite};
ghost use Rattle.scene_walk.specs.Walk as walk;

use scene_fields::fields::{Half, count, double, doubles, ended, halves, plain};
use scene_format::format::{
    BOUNDARY_CONTACT_DOUBLES, DOUBLE_WIDTH, NAME_WIDTH, boundary_doubles, contact_doubles,
    contact_width, header_doubles, record_doubles,
};
use scene_format::read::{axes, byte, keeps, model_number, most_rule, particles, plainly_finite};
use scene_format::{Kind, Refusal};

// The header: each name is where that field stands.
fn header(s: &[u8], from: usize) -> Result<usize, Refusal>
    ensures { result ≡ walk.header s.now from }
{
    let boundaries = halves(s, Half::Version, Half::ModelCount, from)?;
    let rule = Half::Rule(most_rule(s));
    let min_pressure_iter = halves(s, Half::ModelCount, rule, boundaries)?;
    let max_pressure_iter = plain(s, 1, min_pressure_iter)?;
    let numbers = plain(s, 1, max_pressure_iter)?;
    doubles(s, header_doubles(axes(s)), numbers)
}

// A contact: its name and d doubles.
fn contact(s: &[u8], d: usize, from: usize) -> Result<usize, Refusal>
    ensures { result ≡ walk.contact d s.now from }
{
    let first = plain(s, NAME_WIDTH, from)?;
    doubles(s, d, first)
}

// n contacts of d doubles.
fn contacts(s: &[u8], d: usize, n: usize, from: usize) -> Result<usize, Refusal>
    ensures { result ≡ times n (walk.contact d s.now) from }
{
    (0..n).try_fold(from, |at, _| contact(s, d, at))
}

// Whether of n doubles the first bytes alone tell that they are finite.
fn doubles_plainly_finite(s: &[u8], n: usize, from: usize) -> bool
    requires { from + double_width * n ≤ length s.now }
    ensures { result ≡ doubles_plainly_finite s.now n from }
{
    for i in 0..n {
        if !plainly_finite(s, from + DOUBLE_WIDTH * i) {
            return false;
        }
    }
    true
}

// Whether they tell it of n contacts of d doubles each; the names are passed over.
fn contacts_plainly_finite(s: &[u8], d: usize, n: usize, from: usize) -> bool
    requires { from + contact_bytes d * n ≤ length s.now }
    ensures { result ≡ contacts_plainly_finite s.now d n from }
{
    (0..n).all(|k| {
        let contact = from + (NAME_WIDTH + DOUBLE_WIDTH * d) * k;
        doubles_plainly_finite(s, d, contact + NAME_WIDTH)
    })
}

// n contacts of a fluid record, as many as two bytes count. Nearly always they are there and plainly finite, which one
// look at each double tells; where it does not hold of all, the walk goes from field to field.
fn fluid_contacts(s: &[u8], dim: u8, n: usize, from: usize) -> Result<usize, Refusal>
    requires { n < 2 * 256 }
    ensures { result ≡ times n (walk.contact (contact_doubles dim) s.now) from }
{
    let d = contact_doubles(dim);
    match plain(s, contact_width(dim) * n, from) {
        Ok(end) if contacts_plainly_finite(s, d, n, from) => Ok(end),
        _ => contacts(s, d, n, from),
    }
}

// A fluid particle. Its contacts of both kinds are one list.
fn fluid_record(s: &[u8], from: usize) -> Result<usize, Refusal>
    ensures { result ≡ walk.fluid_record s.now from }
{
    let dim = axes(s);
    let fluids = doubles(s, record_doubles(dim), from)?;
    let boundaries = plain(s, 1, fluids)?;
    let first = plain(s, 1, boundaries)?;
    let n = byte(s, fluids) + byte(s, boundaries);
    fluid_contacts(s, dim, n, first)
}

// A boundary particle, by whether its boundary keeps forces.
fn boundary_record(s: &[u8], keeps: bool, from: usize) -> Result<usize, Refusal>
    ensures { result ≡ walk.boundary_record s.now (bit keeps) from }
{
    let count = doubles(s, boundary_doubles(axes(s), keeps), from)?;
    let first = plain(s, 1, count)?;
    contacts(s, BOUNDARY_CONTACT_DOUBLES, byte(s, count), first)
}

// A record of the model whose head is at an offset.
fn record(s: &[u8], kind: Kind, head: usize, from: usize) -> Result<usize, Refusal>
    requires { head + count_width ≤ length s.now }
    ensures { result ≡ walk.record_of kind s.now head from }
{
    match kind {
        Kind::Fluid => fluid_record(s, from),
        Kind::Boundary => boundary_record(s, keeps(s, head), from),
    }
}

// The head of a model: its count, and a fluid's rest density.
fn model_head(s: &[u8], kind: Kind, from: usize) -> Result<usize, Refusal>
    ensures { result ≡ walk.head_of kind s.now from }
{
    let next = count(s, kind, from)?;
    match kind {
        Kind::Fluid => double(s, next),
        Kind::Boundary => Ok(next),
    }
}

// A model: its head and its records.
fn model(s: &[u8], kind: Kind, head: usize) -> Result<usize, Refusal>
    ensures { result ≡ walk.model_of kind s.now head }
{
    let first = model_head(s, kind, head)?;
    (0..particles(s, kind, head)).try_fold(first, |at, _| record(s, kind, head, at))
}

// All models of a kind.
fn models(s: &[u8], kind: Kind, from: usize) -> Result<usize, Refusal>
    requires { min_pressure_iter_offset ≤ length s.now }
    ensures { result ≡ walk.models_of kind s.now from }
{
    (0..model_number(s, kind)).try_fold(from, |at, _| model(s, kind, at))
}

// All fields.
pub fn fields(s: &[u8]) -> Result<usize, Refusal>
    ensures { result ≡ walk.fields s.now }
{
    let fluids = header(s, 0)?;
    let boundaries = models(s, Kind::Fluid, fluids)?;
    let end = models(s, Kind::Boundary, boundaries)?;
    ended(s, end)
}
