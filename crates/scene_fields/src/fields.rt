// The single fields of a packed scene: present (1), then by its own rule (2, 3, 4, 6) (FORMAT 2.2). Each function is a
// step of specs/Fields.antt, from an offset to the next one or to a refusal, and takes any offset.
ghost use Rattle.std.specs.Prelude.{◌≡◌};
ghost use Rattle.std.specs.Result.{result_and};
ghost use Rattle.scene_format.specs.Format.{version_known};
ghost use Rattle.scene_format.specs.Refusals.{Walk};
ghost use Rattle.scene_fields.specs.Fields as walk;

use scene_format::format::{
    COUNT_WIDTH, DOUBLE_WIDTH, FIRST_VERSION, FLAT_VERSION, HALF_MODULUS, MAX_MODELS,
    MAX_PARTICLES, RULED_VERSION,
};
use scene_format::read::{byte, non_finite, particles};
use scene_format::{Kind, Refusal};

// A field of k bytes with no rule of its own. Every other field is read only once it has passed this. Over many fields
// in turn the first test and the difference are made once; a sum would be tested at each.
pub fn plain(s: &[u8], k: usize, at: usize) -> Result<usize, Refusal>
    ensures { result ≡ walk.plain s.now k at }
{
    if k <= s.len() && at <= s.len() - k {
        return Ok(at + k);
    }
    Err(Refusal::MissingField(at))
}

// A double, which is to be finite.
pub fn double(s: &[u8], at: usize) -> Result<usize, Refusal>
    ensures { result ≡ walk.double s.now at }
{
    let next = plain(s, DOUBLE_WIDTH, at)?;
    if non_finite(s, at) {
        return Err(Refusal::NotFinite(at));
    }
    Ok(next)
}

// n doubles.
pub fn doubles(s: &[u8], n: usize, from: usize) -> Result<usize, Refusal>
    ensures { result ≡ walk.times n (walk.double s.now) from }
{
    (0..n).try_fold(from, |at, _| double(s, at))
}

// The count of a model of a kind.
pub fn count(s: &[u8], kind: Kind, at: usize) -> Result<usize, Refusal>
    ensures { result ≡ walk.count kind s.now at }
{
    let next = plain(s, COUNT_WIDTH, at)?;
    if MAX_PARTICLES < particles(s, kind, at) {
        return Err(Refusal::TooManyParticles(at));
    }
    Ok(next)
}

// The rule of half a byte: it is a version that is known, or a rule of at most some number, or a number of models.
#[derive(Clone, Copy)]
pub enum Half {
    Version,
    Rule(usize),
    ModelCount,
}

// Whether a version is known.
fn version_known(version: usize) -> bool
    ensures { result ≡ version_known version }
{
    version == FIRST_VERSION || version == RULED_VERSION || version == FLAT_VERSION
}

// Half a byte, x, at an offset keeps its rule, or is refused.
fn half_byte(rule: Half, x: usize, at: usize) -> Result<(), Refusal>
    ensures { (onward : Walk) → walk.half_byte rule x at onward ≡ result_and result onward }
{
    match rule {
        Half::Version if !version_known(x) => Err(Refusal::UnknownForm(at)),
        Half::Rule(most) if most < x => Err(Refusal::UnknownForm(at)),
        Half::ModelCount if MAX_MODELS < x => Err(Refusal::TooManyModels(at)),
        _ => Ok(()),
    }
}

// A byte of two halves, the upper one first.
pub fn halves(s: &[u8], upper: Half, lower: Half, at: usize) -> Result<usize, Refusal>
    ensures { result ≡ walk.halves s.now upper lower at }
{
    let next = plain(s, 1, at)?;
    let b = byte(s, at);
    half_byte(upper, b / HALF_MODULUS, at)?;
    half_byte(lower, b % HALF_MODULUS, at)?;
    Ok(next)
}

// Nothing follows.
pub fn ended(s: &[u8], at: usize) -> Result<usize, Refusal>
    ensures { result ≡ walk.ended s.now at }
{
    if at < s.len() {
        return Err(Refusal::TrailingBytes(at));
    }
    Ok(at)
}
