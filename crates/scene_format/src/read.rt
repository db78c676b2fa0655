// Reads at an offset. They ask for what an accepted scene gives: the bytes are there, and a double is finite.
ghost use Rattle.std.specs.Prelude.{◌≡◌, ◌+◌, ◌≤◌, ◌<◌, length, eqb};
ghost use Rattle.math.specs.Vector.{Axes, coordinates};
ghost use Rattle.scene_format.specs.Bytes.{byte_at, be16_at, be32_at, be64_at, double_width, exponent_at, double_at};
ghost use Rattle.scene_format.specs.Bytes.{non_finite_exponent, plainly_finite};
ghost use Rattle.scene_format.specs.Bytes.{vector_at, FiniteAt, AllFinite};
ghost use Rattle.scene_format.specs.Format.{axes_of, bit, count_width, keeps_at, name_width, particles_at};
ghost use Rattle.scene_format.specs.Format.{first_record, next_record, count_modulus, min_pressure_iter_offset};
ghost use Rattle.scene_format.specs.Format.{model_number, version_of, rule_of, most_rule, criterion_of};
ghost use Rattle.scene_format.specs.Format.{summation_of};
ghost use Rattle.scene_format.specs.Within.{NameIs, RecordWithin};

use crate::format::{
    BOUNDARY_CONTACT_WIDTH, BOUNDARY_COUNT_MODULUS, COUNT_WIDTH, CRITERIA, DOUBLE_WIDTH,
    FIRST_VERSION, FLAT_VERSION, FLUID_HEAD_WIDTH, HALF_MODULUS, LAST_RULE, NAMEABLE_PARTICLES,
    boundary_count, contact_counts, contact_width,
};
use crate::{ContactName, Criterion, Kind, ModelNumber, ParticleNumber, Summation};
use math::{PLANE, SPACE, Vec3};

// The byte at an offset.
pub fn byte(s: &[u8], at: usize) -> usize
    requires { at < length s.now }
    ensures { (result ≡ byte_at s.now at) × (result < 256) }
{
    usize::from(s[at])
}

// The number in two bytes, the first of which has the upper bits.
pub fn be16(s: &[u8], at: usize) -> usize
    requires { at + 2 ≤ length s.now }
    ensures { (result ≡ be16_at s.now at) × (result < 65536) }
{
    usize::from(u16::from_be_bytes([s[at], s[at + 1]]))
}

// In the first two bytes of a double, the sign comes first, then the exponent, then the front of the fraction.
const EXPONENT_MODULUS: usize = 2048;

const FRONT_MODULUS: usize = 16;

// Of a double: the eleven bits of its exponent.
pub fn exponent(s: &[u8], at: usize) -> usize
    requires { at + double_width ≤ length s.now }
    ensures { result ≡ exponent_at s.now at }
{
    be16(s, at) / FRONT_MODULUS % EXPONENT_MODULUS
}

// The exponent of infinities and of what is not a number, and its part in the first byte, behind the sign.
const NON_FINITE_EXPONENT: usize = 2047;

const SIGN_MODULUS: usize = 128;

const NON_FINITE_FRONT: usize = 127;

// Whether the first byte alone tells that a double is finite. It does of all but the largest numbers.
pub fn plainly_finite(s: &[u8], at: usize) -> bool
    requires { at < length s.now }
    ensures { result ≡ plainly_finite s.now at }
{
    byte(s, at) % SIGN_MODULUS != NON_FINITE_FRONT
}

// Whether a double is infinite or not a number.
pub fn non_finite(s: &[u8], at: usize) -> bool
    requires { at + double_width ≤ length s.now }
    ensures { result ≡ eqb (exponent_at s.now at) non_finite_exponent }
{
    if plainly_finite(s, at) {
        return false;
    }
    exponent(s, at) == NON_FINITE_EXPONENT
}

// In this form one load and a byte swap, once compiled.
fn be64(s: &[u8], at: usize) -> u64
    requires { at + double_width ≤ length s.now }
    ensures { result ≡ be64_at s.now at }
{
    u64::from_be_bytes([
        s[at],
        s[at + 1],
        s[at + 2],
        s[at + 3],
        s[at + 4],
        s[at + 5],
        s[at + 6],
        s[at + 7],
    ])
}

// The double at an offset, which is finite.
pub fn double(s: &[u8], at: usize) -> f64
    requires { FiniteAt s.now at }
    ensures { result ≡ double_at s.now at }
{
    f64::from_bits(be64(s, at))
}

// The vector at an offset, whose doubles are finite. In the plane y is read twice, since a branch would cost more.
pub fn vector(s: &[u8], at: usize, dim: u8) -> Vec3
    requires { Axes dim × AllFinite s.now at dim }
    ensures { coordinates dim result ≡ vector_at dim s.now at }
{
    Vec3 {
        x: double(s, at),
        y: double(s, at + DOUBLE_WIDTH),
        z: double(s, at + DOUBLE_WIDTH * (usize::from(dim) - 1)),
    }
}

// The model number and the particle number that a contact at an offset names.
pub fn contact_name(s: &[u8], at: usize) -> ContactName
    requires { at + name_width ≤ length s.now }
    ensures { NameIs s.now at result }
{
    let name = be16(s, at);
    ContactName {
        model: ModelNumber(name / NAMEABLE_PARTICLES),
        particle: ParticleNumber(name % NAMEABLE_PARTICLES),
    }
}

// Of the header: how many models of a kind there are.
pub fn model_number(s: &[u8], kind: Kind) -> usize
    requires { min_pressure_iter_offset ≤ length s.now }
    ensures { result ≡ model_number kind s.now }
{
    match kind {
        Kind::Fluid => byte(s, 0) % HALF_MODULUS,
        Kind::Boundary => byte(s, 1) / HALF_MODULUS,
    }
}

// The number of axes, by the version; of no bytes, that of every version but the flat one.
pub fn axes(s: &[u8]) -> u8
    ensures { (result ≡ axes_of s.now) × Axes result }
{
    if s.len() == 0 {
        return SPACE;
    }
    if byte(s, 0) / HALF_MODULUS == FLAT_VERSION {
        PLANE
    } else {
        SPACE
    }
}

// Of the header: the number of its rule.
fn rule(s: &[u8]) -> usize
    requires { min_pressure_iter_offset ≤ length s.now }
    ensures { result ≡ rule_of s.now }
{
    byte(s, 1) % HALF_MODULUS
}

// Of the header: the criterion that its rule stands for.
pub fn criterion(s: &[u8]) -> Criterion
    requires { min_pressure_iter_offset ≤ length s.now }
    ensures { result ≡ criterion_of (rule_of s.now) }
{
    if rule(s) % CRITERIA == 0 {
        Criterion::Salva
    } else {
        Criterion::Ihmsen
    }
}

// Of the header: the summation that its rule stands for.
pub fn summation(s: &[u8]) -> Summation
    requires { min_pressure_iter_offset ≤ length s.now }
    ensures { result ≡ summation_of (rule_of s.now) }
{
    if rule(s) / CRITERIA == 0 {
        Summation::InOrder
    } else {
        Summation::ByHalves
    }
}

// Of the header: the greatest rule that its version has.
pub fn most_rule(s: &[u8]) -> usize
    requires { 1 ≤ length s.now }
    ensures { result ≡ most_rule (version_of s.now) }
{
    if byte(s, 0) / HALF_MODULUS == FIRST_VERSION {
        0
    } else {
        LAST_RULE
    }
}

// Of a boundary's head: whether the boundary keeps forces.
pub fn keeps(s: &[u8], head: usize) -> bool
    requires { head + count_width ≤ length s.now }
    ensures { keeps_at s.now head ≡ bit result }
{
    be16(s, head) >= BOUNDARY_COUNT_MODULUS
}

// Of a model's head: how many particles the model has.
pub fn particles(s: &[u8], kind: Kind, head: usize) -> usize
    requires { head + count_width ≤ length s.now }
    ensures { (result ≡ particles_at kind s.now head) × (result < count_modulus Kind.Fluid) }
{
    match kind {
        Kind::Fluid => be16(s, head),
        Kind::Boundary => be16(s, head) % BOUNDARY_COUNT_MODULUS,
    }
}

// Of a model's head: where the first record is.
pub fn first_record(kind: Kind, head: usize) -> usize
    requires { head < 0x8000_0000_0000_0000 }
    ensures { result ≡ first_record kind head }
{
    match kind {
        Kind::Fluid => head + FLUID_HEAD_WIDTH,
        Kind::Boundary => head + COUNT_WIDTH,
    }
}

// Of a record of the model with that head: where it ends.
pub fn next_record(s: &[u8], kind: Kind, head: usize, at: usize) -> usize
    requires { RecordWithin kind s.now head at }
    ensures { result ≡ next_record kind s.now head at }
{
    let dim = axes(s);
    match kind {
        Kind::Fluid => {
            let counts = contact_counts(dim);
            let contacts = byte(s, at + counts) + byte(s, at + (counts + 1));
            at + (counts + 2) + contact_width(dim) * contacts
        }
        Kind::Boundary => {
            let count = boundary_count(dim, keeps(s, head));
            let contacts = byte(s, at + count);
            at + (count + 1) + BOUNDARY_CONTACT_WIDTH * contacts
        }
    }
}
