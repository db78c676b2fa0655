// A packed scene (FORMAT 1): where each field stands, the reads of a solver, and the refusals of FORMAT 2.1.
#![tactic(auto)]

pub mod format;
pub mod read;

ghost use Rattle.std.specs.Prelude.{◌≡◌};
ghost use Rattle.scene_format.specs.Refusals.{number_of, place_of};

// Why a packed scene is refused, and at which offset (FORMAT 2.1).
#[derive(Clone, Copy)]
pub enum Refusal {
    // 1: a field is not wholly there.
    MissingField(usize),
    // 2: a version that is not known, or a rule that its version does not have.
    UnknownForm(usize),
    // 3: more than 8 fluids or boundaries.
    TooManyModels(usize),
    // 4: a model of more than 4,096 particles.
    TooManyParticles(usize),
    // 5: bytes follow the last record.
    TrailingBytes(usize),
    // 6: a double that is infinite or not a number.
    NotFinite(usize),
    // 7: a contact names a model or a particle that is not there.
    DanglingContact(usize),
    // 8: the answer or the work list is shorter than needed.
    ShortList,
    // 9: a density is zero, at the particle's record.
    ZeroDensity(usize),
    // 10: a predicted density is zero, at the particle's record.
    ZeroPredictedDensity(usize),
}

// A refusal's number.
pub fn number(refusal: Refusal) -> usize
    ensures { result ≡ number_of refusal }
{
    match refusal {
        Refusal::MissingField(_) => 1,
        Refusal::UnknownForm(_) => 2,
        Refusal::TooManyModels(_) => 3,
        Refusal::TooManyParticles(_) => 4,
        Refusal::TrailingBytes(_) => 5,
        Refusal::NotFinite(_) => 6,
        Refusal::DanglingContact(_) => 7,
        Refusal::ShortList => 8,
        Refusal::ZeroDensity(_) => 9,
        Refusal::ZeroPredictedDensity(_) => 10,
    }
}

// A refusal's place: the offset where it begins, or 0 where it has none.
pub fn place(refusal: Refusal) -> usize
    ensures { result ≡ place_of refusal }
{
    match refusal {
        Refusal::MissingField(at) => at,
        Refusal::UnknownForm(at) => at,
        Refusal::TooManyModels(at) => at,
        Refusal::TooManyParticles(at) => at,
        Refusal::TrailingBytes(at) => at,
        Refusal::NotFinite(at) => at,
        Refusal::DanglingContact(at) => at,
        Refusal::ShortList => 0,
        Refusal::ZeroDensity(at) => at,
        Refusal::ZeroPredictedDensity(at) => at,
    }
}

// The two kinds of models. A boundary is the customer's wall.
#[derive(Clone, Copy)]
pub enum Kind {
    Fluid,
    Boundary,
}

// By which error the iterations stop (METHOD 6.4): the Rust's, or that of Ihmsen et al. 2014.
#[derive(Clone, Copy)]
pub enum Criterion {
    Salva,
    Ihmsen,
}

// How the error terms of a fluid are summed (METHOD 6.4): one after the other, as the Rust does, or by halves.
#[derive(Clone, Copy)]
pub enum Summation {
    InOrder,
    ByHalves,
}

// The model that a contact names (the Rust's `j_model`).
#[derive(Clone, Copy)]
pub struct ModelNumber(pub usize);

// The particle that a contact names, counted within its model (the Rust's `j`).
#[derive(Clone, Copy)]
pub struct ParticleNumber(pub usize);

// A contact's name.
#[derive(Clone, Copy)]
pub struct ContactName {
    pub model: ModelNumber,
    pub particle: ParticleNumber,
}
