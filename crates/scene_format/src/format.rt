// Where things stand in a packed scene, in bytes unless said otherwise, as specs/Format.antt says (FORMAT 1). What
// depends on the number of axes is a function of it.
ghost use Rattle.std.specs.Prelude.{◌≡◌, ◌<◌};
ghost use Rattle.scene_format.specs.Format.{vector_width, header_doubles, header_width, contact_doubles};
ghost use Rattle.scene_format.specs.Format.{contact_width, record_doubles, acceleration_offset, volume_offset};
ghost use Rattle.scene_format.specs.Format.{warm_pressure_offset, contact_count_offset, record_width};
ghost use Rattle.scene_format.specs.Format.{bit, boundary_record_doubles, boundary_count_offset};
ghost use Rattle.scene_format.specs.declared.Kind.TheVariants.{Fluid};

// At most so many models of a kind, and so many particles of a model.
pub const MAX_MODELS: usize = 8;

pub const MAX_PARTICLES: usize = 4096;

// A contact has names for so many models, and so many particles of each.
pub const NAMEABLE_MODELS: usize = 16;

pub const NAMEABLE_PARTICLES: usize = 4096;

pub const DOUBLE_WIDTH: usize = 8;

// Half a byte, four bits, has so many values.
pub const HALF_MODULUS: usize = 16;

// The header: the versions, then the numbers that stand by themselves, then gravity.
pub const FIRST_VERSION: usize = 1;

pub const RULED_VERSION: usize = 2;

pub const FLAT_VERSION: usize = 4;

// The greatest rule; a rule is a criterion and a summation, the criterion in its lowest bit.
pub const LAST_RULE: usize = 3;

pub const CRITERIA: usize = 2;

pub const MIN_PRESSURE_ITER: usize = 2;

pub const MAX_PRESSURE_ITER: usize = 3;

pub const TOTAL_STEP_SIZE: usize = 4;

const HEADER_NUMBERS: usize = 3;

pub const GRAVITY: usize = TOTAL_STEP_SIZE + HEADER_NUMBERS * DOUBLE_WIDTH;

// A model's head: the count, of which a boundary leaves the first bit to "keeps forces", and a fluid's rest density.
pub const COUNT_WIDTH: usize = 2;

pub const BOUNDARY_COUNT_MODULUS: usize = 32768;

pub const DENSITY0: usize = COUNT_WIDTH;

pub const FLUID_HEAD_WIDTH: usize = DENSITY0 + DOUBLE_WIDTH;

// A contact: its name, the weight and, in a fluid record, the gradient.
pub const NAME_WIDTH: usize = 2;

pub const CONTACT_WEIGHT: usize = NAME_WIDTH;

pub const CONTACT_GRADIENT: usize = CONTACT_WEIGHT + DOUBLE_WIDTH;

pub const BOUNDARY_CONTACT_DOUBLES: usize = 1;

pub const BOUNDARY_CONTACT_WIDTH: usize = CONTACT_GRADIENT;

// A vector has a double for each axis.
pub fn vector_width(dim: u8) -> usize
    ensures { (result ≡ vector_width dim) × (result < 2048) }
{
    DOUBLE_WIDTH * usize::from(dim)
}

// Of the header: its doubles, and its width.
pub fn header_doubles(dim: u8) -> usize
    ensures { result ≡ header_doubles dim }
{
    HEADER_NUMBERS + usize::from(dim)
}

pub fn header_width(dim: u8) -> usize
    ensures { result ≡ header_width dim }
{
    GRAVITY + vector_width(dim)
}

// Of a contact in a fluid record: its doubles, and its width.
pub fn contact_doubles(dim: u8) -> usize
    ensures { result ≡ contact_doubles dim }
{
    1 + usize::from(dim)
}

pub fn contact_width(dim: u8) -> usize
    ensures { (result ≡ contact_width dim) × (result < 4096) }
{
    CONTACT_GRADIENT + vector_width(dim)
}

// Of a fluid record: its doubles, and where they stand; position and velocity are in front.
pub fn record_doubles(dim: u8) -> usize
    ensures { result ≡ record_doubles dim }
{
    3 * usize::from(dim) + 2
}

pub fn acceleration(dim: u8) -> usize
    ensures { (result ≡ acceleration_offset dim) × (result < 8192) }
{
    2 * vector_width(dim)
}

pub fn volume(dim: u8) -> usize
    ensures { (result ≡ volume_offset dim) × (result < 8192) }
{
    3 * vector_width(dim)
}

pub fn warm_pressure(dim: u8) -> usize
    ensures { (result ≡ warm_pressure_offset dim) × (result < 8192) }
{
    volume(dim) + DOUBLE_WIDTH
}

// Of a fluid record: where its two counts of contacts stand, that of the fluid contacts first; and its width before the
// contacts.
pub fn contact_counts(dim: u8) -> usize
    ensures { (result ≡ contact_count_offset Fluid dim) × (result < 8192) }
{
    warm_pressure(dim) + DOUBLE_WIDTH
}

pub fn record_width(dim: u8) -> usize
    ensures { (result ≡ record_width dim) × (result < 8192) }
{
    contact_counts(dim) + 2
}

// Of a boundary record, by whether its boundary keeps forces: its doubles, velocity and force, and where its count of
// contacts stands behind them.
pub fn boundary_doubles(dim: u8, keeps: bool) -> usize
    ensures { result ≡ boundary_record_doubles dim (bit keeps) }
{
    let axes = usize::from(dim);
    if keeps { 2 * axes } else { axes }
}

pub fn boundary_count(dim: u8, keeps: bool) -> usize
    ensures { (result ≡ boundary_count_offset dim (bit keeps)) × (result < 4096) }
{
    let width = vector_width(dim);
    if keeps { 2 * width } else { width }
}
