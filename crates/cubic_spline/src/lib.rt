// The cubic spline smoothing kernel (cubic_spline_kernel.rs), in two and three dimensions and doubles.
// Every operation rounds once, in the order written; nothing is reassociated.
#![tactic(auto)]

ghost use Rattle.std.specs.Prelude.{◌≡◌, ◌&&◌};
ghost use Rattle.std.specs.Float.Ieee.Scale.{finite};
ghost use Rattle.cubic_spline.specs.Normalizer as Normalizer;
ghost use Rattle.cubic_spline.specs.Shape as Shape;
ghost use Rattle.cubic_spline.specs.Bound.{WeightPromise, SlopePromise};
ghost use Rattle.cubic_spline.specs.Answer.{KernelPromise};
ghost use Rattle.cubic_spline.specs.Apply.{ApplyPromise};

const PI: f64 = 3.141592653589793;

// How many axes a particle moves along.
#[derive(Clone, Copy)]
pub enum Dimension {
    Two,
    Three,
}

// The argument that is turned down: refusal 11, the distance, and refusal 12, the radius.
#[derive(Clone, Copy)]
pub enum KernelRefusal {
    Distance,
    Radius,
}

// The weight's shape, by q = r / h. The Rust's powi(3) is (t * t) * t.
pub fn weight_shape(q: f64) -> f64
    ensures { WeightPromise q result }
{
    if q <= 0.5 {
        let q2 = q * q;
        1.0 + (q2 * q - q2) * 6.0
    } else if q <= 1.0 {
        let t = 1.0 - q;
        t * t * t * 2.0
    } else {
        0.0
    }
}

// The slope's shape, by q = r / h.
pub fn slope_shape(q: f64) -> f64
    ensures { SlopePromise q result }
{
    if q > 1.0 || q <= 1e-5 {
        0.0
    } else if q <= 0.5 {
        (q * 3.0 - 2.0) * q * 6.0
    } else {
        let t = 1.0 - q;
        -t * t * 6.0
    }
}

// What a shape is multiplied by.
fn normalizer(dimension: Dimension, h: f64) -> f64
    ensures { result ≡ Normalizer.normalizer dimension h }
{
    match dimension {
        Dimension::Two => 40.0 / 7.0 / (PI * h * h),
        Dimension::Three => 8.0 / (PI * h * h * h),
    }
}

// Whether the test holds and x is finite.
fn and_finite(test: bool, x: f64) -> bool
    ensures { result ≡ test && finite x }
{
    if test {
        math::magnitude(x) < f64::from_bits(0x7ff0_0000_0000_0000)
    } else {
        false
    }
}

// Not below 0, and finite: -0 is taken.
fn is_distance(r: f64) -> bool
    ensures { result ≡ Shape.is_distance r }
{
    and_finite(r >= 0.0, r)
}

// Above 0, and finite.
fn is_radius(h: f64) -> bool
    ensures { result ≡ Shape.is_radius h }
{
    and_finite(h > 0.0, h)
}

// The value, where both arguments are taken; the distance is turned down before the radius.
fn answer(r: f64, h: f64, value: f64) -> Result<f64, KernelRefusal>
    ensures { KernelPromise r h value result }
{
    if is_distance(r) {
        if is_radius(h) {
            Ok(value)
        } else {
            Err(KernelRefusal::Radius)
        }
    } else {
        Err(KernelRefusal::Distance)
    }
}

// The kernel at the distance r, with the radius h.
pub fn scalar_apply(dimension: Dimension, r: f64, h: f64) -> Result<f64, KernelRefusal>
    ensures { ApplyPromise dimension r h result }
{
    answer(r, h, normalizer(dimension, h) * weight_shape(r / h))
}

// The kernel's derivative there.
pub fn scalar_apply_diff(dimension: Dimension, r: f64, h: f64) -> Result<f64, KernelRefusal>
    ensures { KernelPromise r h (Shape.slope dimension r h) result }
{
    answer(r, h, normalizer(dimension, h) * slope_shape(r / h) / h)
}
