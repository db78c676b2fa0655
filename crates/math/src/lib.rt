// Vectors by value and small functions on doubles: what the solver uses of nalgebra and of `f64`.
// Every operation rounds once, in the order written; nothing is reassociated.
#![tactic(auto)]

ghost use Rattle.std.specs.Prelude.{◌≡◌, ℕ, ◌≤◌};
ghost use Rattle.math.specs.Real as Real;
ghost use Rattle.math.specs.Vector.{Axes, space, coordinates, origin, ◌⊞◌, ◌⊟◌, ◌⊡◌, ◌·◌};

// The number of axes of the plane, and of space.
pub const PLANE: u8 = 2;

pub const SPACE: u8 = 3;

// A vector of the plane or of space. In the plane its z is anything, and what comes of it is looked at nowhere: with a
// z of 0 and sums over all three, 0 × infinity and -0 + 0 would show.
#[derive(Clone, Copy)]
pub struct Vec3 {
    pub x: f64,
    pub y: f64,
    pub z: f64,
}

impl Vec3 {
    pub fn zero() -> Vec3
        ensures { (d : ℕ) → d ≤ space → coordinates d result ≡ origin d }
    {
        Vec3 {
            x: 0.0,
            y: 0.0,
            z: 0.0,
        }
    }

    pub fn add(self, b: Vec3) -> Vec3
        ensures { (d : ℕ) → coordinates d result ≡ coordinates d self ⊞ coordinates d b }
    {
        Vec3 {
            x: self.x + b.x,
            y: self.y + b.y,
            z: self.z + b.z,
        }
    }

    pub fn sub(self, b: Vec3) -> Vec3
        ensures { (d : ℕ) → coordinates d result ≡ coordinates d self ⊟ coordinates d b }
    {
        Vec3 {
            x: self.x - b.x,
            y: self.y - b.y,
            z: self.z - b.z,
        }
    }

    pub fn scale(self, k: f64) -> Vec3
        ensures { (d : ℕ) → coordinates d result ≡ coordinates d self ⊡ k }
    {
        Vec3 {
            x: self.x * k,
            y: self.y * k,
            z: self.z * k,
        }
    }

    pub fn dot(self, b: Vec3, dim: u8) -> f64
        requires { Axes dim }
        ensures { result ≡ coordinates dim self · coordinates dim b }
    {
        let plane = self.x * b.x + self.y * b.y;
        if dim == SPACE {
            return plane + self.z * b.z;
        }
        plane
    }
}

// Whether x is a zero of either sign.
pub fn is_zero(x: f64) -> bool
    ensures { result ≡ Real.is_zero x }
{
    x == 0.0
}

// Whether x is not a number.
pub fn is_nan(x: f64) -> bool
    ensures { result ≡ Real.is_nan x }
{
    x != x
}

// |x|, +0 for -0.
pub fn magnitude(x: f64) -> f64
    ensures { result ≡ Real.magnitude x }
{
    if x == 0.0 {
        0.0
    } else if x < 0.0 {
        -x
    } else {
        x
    }
}

// y if it is greater, else x.
pub fn larger(x: f64, y: f64) -> f64
    ensures { result ≡ Real.larger x y }
{
    if x < y { y } else { x }
}

// The double with these bits.
pub fn from_bits(b: u64) -> f64
    ensures { result ≡ Real.bits b }
{
    if b % 0x8000_0000_0000_0000 > 0x7ff0_0000_0000_0000 {
        0.0 / 0.0
    } else {
        f64::from_bits(b)
    }
}

// A double's bits, the same for every not-a-number.
pub fn to_bits(x: f64) -> u64
    ensures { result ≡ Real.bits_of x }
{
    if x == x {
        f64::to_bits(x)
    } else {
        0x7ff8_0000_0000_0000
    }
}
