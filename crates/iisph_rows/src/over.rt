// What the passes of a step are handed.
use math::Vec3;

// What a pass goes over: an accepted scene with its index, its number of axes, and how many fluid particles it has.
#[derive(Clone, Copy)]
pub struct Over<'a> {
    pub scene: &'a [u8],
    pub index: &'a [usize],
    pub dim: u8,
    pub n: usize,
}

// What drives the particles besides their pressures: the length of the step, and gravity.
#[derive(Clone, Copy)]
pub struct Drive {
    pub dt: f64,
    pub gravity: Vec3,
}
