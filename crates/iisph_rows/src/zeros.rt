// What refusals 9 and 10 need: the first zero in a column, and clearing.
ghost use Rattle.std.specs.Prelude.{◌≡◌, ◌++◌, ◌≤◌, ◌<◌, length, drop, replicate};
ghost use Rattle.iisph_rules.specs.Step.{first_zero};
ghost use Rattle.math.specs.Real.{+0};
ghost use Rattle.scene_lengths.specs.Lengths.{work_width};
ghost use Rattle.iisph_rows.specs.Passes.{found_below};
ghost use Rattle.iisph_rows.specs.Rows.{volumes_at, column};

use math::is_zero;

// The number of the first of n fluid particles that has a zero of either sign in a column.
pub fn first_zero(work: &[f64], dim: u8, n: usize, number: usize) -> Option<usize>
    requires { (number < work_width dim) × (volumes_at dim n ≤ length work.now) }
    ensures { result ≡ found_below n (first_zero (column n number work.now)) }
{
    let column = &work[number * n..number * n + n];
    column.iter().position(|x| is_zero(*x))
}

// The first `len` elements become +0.
pub fn clear(work: &mut [f64], len: usize)
    requires { len ≤ length work.old }
    ensures { work.new ≡ replicate len +0 ++ drop len work.old }
{
    work[..len].fill(0.0);
}
