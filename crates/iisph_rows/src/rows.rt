// The work list: n rows, one for each fluid particle, then columns with an element for each, then the volume of each
// boundary particle. A row holds what one contact reads together of the particle that it names; a column what is read
// alone, of the particle itself or of one that a contact names. Vectors have an element for each axis.
ghost use Rattle.std.specs.Prelude.{◌≡◌, ◌+◌, ◌*◌, ◌<◌, ◌≤◌, length};
ghost use Rattle.std.proofs.lemmas.List.Edits.{sets};
ghost use Rattle.math.specs.Vector.{Axes, coordinates};
ghost use Rattle.scene_lengths.specs.Lengths.{work_width};
ghost use Rattle.iisph_rows.specs.Rows.{pressure_slot, dii_slot, row_width, density_slot, predicted_slot, aii_slot};
ghost use Rattle.iisph_rows.specs.Rows.{quotient_slot, next_pressure_slot, row_at, volumes_at, vector_from};

use math::Vec3;
use scene_lengths::work_width;

// ---- where a number stands in a row, or in which column

pub const MASS: usize = 0;

// The advected velocity, until the iterations use the place for dij_pjl.
pub const ADVECTED: usize = MASS + 1;

pub const DIJ_PJL: usize = MASS + 1;

pub fn pressure_slot(dim: u8) -> usize
    ensures { result ≡ pressure_slot dim }
{
    DIJ_PJL + usize::from(dim)
}

pub fn dii_slot(dim: u8) -> usize
    ensures { result ≡ dii_slot dim }
{
    DIJ_PJL + usize::from(dim) + 1
}

// The width of a row.
fn row_width(dim: u8) -> usize
    ensures { (result ≡ row_width dim) × (result < 1024) }
{
    2 + 2 * usize::from(dim)
}

pub fn density_column(dim: u8) -> usize
    ensures { result ≡ density_slot dim }
{
    row_width(dim)
}

pub fn predicted_column(dim: u8) -> usize
    ensures { result ≡ predicted_slot dim }
{
    row_width(dim) + 1
}

pub fn aii_column(dim: u8) -> usize
    ensures { result ≡ aii_slot dim }
{
    row_width(dim) + 2
}

// In an iteration first the quotient, then the error term; behind the last iteration the share.
pub fn quotient_column(dim: u8) -> usize
    ensures { result ≡ quotient_slot dim }
{
    row_width(dim) + 3
}

pub fn next_pressure_column(dim: u8) -> usize
    ensures { result ≡ next_pressure_slot dim }
{
    row_width(dim) + 4
}

// ---- places in the list

// Where the row of particle j begins, in a list that has it.
pub fn row_at(work: &[f64], dim: u8, j: usize) -> usize
    requires { row_at dim j + row_width dim ≤ length work.now }
    ensures { (result ≡ row_at dim j) × (result + row_width dim ≤ length work.now) }
{
    row_width(dim) * j
}

// Where element i of a column stands, of n particles, in a list that has all columns.
pub fn column_at(work: &[f64], dim: u8, n: usize, column: usize, i: usize) -> usize
    requires { (column < work_width dim) × (i < n) × (volumes_at dim n ≤ length work.now) }
    ensures { (result ≡ column * n + i) × (result < length work.now) }
{
    column * n + i
}

// Where the volume of boundary particle j stands, behind rows and columns of n particles.
pub fn volume_at(work: &[f64], dim: u8, n: usize, j: usize) -> usize
    requires { volumes_at dim n + j < length work.now }
    ensures { (result ≡ volumes_at dim n + j) × (result < length work.now) }
{
    work_width(dim) * n + j
}

// ---- vectors

// The vector from element k on. In the plane y is read twice, since a branch would cost more.
pub fn vector_at(work: &[f64], k: usize, dim: u8) -> Vec3
    requires { Axes dim × (k + dim ≤ length work.now) }
    ensures { coordinates dim result ≡ vector_from dim work.now k }
{
    Vec3 {
        x: work[k],
        y: work[k + 1],
        z: work[k + (usize::from(dim) - 1)],
    }
}

// A vector, stored from element k on. In the plane z goes where y is stored right behind it: a branch would cost more.
pub fn put_vector(work: &mut [f64], k: usize, v: Vec3, dim: u8)
    requires { Axes dim × (k + dim ≤ length work.old) }
    ensures { work.new ≡ sets work.old k (coordinates dim v) }
{
    let last = k + (usize::from(dim) - 1);
    work[k] = v.x;
    work[last] = v.z;
    work[k + 1] = v.y;
}
