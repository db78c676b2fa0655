// Quotients of a fluid particle's pressure that no contact changes: each is computed once per particle and stored in
// a column, where the sums over contacts find it.
ghost use Rattle.std.specs.Prelude.{◌≡◌, ◌<◌, ◌≤◌, length};
ghost use Rattle.iisph_rows.specs.Rows.{volumes_at};
ghost use Rattle.iisph_pressures.specs.IterationRows.{row_quotient, row_share};

use iisph_rows::rows::{MASS, column_at, density_column, pressure_slot, row_at};

// ((-m) × p) / (rho × rho) of fluid particle i of n.
pub fn quotient_of(work: &[f64], dim: u8, n: usize, i: usize) -> f64
    requires { (i < n) × (volumes_at dim n ≤ length work.now) }
    ensures { result ≡ row_quotient dim work.now n i }
{
    let row = row_at(work, dim, i);
    let at = column_at(work, dim, n, density_column(dim), i);
    let pressure = row + pressure_slot(dim);
    let rho = work[at];
    -work[row + MASS] * work[pressure] / (rho * rho)
}

// p / (rho × rho) of fluid particle i of n. It stays beside `quotient_of`: there -m × p comes before the division, and
// each operation rounds, so neither gives the other.
pub fn share_of(work: &[f64], dim: u8, n: usize, i: usize) -> f64
    requires { (i < n) × (volumes_at dim n ≤ length work.now) }
    ensures { result ≡ row_share dim work.now n i }
{
    let row = row_at(work, dim, i);
    let at = column_at(work, dim, n, density_column(dim), i);
    let pressure = row + pressure_slot(dim);
    let rho = work[at];
    work[pressure] / (rho * rho)
}
