// The error of an iteration, from the column of error terms: the average of each fluid, by the summation; the greatest
// of them, by the criterion; and whether an average was not a number and was passed over (METHOD 6.4).
ghost use Rattle.std.specs.Prelude.{◌≡◌, ◌+◌, ◌*◌, ◌≤◌, length, if◌then◌else◌};
ghost use Rattle.iisph_rows.specs.Rows.{quotient_slot, volumes_at};
ghost use Rattle.iisph_rules.specs.Iteration.{term_sum, averages, error_of};
ghost use Rattle.math.specs.Real.{total, is_nan, larger, +0};
ghost use Rattle.math.specs.Vector.{Axes};
ghost use Rattle.scene_check.specs.Check.{Passed};
ghost use Rattle.scene_format.specs.Scene.{fluid_size};
ghost use Rattle.scene_format.specs.SceneOf.{scene_of};
ghost use Rattle.iisph_iterations.specs.Errors.{terms_from, terms_in, joined, with_fluid};

use iisph_rows::over::Over;
use iisph_rows::rows::quotient_column;
use iisph_rules::{IterationError, NO_ERROR};
use math::{is_nan, larger};
use scene_format::{Criterion, Kind, Summation, read};
use scene_layout::Layout;
use std::num::nearest_u64_to_f64;
use sums::sum_by_halves;

// Where the error terms of `count` of n particles stand, one behind the other, from that of particle `from` on.
fn terms_at(work: &[f64], dim: u8, n: usize, from: usize, count: usize) -> usize
    requires { Axes dim × (from + count ≤ n) × (volumes_at dim n ≤ length work.now) }
    ensures { (result ≡ quotient_slot dim * n + from) × (result + count ≤ length work.now) }
{
    quotient_column(dim) * n + from
}

// Those terms, added one after the other.
fn running_sum(work: &[f64], dim: u8, n: usize, from: usize, count: usize) -> f64
    requires { Axes dim × (from + count ≤ n) × (volumes_at dim n ≤ length work.now) }
    ensures { result ≡ total +0 (terms_from work.now dim n from count) }
{
    let start = terms_at(work, dim, n, from, count);
    let mut sum = 0.0;
    for x in &work[start..start + count] {
        sum += *x;
    }
    sum
}

// The sum of those terms, by the summation; by halves, a part of the list is handed on.
fn term_sum(summation: Summation, work: &[f64], dim: u8, n: usize, from: usize, count: usize) -> f64
    requires { Axes dim × (from + count ≤ n) × (volumes_at dim n ≤ length work.now) }
    ensures { result ≡ term_sum summation (terms_from work.now dim n from count) }
{
    match summation {
        Summation::InOrder => running_sum(work, dim, n, from, count),
        Summation::ByHalves => {
            let start = terms_at(work, dim, n, from, count);
            sum_by_halves(&work[start..start + count])
        }
    }
}

// y if it is greater or not a number, else x.
fn larger_or_nan(x: f64, y: f64) -> f64
    ensures { result ≡ (if is_nan y then y else larger x y) }
{
    if is_nan(y) {
        return y;
    }
    larger(x, y)
}

// The error with one average more; `before` is that of the averages before it, if there are any.
fn with_average(
    criterion: Criterion,
    before: Option<IterationError>,
    average: f64,
) -> IterationError
    ensures { result ≡ joined criterion before average }
{
    match criterion {
        Criterion::Salva => {
            let error = before.unwrap_or(NO_ERROR);
            IterationError {
                value: larger(error.value, average),
                passed_over: error.passed_over || is_nan(average),
            }
        }
        Criterion::Ihmsen => IterationError {
            value: match before {
                Some(error) => larger_or_nan(error.value, average),
                None => average,
            },
            passed_over: false,
        },
    }
}

// The error of the averages so far, with that of a fluid whose first particle is `from`. An empty fluid has none.
fn with_fluid(
    criterion: Criterion,
    summation: Summation,
    work: &[f64],
    dim: u8,
    n: usize,
    from: usize,
    count: usize,
    error: Option<IterationError>,
) -> Option<IterationError>
    requires { Axes dim × (from + count ≤ n) × (volumes_at dim n ≤ length work.now) }
    ensures { result ≡ with_fluid criterion summation error count (terms_from work.now dim n from count) }
{
    if count == 0 {
        return error;
    }
    let sum = term_sum(summation, work, dim, n, from, count);
    let average = sum / nearest_u64_to_f64(count as u64);
    Some(with_average(criterion, error, average))
}

// The error over the fluids of a scene, which have n particles in all.
pub fn max_error(over: Over, layout: Layout, work: &[f64]) -> IterationError
    requires passed { Passed over.scene.now layout }
    requires axes { Axes over.dim
        × (over.n ≡ fluid_size (scene_of over.scene.now))
        × (volumes_at over.dim over.n ≤ length work.now) }
    ensures { let s = scene_of over.entry.scene.now in
        let terms = terms_in over.entry.dim over.entry.n work.now in
        result ≡ error_of s.header.criterion (averages s.header.summation s.fluid_counts terms) }
{
    let criterion = read::criterion(over.scene);
    let summation = read::summation(over.scene);
    let fluids = layout.fluids;
    let mut error = None;
    let mut from = 0;
    for &head in &fluids.heads[..fluids.number] {
        let count = read::particles(over.scene, Kind::Fluid, head);
        error = with_fluid(
            criterion, summation, work, over.dim, over.n, from, count, error,
        );
        from += count;
    }
    error.unwrap_or(NO_ERROR)
}
