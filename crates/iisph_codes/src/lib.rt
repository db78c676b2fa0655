// What the C interface writes of an answer, and the number that it returns with it. What is public here is for the
// crate of that interface, which shows what each function asks: the lent lists have room.
#![tactic(auto)]

ghost use Rattle.std.specs.Prelude.{◌≡◌, [], ◌∷◌, ◌≤◌, length, set};
ghost use Rattle.std.proofs.lemmas.List.Edits.{sets};
ghost use Rattle.cubic_spline.specs.Shape.{weight, slope};
ghost use Rattle.iisph_rules.specs.Endings.{ending_number};
ghost use Rattle.timestep_manager.specs.Clock.{advanced};
ghost use Rattle.iisph_codes.specs.ClockList.{clock_needed, clock_numbers, clock_of};
ghost use Rattle.iisph_codes.specs.Numbers.{short_index, counts_needed, refused_code, refused_counts};
ghost use Rattle.iisph_codes.specs.Report.{numbers_needed, report_numbers, report_counts};
ghost use Rattle.iisph_codes.specs.Kernel.{refusal_code, Gives, KernelTo};

use cubic_spline::{Dimension, KernelRefusal};
use iisph_rules::Report;
use iisph_rules::endings::tell;
use scene_format::Refusal;
use scene_lengths::Lengths;
use timestep_manager::{Clock, advance};

// What a call returns that a list is too short for.
pub const TOO_SHORT: u64 = 99;

// What a call returns whose index is too short.
const SHORT_INDEX: u64 = 98;

// How many elements `counts` and `numbers` must have.
pub const COUNTS: usize = 2;

pub const NUMBERS: usize = 4;

// How many elements a clock has.
pub const CLOCK: usize = 4;

// What is added to the number of a refusal.
const REFUSED: u64 = 100;

// A refusal's offset.
pub fn write_refusal(refusal: Refusal, counts: &mut [u64]) -> u64
    requires { counts_needed ≤ length counts.old }
    ensures { (result ≡ refused_code refusal) × (counts.new ≡ refused_counts refusal counts.old) }
{
    counts[1] = scene_format::place(refusal) as u64;
    REFUSED + scene_format::number(refusal) as u64
}

// How long the index must be.
pub fn write_index(needed: usize, counts: &mut [u64]) -> u64
    requires { counts_needed ≤ length counts.old }
    ensures { (result ≡ short_index) × (counts.new ≡ set counts.old 0 needed) }
{
    counts[0] = needed as u64;
    SHORT_INDEX
}

// How long the lists must be.
pub fn write_lengths(lengths: Lengths, counts: &mut [u64]) -> u64
    requires { counts_needed ≤ length counts.old }
    ensures { (result ≡ 0) × (counts.new ≡ sets counts.old 0 (lengths.answers ∷ lengths.work ∷ [])) }
{
    counts[0] = lengths.answers as u64;
    counts[1] = lengths.work as u64;
    0
}

// A report: its error and clock, its iterations, and whether an average was passed over in the last.
pub fn write_report(report: Report, numbers: &mut [f64], counts: &mut [u64]) -> u64
    requires { (numbers_needed ≤ length numbers.old) × (counts_needed ≤ length counts.old) }
    ensures { (result ≡ ending_number report.ending)
        × (numbers.new ≡ sets numbers.old 0 (report_numbers report))
        × (counts.new ≡ sets counts.old 0 (report_counts report)) }
{
    let ending = report.ending;
    let clock = report.clock;
    let told = tell(ending);
    numbers[0] = told.error;
    numbers[1] = clock.dt;
    numbers[2] = clock.inv_dt;
    numbers[3] = clock.remaining_time;
    counts[0] = report.iterations as u64;
    counts[1] = told.passed_over;
    told.number
}

// A clock's doubles, moved on where they stand; the clock is handed back.
pub fn advance_listed(clock: &mut [f64]) -> Clock
    requires { clock_needed ≤ length clock.old }
    ensures { (result ≡ advanced (clock_of clock.old))
        × (clock.new ≡ sets clock.old 0 (clock_numbers result)) }
{
    let moved = advance(Clock {
        total_step_size: clock[0],
        dt: clock[1],
        inv_dt: clock[2],
        remaining_time: clock[3],
    });
    clock[0] = moved.total_step_size;
    clock[1] = moved.dt;
    clock[2] = moved.inv_dt;
    clock[3] = moved.remaining_time;
    moved
}

fn refusal_code(refusal: KernelRefusal) -> u64
    ensures { result ≡ refusal_code refusal }
{
    match refusal {
        KernelRefusal::Distance => 111,
        KernelRefusal::Radius => 112,
    }
}

// The kernel's value, where the list has a place for it.
fn write_kernel(answer: Result<f64, KernelRefusal>, out: &mut [f64]) -> u64
    ensures { Gives answer out.old result out.new }
{
    if out.len() < 1 {
        return TOO_SHORT;
    }
    match answer {
        Ok(x) => {
            out[0] = x;
            0
        }
        Err(refusal) => refusal_code(refusal),
    }
}

// The kernel at the distance r, with the radius h.
pub fn write_weight(dimension: Dimension, r: f64, h: f64, out: &mut [f64]) -> u64
    ensures { KernelTo r h (weight dimension r h) out.old result out.new }
{
    write_kernel(cubic_spline::scalar_apply(dimension, r, h), out)
}

// The kernel's derivative there. It stays beside `write_weight`: one function of both would take the kernel's as a
// parameter, and ask of it what each promises here.
pub fn write_slope(dimension: Dimension, r: f64, h: f64, out: &mut [f64]) -> u64
    ensures { KernelTo r h (slope dimension r h) out.old result out.new }
{
    write_kernel(cubic_spline::scalar_apply_diff(dimension, r, h), out)
}
