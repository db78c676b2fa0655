// The C interface (include/iisph.h). A slice is a pointer and a length.
#![tactic(auto)]

ghost use Rattle.std.specs.Prelude.{◌≡◌, ◌≤◌, length};
ghost use Rattle.cubic_spline.specs.Shape.{weight, slope};
ghost use Rattle.cubic_spline.specs.declared.Dimension.TheVariants.{Two, Three};
ghost use Rattle.iisph_codes.specs.Kernel.{KernelTo};
ghost use Rattle.iisph_codes.specs.Numbers.{counts_needed};
ghost use Rattle.iisph_codes.specs.Report.{numbers_needed};
ghost use Rattle.iisph_c.specs.Step.{step_code, numbers_after, counts_after, has_room, StepsTo, LentTo};
ghost use Rattle.iisph_c.specs.Step.{LentIndex};
ghost use Rattle.iisph_c.specs.Keep.{KeepsTo};
ghost use Rattle.iisph_c.specs.Needs.{NeedsTo};
ghost use Rattle.iisph_c.specs.Validate.{ValidatesTo};

use cubic_spline::Dimension;
use iisph_codes::{
    CLOCK, COUNTS, NUMBERS, TOO_SHORT, advance_listed, write_index, write_lengths, write_refusal,
    write_report, write_slope, write_weight,
};
use iisph_lent::LentRefusal;
use iisph_rules::Report;
use scene_format::Refusal;
use scene_lengths::lengths_needed;

// A step's answer: 0 unswept, 1 settled, 2 ran out, 100 + n for refusal n.
fn write_answer(answer: Result<Report, Refusal>, numbers: &mut [f64], counts: &mut [u64]) -> u64
    requires { (numbers_needed ≤ length numbers.old) × (counts_needed ≤ length counts.old) }
    ensures { (result ≡ step_code answer)
        × (numbers.new ≡ numbers_after answer numbers.old)
        × (counts.new ≡ counts_after answer counts.old) }
{
    match answer {
        Ok(report) => write_report(report, numbers, counts),
        Err(refusal) => write_refusal(refusal, counts),
    }
}

// One step: what `write_answer` says, 99 where `numbers` or `counts` is too short. Takes up to 1 MiB of stack, by the
// size of the scene.
#[unsafe(no_mangle)]
pub extern "C" fn iisph_step(
    scene: &[u8],
    answers: &mut [f64],
    work: &mut [f64],
    numbers: &mut [f64],
    counts: &mut [u64],
) -> u64
    ensures { StepsTo (has_room numbers.old counts.old) scene.now answers.old
        work.old numbers.old counts.old result answers.new work.new
        numbers.new counts.new }
{
    if numbers.len() < NUMBERS {
        return TOO_SHORT;
    }
    if counts.len() < COUNTS {
        return TOO_SHORT;
    }
    let answer = iisph_solver::step::step(scene, answers, work);
    write_answer(answer, numbers, counts)
}

// The same with an index that is lent: 98 where that is too short. Takes less than 16 KiB of stack.
#[unsafe(no_mangle)]
pub extern "C" fn iisph_step_lent(
    scene: &[u8],
    answers: &mut [f64],
    work: &mut [f64],
    index: &mut [usize],
    numbers: &mut [f64],
    counts: &mut [u64],
) -> u64
    ensures lent_to { LentTo (has_room numbers.old counts.old) scene.now answers.old
        work.old (length index.old) numbers.old counts.old result
        answers.new work.new numbers.new counts.new }
    ensures lent_index { LentIndex (has_room numbers.old counts.old) scene.now answers.old
        work.old index.old index.new }
{
    if numbers.len() < NUMBERS {
        return TOO_SHORT;
    }
    if counts.len() < COUNTS {
        return TOO_SHORT;
    }
    match iisph_lent::step_lent(scene, answers, work, index) {
        Ok(report) => write_report(report, numbers, counts),
        Err(LentRefusal::Refused(refusal)) => write_refusal(refusal, counts),
        Err(LentRefusal::ShortIndex(needed)) => write_index(needed, counts),
    }
}

// The same for a caller that keeps a clock: where the step is done it is moved on in its place. 99 also where `clock`
// is too short.
#[unsafe(no_mangle)]
pub extern "C" fn iisph_step_keeping(
    scene: &[u8],
    clock: &mut [f64],
    answers: &mut [f64],
    work: &mut [f64],
    numbers: &mut [f64],
    counts: &mut [u64],
) -> u64
    ensures { KeepsTo scene.now clock.old answers.old work.old
        numbers.old counts.old result clock.new answers.new work.new
        numbers.new counts.new }
{
    if clock.len() < CLOCK {
        return TOO_SHORT;
    }
    let told = iisph_step(scene, answers, work, numbers, counts);
    if told < TOO_SHORT {
        advance_listed(clock);
    }
    told
}

// The lengths that the answer and the work list of a step must have, or refusals 1 to 7.
#[unsafe(no_mangle)]
pub extern "C" fn iisph_needed(scene: &[u8], counts: &mut [u64]) -> u64
    ensures { NeedsTo scene.now counts.old result counts.new }
{
    if counts.len() < COUNTS {
        return TOO_SHORT;
    }
    match lengths_needed(scene) {
        Ok(lengths) => write_lengths(lengths, counts),
        Err(refusal) => write_refusal(refusal, counts),
    }
}

// Whether a step with a long enough answer list would be refused: 0 if not, 100 + n or 99 as there. Takes as much stack
// as `iisph_step`.
#[unsafe(no_mangle)]
pub extern "C" fn iisph_validate(scene: &[u8], work: &mut [f64], counts: &mut [u64]) -> u64
    ensures { ValidatesTo scene.now work.old counts.old result work.new
        counts.new }
{
    if counts.len() < COUNTS {
        return TOO_SHORT;
    }
    match iisph_validation::validate(scene, work) {
        Ok(()) => 0,
        Err(refusal) => write_refusal(refusal, counts),
    }
}

// The kernel in three dimensions, at the distance r, with the radius h.
#[unsafe(no_mangle)]
pub extern "C" fn iisph_weight(r: f64, h: f64, out: &mut [f64]) -> u64
    ensures { KernelTo r h (weight Three r h) out.old result out.new }
{
    write_weight(Dimension::Three, r, h, out)
}

// The kernel's derivative there.
#[unsafe(no_mangle)]
pub extern "C" fn iisph_slope(r: f64, h: f64, out: &mut [f64]) -> u64
    ensures { KernelTo r h (slope Three r h) out.old result out.new }
{
    write_slope(Dimension::Three, r, h, out)
}

// The kernel in two dimensions.
#[unsafe(no_mangle)]
pub extern "C" fn iisph_weight_2d(r: f64, h: f64, out: &mut [f64]) -> u64
    ensures { KernelTo r h (weight Two r h) out.old result out.new }
{
    write_weight(Dimension::Two, r, h, out)
}

// Its derivative.
#[unsafe(no_mangle)]
pub extern "C" fn iisph_slope_2d(r: f64, h: f64, out: &mut [f64]) -> u64
    ensures { KernelTo r h (slope Two r h) out.old result out.new }
{
    write_slope(Dimension::Two, r, h, out)
}
