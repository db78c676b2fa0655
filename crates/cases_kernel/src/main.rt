// Runs the kernel and the clock on cases with known bits and prints what they answer, a line for each call. The
// expected lines were worked out with exact fractions (checks/cases_kernel.py).
#![tactic(auto)]

mod cases;

ghost use Rattle.std.specs.Prelude.{◌≡◌, ltb, IfOk};
ghost use Rattle.math.specs.Real.{bits, bits_of};
ghost use Rattle.cubic_spline.specs.Answer.{number};
ghost use Rattle.timestep_manager.specs.Clock.{advanced};
ghost use Rattle.cases_kernel.specs.Printed.{printed, shown};

use cubic_spline::{Dimension, KernelRefusal};
use std::io;
use timestep_manager::Clock;

// Prints a space and a double's bits, and hands them back.
fn print_bits(rt: &impl Print, x: f64) -> io::Result<u64>
    ensures { IfOk result (λ b. b ≡ bits_of x) }
{
    let b = math::to_bits(x);
    print!(rt; " {b:016x}")?;
    Ok(b)
}

fn number_of(f: KernelRefusal) -> u64
    ensures { result ≡ number f }
{
    match f {
        KernelRefusal::Distance => 11,
        KernelRefusal::Radius => 12,
    }
}

// Prints what a line shows of a kernel's answer, a value's bits or a refusal's number, and hands it back.
fn print_answer(rt: &impl Print, a: Result<f64, KernelRefusal>) -> io::Result<u64>
    ensures { IfOk result (λ n. n ≡ printed a) }
{
    match a {
        Ok(x) => print_bits(rt, x),
        Err(f) => {
            let n = number_of(f);
            print!(rt; " refused {n}")?;
            Ok(n)
        }
    }
}

// Prints a line for a call of the kernel, and hands back what it shows of the answer.
fn print_kernel(
    rt: &impl Print,
    name: &[u8],
    r: f64,
    h: f64,
    a: Result<f64, KernelRefusal>,
) -> io::Result<u64>
    ensures { IfOk result (λ n. n ≡ printed a) }
{
    rt.write_all(name)?;
    print_bits(rt, r)?;
    print_bits(rt, h)?;
    let n = print_answer(rt, a)?;
    rt.write_all(b"\n")?;
    Ok(n)
}

// What the lines of weight and slope show.
#[derive(Clone, Copy)]
struct Shown {
    weight: u64,
    slope: u64,
}

// Prints the lines of weight and slope, and hands back what they show.
fn print_both(
    rt: &impl Print,
    dimension: Dimension,
    weight: &[u8],
    slope: &[u8],
    r: f64,
    h: f64,
) -> io::Result<Shown>
    ensures { IfOk result (λ s. s ≡ shown dimension r h) }
{
    let w = print_kernel(
        rt,
        weight,
        r,
        h,
        cubic_spline::scalar_apply(dimension, r, h),
    )?;
    let s = print_kernel(
        rt,
        slope,
        r,
        h,
        cubic_spline::scalar_apply_diff(dimension, r, h),
    )?;
    Ok(Shown {
        weight: w,
        slope: s,
    })
}

// Prints a line for an advance of the clock, and hands back the clock after it.
fn print_clock(rt: &impl Print, step: f64, remaining: f64) -> io::Result<Clock>
    ensures { IfOk result (λ after. after ≡ advanced (record {
      total_step_size = step;
      dt = bits 0;
      inv_dt = bits 0;
      remaining_time = remaining;
    })) }
{
    let after = timestep_manager::advance(Clock {
        total_step_size: step,
        dt: 0.0,
        inv_dt: 0.0,
        remaining_time: remaining,
    });
    rt.write_all(b"clock")?;
    print_bits(rt, step)?;
    print_bits(rt, remaining)?;
    print_bits(rt, after.dt)?;
    print_bits(rt, after.inv_dt)?;
    print_bits(rt, after.remaining_time)?;
    rt.write_all(b"\n")?;
    Ok(after)
}

// Prints the lines of case number i: four of the kernel, in three dimensions and in two, or one of the clock. Answers
// whether it is the kernel's.
fn print_case(rt: &impl Print, i: usize, first: f64, second: f64) -> io::Result<bool>
    ensures { IfOk result (λ is_kernel. is_kernel ≡ ltb i 81) }
{
    if i < cases::OF_THE_KERNEL {
        print_both(rt, Dimension::Three, b"weight", b"slope", first, second)?;
        print_both(rt, Dimension::Two, b"weight_2d", b"slope_2d", first, second)?;
        Ok(true)
    } else {
        print_clock(rt, first, second)?;
        Ok(false)
    }
}

// Runs all cases, and answers how many: they are counted as they run, so that a turn too few does not prove.
fn all_cases(rt: &impl Print) -> io::Result<usize>
    ensures { IfOk result (λ n. n ≡ 94) }
{
    let mut run = 0;
    for i in 0..cases::IN_ALL {
        print_case(
            rt,
            i,
            math::from_bits(cases::FIRST[i]),
            math::from_bits(cases::SECOND[i]),
        )?;
        run += 1;
    }
    Ok(run)
}

fn main(rt: HostRuntime) -> io::Result<()> {
    all_cases(&rt)?;
    Ok(())
}
