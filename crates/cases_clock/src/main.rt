// Keeps a clock over steps on the scenes in data/, some of which are refused, and writes it after each. The expected
// lines come from checks/cases_clock.py.
#![tactic(auto)]

ghost use Rattle.std.specs.Prelude.{◌≡◌, IfOk};
ghost use Rattle.math.specs.Real.{bits_of};
ghost use Rattle.cases_clock.specs.Kept.{Keeps, FromScene};

use full_reads::read_full;
use iisph_kept::step_keeping;
use std::fs::File;
use std::io;
use std::rt::Files;
use timestep_manager::Clock;

// Two fluid particles.
const ANSWERS: usize = 14;

const WORK: usize = 28;

// A step with a clock that is kept here and lent to it: the clock as the step leaves it, which tells a refusal too.
fn step_lending(scene: &[u8], clock: Clock, answers: &mut [f64], work: &mut [f64]) -> Clock
    ensures { Keeps scene.now clock answers.old work.old result answers.new
        work.new }
{
    let mut kept = clock;
    let _ = step_keeping(scene, &mut kept, answers, work);
    kept
}

// Writes a space and a double's bits, and hands them back. `cases_kernel` has the same: a crate for both would be
// longer.
fn print_bits(rt: &impl Print, x: f64) -> io::Result<u64>
    ensures { IfOk result (λ b. b ≡ bits_of x) }
{
    let b = math::to_bits(x);
    print!(rt; " {b:016x}")?;
    Ok(b)
}

// Writes a scene's name and a clock, which is handed back.
fn print_clock(rt: &impl Print, name: &str, clock: Clock) -> io::Result<Clock>
    ensures { IfOk result (λ written. written ≡ clock) }
{
    print!(rt; "{name}")?;
    print_bits(rt, clock.total_step_size)?;
    print_bits(rt, clock.dt)?;
    print_bits(rt, clock.inv_dt)?;
    print_bits(rt, clock.remaining_time)?;
    println!(rt)?;
    Ok(clock)
}

// A step on the scene in a file: the clock after it is written, and handed back.
fn step_on<R: Files + Print>(rt: &R, name: &str, clock: Clock) -> io::Result<Clock>
    ensures { IfOk result (FromScene clock) }
{
    let mut scene = [0u8; 512];
    let mut answers = [0.0; ANSWERS];
    let mut work = [0.0; WORK];
    let mut file = File::open(rt, name)?;
    let got = read_full(&mut file, &mut scene)?;
    let after = step_lending(&scene[..got], clock, &mut answers, &mut work);
    print_clock(rt, name, after)
}

// The same over all scenes, from a clock with marks for dt and inv_dt.
fn steps_from<R: Files + Print>(
    rt: &R,
    total_step_size: f64,
    remaining_time: f64,
) -> io::Result<Clock>
    ensures { IfOk result (λ clock. clock.total_step_size ≡ total_step_size) }
{
    let start = Clock {
        total_step_size,
        dt: 7.0,
        inv_dt: 7.0,
        remaining_time,
    };
    let cut = step_on(rt, "cut", start)?;
    let a = step_on(rt, "a", cut)?;
    let b = step_on(rt, "b", a)?;
    let idle = step_on(rt, "idle", b)?;
    let crowd = step_on(rt, "crowd", idle)?;
    let empty = step_on(rt, "empty", crowd)?;
    step_on(rt, "cut", empty)
}

fn main(rt: HostRuntime) -> io::Result<()> {
    steps_from(&rt, 0.1, 0.3)?;
    steps_from(&rt, -0.0, 1.0)?;
    steps_from(&rt, math::from_bits(1), -1.0)?;
    Ok(())
}
