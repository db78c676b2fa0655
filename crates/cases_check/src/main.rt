// Checks each packed scene of the list data/scenes and prints a line for it: the verdict and, one after the other, the
// looks at each contact list that is checked, up to and with the one that is refused. Both the list and the expected
// lines come from checks/cases_check.py.
#![tactic(auto)]

ghost use Rattle.std.specs.Prelude.{ℕ, ◌+◌, ◌*◌, ◌≤◌, ◌≡◌, IfOk, None};
ghost use Rattle.full_reads.specs.Given.{GivesAtMost};
ghost use Rattle.cases_list.specs.Next.{FromNext};
ghost use Rattle.scene_check.specs.Check.{verdict_of};
ghost use Rattle.scene_check.specs.Walk.{checked};
ghost use Rattle.cases_check.specs.Printed.{printed, room, line_of};
ghost use Rattle.cases_check.specs.Turns.{list_turn, particle_turn, model_turn, kind_turn, scene_turn, in_turn, EndAs};
ghost use Rattle.cases_check.specs.declared.Turn.{Turn};

use cases_list::read_next;
use scene_format::format::{MAX_MODELS, MAX_PARTICLES};
use scene_format::{Kind, Refusal};
use scene_layout::Layout;
use scene_lists::{Contacts, check_list};
use std::fs::File;
use std::io;
use std::io::Read;

// Prints "accepted", or a refusal's number and place, and hands back the number, 0 for "accepted".
fn print_verdict(rt: &impl Print, verdict: Result<Layout, Refusal>) -> io::Result<usize>
    ensures { IfOk result (λ n. n ≡ printed verdict) }
{
    match verdict {
        Ok(_) => {
            print!(rt; "accepted")?;
            Ok(0)
        }
        Err(refusal) => {
            let n = scene_format::number(refusal);
            let place = scene_format::place(refusal);
            print!(rt; "{n} {place}")?;
            Ok(n)
        }
    }
}

// How a turn through contact lists ends: they are passed, there are none there, or one is refused.
#[derive(Clone, Copy)]
enum Turn {
    Passed,
    Absent,
    Refused,
}

// Prints the looks at a list that is there.
fn print_list(
    rt: &impl Print,
    scene: &[u8],
    contacts: Contacts,
    model: usize,
    particle: usize,
) -> io::Result<Turn>
    ensures { IfOk result (λ turn. turn ≡ list_turn scene.now contacts model particle) }
{
    match check_list(scene, contacts, model, particle) {
        Ok(Some(looked)) => {
            let looks = looked.looks;
            print!(rt; " {looks}")?;
            match looked.walk {
                Ok(_) => Ok(Turn::Passed),
                Err(_) => Ok(Turn::Refused),
            }
        }
        Ok(None) => Ok(Turn::Absent),
        Err(_) => Ok(Turn::Refused),
    }
}

// Those at the lists of one particle.
fn print_particle(
    rt: &impl Print,
    scene: &[u8],
    kind: Kind,
    model: usize,
    particle: usize,
) -> io::Result<Turn>
    ensures { IfOk result (λ turn. turn ≡ particle_turn kind scene.now model particle) }
{
    match kind {
        Kind::Fluid => {
            match print_list(rt, scene, Contacts::FluidFluid, model, particle)? {
                Turn::Passed => print_list(rt, scene, Contacts::FluidBoundary, model, particle),
                Turn::Absent => Ok(Turn::Absent),
                Turn::Refused => Ok(Turn::Refused),
            }
        }
        Kind::Boundary => print_list(rt, scene, Contacts::BoundaryBoundary, model, particle),
    }
}

// Those of n things one after the other, up to the first that is refused or not there.
fn print_in_turn<F: Fn(usize) -> io::Result<Turn>>(n: usize, print: F) -> io::Result<Turn>
    requires { F.IsAlwaysCallable print }
    ensures { (f : ℕ → Turn) → EndAs n (F.post print) f → IfOk result (λ turn. turn ≡ in_turn n f 0) }
{
    for k in 0..n {
        match print(k)? {
            Turn::Passed => {}
            Turn::Absent => return Ok(Turn::Passed),
            Turn::Refused => return Ok(Turn::Refused),
        }
    }
    Ok(Turn::Passed)
}

// Those of a model's particles, up to the first number that none has.
fn print_model(rt: &impl Print, scene: &[u8], kind: Kind, model: usize) -> io::Result<Turn>
    ensures { IfOk result (λ turn. turn ≡ model_turn kind scene.now model) }
{
    print_in_turn(MAX_PARTICLES, |j| print_particle(rt, scene, kind, model, j))
}

// Those of all models of a kind. One that is not there has no particles.
fn print_kind(rt: &impl Print, scene: &[u8], kind: Kind) -> io::Result<Turn>
    ensures { IfOk result (λ turn. turn ≡ kind_turn kind scene.now) }
{
    print_in_turn(MAX_MODELS, |m| print_model(rt, scene, kind, m))
}

// Those of a scene.
fn print_looks(rt: &impl Print, scene: &[u8]) -> io::Result<Turn>
    ensures { IfOk result (λ turn. turn ≡ scene_turn scene.now) }
{
    match print_kind(rt, scene, Kind::Fluid)? {
        Turn::Passed => print_kind(rt, scene, Kind::Boundary),
        Turn::Absent => Ok(Turn::Absent),
        Turn::Refused => Ok(Turn::Refused),
    }
}

// Checks a packed scene, prints its line, and hands back the verdict's number.
fn print_check(rt: &impl Print, s: &[u8]) -> io::Result<usize>
    ensures { IfOk result (λ n. n ≡ printed (verdict_of s.now (checked s.now))) }
{
    let n = print_verdict(rt, scene_check::check(s))?;
    print_looks(rt, s)?;
    println!(rt)?;
    Ok(n)
}

// The longest scene that is kept.
const ROOM: usize = 32768;

// Checks the next scene of a list.
fn check_next<R: Read>(rt: &impl Print, reader: &mut R) -> io::Result<Option<usize>>
    ensures next { IfOk result (FromNext room line_of None) }
    ensures left { GivesAtMost (4 + room) (R.remaining reader.old) (R.remaining reader.new) }
{
    let mut scene = [0u8; ROOM];
    match read_next(reader, &mut scene)? {
        Some(n) => Ok(Some(print_check(rt, &scene[..n])?)),
        None => Ok(None),
    }
}

// How many scenes of a list are checked at most.
const MOST_SCENES: usize = 4096;

// Checks the scenes of a list, 4,096 at most, and answers how many.
fn check_all<R: Read>(rt: &impl Print, reader: &mut R) -> io::Result<usize>
    ensures scenes { IfOk result (λ scenes. scenes ≤ 4096) }
    ensures left { GivesAtMost (4096 * (4 + room)) (R.remaining reader.old) (R.remaining reader.new) }
{
    for scenes in 0..MOST_SCENES {
        let Some(_) = check_next(rt, reader)? else {
            return Ok(scenes);
        };
    }
    Ok(MOST_SCENES)
}

fn main(rt: HostRuntime) -> io::Result<()> {
    let mut list = File::open(&rt, "scenes")?;
    check_all(&rt, &mut list)?;
    Ok(())
}
