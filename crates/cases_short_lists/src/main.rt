// Runs the step on the scene in data/scene, scene A of FORMAT 1.9, with an answer list one double too short, with a
// work list one too short, and with both just long enough; then on the one in data/by_halves, the same scene summed by
// halves, with a work list of the length that was enough, and with one a double longer. It writes the texts. The lists
// are full of a mark before; refusal 8 leaves it, and a line tells if an element is another.
#![tactic(auto)]

ghost use Rattle.std.specs.Prelude.{ℕ, IfOk, OnErr};
ghost use Rattle.cases_short_lists.specs.Printed.{Prints};

use cases_marks::{MARK, print_others};
use full_reads::read_full;
use iisph_run::TEXT_ROOM;
use std::fs::File;
use std::io;

// Writes the text of a scene with these lists and hands back its length. After an error the lists are what the step
// left, and the text may be cut short.
fn print_run(
    rt: &impl Print,
    scene: &[u8],
    answers: &mut [f64],
    work: &mut [f64],
) -> io::Result<usize>
    ensures ok { IfOk result (λ n. Prints scene.now answers.old work.old n answers.new work.new) }
    ensures err { OnErr result ((n : ℕ) × Prints scene.now answers.old work.old n answers.new work.new) }
{
    let mut out = [0u8; TEXT_ROOM];
    let n = iisph_run::run(scene, answers, work, &mut out);
    rt.write_all(&out[..n])?;
    Ok(n)
}

// Writes the text of a scene with these lists, and a line for each of them that is then not all marks; hands back the
// text's length. After an error the lists are what the step left, and what is written may be cut short.
fn print_short(
    rt: &impl Print,
    scene: &[u8],
    answers: &mut [f64],
    work: &mut [f64],
) -> io::Result<usize>
    ensures ok { IfOk result (λ n. Prints scene.now answers.old work.old n answers.new work.new) }
    ensures err { OnErr result ((n : ℕ) × Prints scene.now answers.old work.old n answers.new work.new) }
{
    let n = print_run(rt, scene, answers, work)?;
    print_others(rt, answers)?;
    print_others(rt, work)?;
    Ok(n)
}

fn main(rt: HostRuntime) -> io::Result<()> {
    let mut scene = [0u8; 186];
    let mut six_answers = [MARK; 6];
    let mut answers = [MARK; 7];
    let mut thirteen_work = [MARK; 13];
    let mut work = [MARK; 14];
    let mut file = File::open(&rt, "scene")?;
    let got = read_full(&mut file, &mut scene)?;
    print_short(&rt, &scene[..got], &mut six_answers, &mut work)?;
    print_short(&rt, &scene[..got], &mut answers, &mut thirteen_work)?;
    print_run(&rt, &scene[..got], &mut answers, &mut work)?;
    let mut by_halves = [0u8; 186];
    let mut new_answers = [MARK; 7];
    let mut fourteen_work = [MARK; 14];
    let mut fifteen_work = [MARK; 15];
    let mut other = File::open(&rt, "by_halves")?;
    let length = read_full(&mut other, &mut by_halves)?;
    print_short(
        &rt,
        &by_halves[..length],
        &mut new_answers,
        &mut fourteen_work,
    )?;
    print_run(
        &rt,
        &by_halves[..length],
        &mut new_answers,
        &mut fifteen_work,
    )?;
    Ok(())
}
