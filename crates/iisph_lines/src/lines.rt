// The lines of the text (FORMAT 4.2), each added to a text.
ghost use Rattle.std.specs.Prelude.{◌≡◌, ◌+◌, ◌*◌, ◌≤◌, length};
ghost use Rattle.scene_format.specs.Within.{ModelsWithin};
ghost use Rattle.scene_layout.specs.Layout.{layout_models};
ghost use Rattle.scene_lengths.specs.Lengths.{answers_in};
ghost use Rattle.iisph_words.specs.Texts.{HasRoom, Adds};
ghost use Rattle.iisph_words.specs.Words.{doubles_text};
ghost use Rattle.iisph_lines.specs.Lines.{error_words, ending_text, step_line, clock_line, refused_room};
ghost use Rattle.iisph_lines.specs.Lines.{refused_line, particle_line, model_text, models_text};

use iisph_rules::endings::tell;
use iisph_rules::{Ending, Report};
use iisph_words::text::Text;
use scene_format::read::{axes, keeps, particles};
use scene_format::{Kind, Refusal, number, place};
use scene_layout::Models;
use scene_lengths::answer_width;
use timestep_manager::Clock;

// An iteration's error, and 1 where an average was passed over, else 0, which are the C interface's numbers.
#[tactic(auto, using(crate::proofs::Widths::length_error, iisph_words::proofs::WordWidths::double_ends))]
fn put_error(text: &mut Text<'_>, error: f64, passed_over: u64)
    requires { HasRoom text.old (length (error_words error passed_over)) }
    ensures { Adds text.old (error_words error passed_over) text.new }
{
    text.put_double(error);
    text.put_byte(b' ');
    text.put_decimal(passed_over);
}

// How the iterations ended, how many there were, and the last one's error, with whether an average was passed over. A
// step without any has neither.
fn put_ending(text: &mut Text<'_>, iterations: u64, ending: Ending)
    requires { HasRoom text.old (length (ending_text iterations ending)) }
    ensures { Adds text.old (ending_text iterations ending) text.new }
{
    let told = tell(ending);
    text.put_ending_word(told.number);
    text.put_decimal(iterations);
    if told.number == 0 {
        return;
    }
    put_error(text, told.error, told.passed_over);
}

// The first line of a step that is done.
#[tactic(auto, using(crate::proofs::Widths::length_step))]
pub fn put_step(text: &mut Text<'_>, report: Report)
    requires { HasRoom text.old (length (step_line report)) }
    ensures { Adds text.old (step_line report) text.new }
{
    let ending = report.ending;
    text.put_word(b"step ");
    put_ending(text, report.iterations as u64, ending);
    text.put_byte(b'\n');
}

// The second line of a step that is done.
#[tactic(auto, using(crate::proofs::Widths::length_clock, iisph_words::proofs::WordWidths::double_ends))]
pub fn put_clock(text: &mut Text<'_>, clock: Clock)
    requires { HasRoom text.old (length (clock_line clock)) }
    ensures { Adds text.old (clock_line clock) text.new }
{
    text.put_word(b"clock");
    text.put_double(clock.dt);
    text.put_double(clock.inv_dt);
    text.put_double(clock.remaining_time);
    text.put_byte(b'\n');
}

// The only line of a step that is refused.
pub fn put_refused(text: &mut Text<'_>, refusal: Refusal)
    requires { HasRoom text.old refused_room }
    ensures { Adds text.old (refused_line refusal) text.new }
{
    text.put_word(b"refused ");
    text.put_pair(number(refusal) as u64, place(refusal) as u64);
    text.put_byte(b'\n');
}

// The line of particle i of model m, whose w answers begin at the k-th element of a list.
#[tactic(auto, using(crate::proofs::Widths::length_line))]
fn put_particle(text: &mut Text<'_>, kind: Kind, m: usize, i: usize, xs: &[f64], k: usize, w: usize)
    requires w_in_bounds { k + w ≤ length xs.now }
    requires w_in_bounds_2 { HasRoom text.old (length (particle_line kind m i (doubles_text xs.now k w))) }
    ensures { Adds text.old (particle_line kind m i (doubles_text xs.now k w)) text.new }
{
    text.put_kind(kind);
    text.put_pair(m as u64, i as u64);
    text.put_doubles(xs, k, w);
    text.put_byte(b'\n');
}

// The lines of model m's n particles, with w answers each; the model's answers begin at the k-th element of a list.
fn put_model(text: &mut Text<'_>, kind: Kind, m: usize, n: usize, w: usize, xs: &[f64], k: usize)
    requires n_in_bounds { k + w * n ≤ length xs.now }
    requires xs_in_bounds { HasRoom text.old (length (model_text kind m n w k xs.now)) }
    ensures { Adds text.old (model_text kind m n w k xs.now) text.new }
{
    for i in 0..n {
        put_particle(text, kind, m, i, xs, k + w * i, w);
    }
}

// The lines of all models of a kind of a scene, whose answers begin at the k-th element of a list.
pub fn put_models(
    text: &mut Text<'_>,
    scene: &[u8],
    kind: Kind,
    models: Models,
    xs: &[f64],
    k: usize,
)
    requires models_within { ModelsWithin kind scene.now × (models ≡ layout_models kind scene.now) }
    requires scene_in_bounds { (k + answers_in kind scene.now ≤ length xs.now)
        × HasRoom text.old (length (models_text kind scene.now k xs.now)) }
    ensures { Adds text.old (models_text kind scene.now k xs.now) text.new }
{
    let dim = axes(scene);
    let heads = &models.heads[..models.number];
    let mut from = k;
    for (m, &head) in heads.iter().enumerate() {
        let n = particles(scene, kind, head);
        let w = answer_width(dim, kind, usize::from(keeps(scene, head)));
        put_model(text, kind, m, n, w, xs, from);
        from += w * n;
    }
}
