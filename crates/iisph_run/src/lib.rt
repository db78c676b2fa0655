// What the program writes for any bytes (FORMAT 4), into a list that is lent.
#![tactic(auto)]

ghost use Rattle.std.specs.Prelude.{length};
ghost use Rattle.lists.specs.Stores.{Writes};
ghost use Rattle.iisph_text.specs.Run.{text_in, Runs};

use iisph_text::put_scene;
use iisph_words::text::Text;

// A scene of more bytes is not read.
pub const MOST_BYTES: usize = 32768;

// Room for every text.
pub const TEXT_ROOM: usize = 2 * MOST_BYTES;

// Long enough for the answers and the work of every scene that is read.
const ENOUGH_ANSWERS: usize = 4096;

const ENOUGH_WORK: usize = 3 * ENOUGH_ANSWERS;

// Writes a scene's text in front of `out`, with `answers` and `work` for the step, and answers its length.
pub fn run(scene: &[u8], answers: &mut [f64], work: &mut [f64], out: &mut [u8]) -> usize
    ensures { Runs scene.now answers.old work.old out.old
        result answers.new work.new out.new }
{
    if out.len() < TEXT_ROOM {
        return 0;
    }
    if scene.len() > MOST_BYTES {
        let mut text = Text::new(out);
        text.put_word(b"too long\n");
        return text.len();
    }
    put_scene(scene, answers, work, out)
}

// Writes a scene's text as `run` does, with lists of its own that are long enough for every scene that is read.
pub fn text(scene: &[u8], out: &mut [u8]) -> usize
    ensures { Writes out.old 0 (text_in scene.now (length out.old)) out.new result }
{
    let mut answers = [0.0; ENOUGH_ANSWERS];
    let mut work = [0.0; ENOUGH_WORK];
    run(scene, &mut answers, &mut work, out)
}
