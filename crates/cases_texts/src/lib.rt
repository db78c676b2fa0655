// Writes the text of each packed scene of a list, one after the other. The only errors are those of a read or a write.
#![tactic(auto)]

ghost use Rattle.std.specs.Prelude.{◌+◌, ◌*◌, ◌≤◌, IfOk};
ghost use Rattle.full_reads.specs.Given.{GivesAtMost};
ghost use Rattle.cases_list.specs.Next.{FromNext};
ghost use Rattle.cases_texts.specs.Written.{room, written};

use cases_list::read_next;
use iisph_print::{INPUT_ROOM, print_text};
use std::io;
use std::io::Read;

// Writes the text of the next scene and hands back its length, or 0 where there is none.
fn print_next<R: Read>(rt: &impl Print, reader: &mut R) -> io::Result<usize>
    ensures next { IfOk result (FromNext room written 0) }
    ensures left { GivesAtMost (4 + room) (R.remaining reader.old) (R.remaining reader.new) }
{
    let mut scene = [0u8; INPUT_ROOM];
    match read_next(reader, &mut scene)? {
        Some(n) => print_text(rt, &scene[..n]),
        None => Ok(0),
    }
}

// How many scenes of a list have their texts written at most.
const MOST_SCENES: usize = 65536;

// Writes the texts of a list, of 65,536 scenes at most, and answers how many. After an error the texts of the scenes
// before are written whole.
pub fn print_all<R: Read>(rt: &impl Print, reader: &mut R) -> io::Result<usize>
    ensures scenes { IfOk result (λ scenes. scenes ≤ 65536) }
    ensures left { GivesAtMost (65536 * (4 + room)) (R.remaining reader.old) (R.remaining reader.new) }
{
    for scenes in 0..MOST_SCENES {
        if print_next(rt, reader)? == 0 {
            return Ok(scenes);
        }
    }
    Ok(MOST_SCENES)
}
