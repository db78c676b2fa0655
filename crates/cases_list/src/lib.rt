// Reads a list of packed scenes, one after the other: of each its length in four bytes, the most significant first, and
// its bytes. No contract can say what is read. The only errors are those of a read.
#![tactic(auto)]

ghost use Rattle.std.specs.Prelude.{◌≡◌, ◌+◌, length, IfOk};
ghost use Rattle.full_reads.specs.Given.{GivesAtMost};
ghost use Rattle.cases_list.specs.Next.{Fits};

use full_reads::read_full;
use scene_format::read::be16;
use std::io;
use std::io::Read;

// A scene of as many bytes as `scene` has. After an error some of `scene` may have been written.
fn read_scene<R: Read>(reader: &mut R, scene: &mut [u8]) -> io::Result<Option<usize>>
    ensures fits { IfOk result (λ next. Fits next (length scene.new)) }
    ensures left { GivesAtMost (length scene.old) (R.remaining reader.old) (R.remaining reader.new) }
{
    let n = scene.len();
    let got = read_full(reader, scene)?;
    if got < n {
        return Ok(None);
    }
    Ok(Some(n))
}

// The next scene, in front of `room`. After an error some of `room` may have been written.
pub fn read_next<R: Read>(reader: &mut R, room: &mut [u8]) -> io::Result<Option<usize>>
    ensures fits { IfOk result (λ next. Fits next (length room.new)) }
    ensures same_length { length room.new ≡ length room.old }
    ensures left { GivesAtMost (4 + length room.old) (R.remaining reader.old) (R.remaining reader.new) }
{
    let mut head = [0u8; 4];
    let got = read_full(reader, &mut head)?;
    if got < 4 {
        return Ok(None);
    }
    let n = be16(&head, 0) * 65536 + be16(&head, 2);
    if n > room.len() {
        return Ok(None);
    }
    read_scene(reader, &mut room[..n])
}
