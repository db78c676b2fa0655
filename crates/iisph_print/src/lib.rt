// Writes the text of a packed scene to standard output: of bytes that are at hand, or that a reader gives. No contract
// can say what is read or written, so they tell how much is written. The only errors are those of a read or a write.
#![tactic(auto)]

ghost use Rattle.std.specs.Prelude.{◌≡◌, length, suc, IfOk};
ghost use Rattle.full_reads.specs.Given.{GivesAtMost};
ghost use Rattle.iisph_text.specs.Text.{most_bytes, text_of};
ghost use Rattle.iisph_print.specs.Printed.{FromInput};

use full_reads::read_full;
use iisph_run::{MOST_BYTES, TEXT_ROOM};
use std::io;
use std::io::Read;

// Room for what is read of a scene: the last byte tells that it is too long.
pub const INPUT_ROOM: usize = MOST_BYTES + 1;

// Writes a scene's text and hands back its length. After an error some of the text may have been written.
pub fn print_text(rt: &impl Print, scene: &[u8]) -> io::Result<usize>
    ensures { IfOk result (λ n. n ≡ length (text_of scene.now)) }
{
    let mut out = [0u8; TEXT_ROOM];
    let n = iisph_run::text(scene, &mut out);
    rt.write_all(&out[..n])?;
    Ok(n)
}

// The same of the scene that an open file or standard input has. After an error of the reader nothing is written.
pub fn print_from<R: Read>(rt: &impl Print, reader: &mut R) -> io::Result<usize>
    ensures written { IfOk result FromInput }
    ensures left { GivesAtMost (suc most_bytes) (R.remaining reader.old) (R.remaining reader.new) }
{
    let mut scene = [0u8; INPUT_ROOM];
    let got = read_full(reader, &mut scene)?;
    print_text(rt, &scene[..got])
}
