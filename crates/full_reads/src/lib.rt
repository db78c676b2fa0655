// Fills a list from a reader, for a scene that comes in one piece.
#![tactic(auto)]

ghost use Rattle.std.specs.Prelude.{◌≡◌, ℕ, ◌≤◌, ◌<◌, length, take, IfOk, OnErr};
ghost use Rattle.std.specs.Io.KnownBytes.{Consumes, IsAtEnd};

use std::io;
use std::io::Read;

// Reads until `list` is full or the input ends, and answers how many bytes came, which are in front of it. A read that
// fails ends it with its error: what came before is in front of the list then. The loop counts no index: each read says
// how far it went.
pub fn read_full<R: Read>(reader: &mut R, list: &mut [u8]) -> io::Result<usize>
    ensures within { IfOk result (λ n. n ≤ length list.new) }
    ensures came { IfOk result (λ n. Consumes (R.remaining reader.old) (R.remaining reader.new) (take n list.new)) }
    ensures ended { IfOk result (λ n. n < length list.new → IsAtEnd (R.remaining reader.new)) }
    ensures err { OnErr result ((n : ℕ) × (n ≤ length list.new)
        × Consumes (R.remaining reader.old) (R.remaining reader.new) (take n list.new)) }
{
    let mut done = 0;
    while done < list.len() {
        let n = reader.read(&mut list[done..])?;
        if n == 0 {
            return Ok(done);
        }
        done += n;
    }
    Ok(done)
}
