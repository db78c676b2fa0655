// Lists that are full of a mark, to see whether a call has written to them. The only errors are those of a write.
#![tactic(auto)]

ghost use Rattle.std.specs.Prelude.{◌≡◌, length, IfOk};
ghost use Rattle.cases_marks.specs.Marks.{others};

use std::io;

pub const MARK: f64 = 1.5;

const MARK_BITS: u64 = 0x3ff8_0000_0000_0000;

// How many elements are not the mark.
fn count_others(list: &[f64]) -> usize
    ensures { result ≡ others list.now (length list.now) }
{
    list.iter()
        .filter(|x| math::to_bits(**x) != MARK_BITS)
        .count()
}

// Writes a line if an element is not the mark, and hands back how many are not. After an error the line may be cut
// short.
pub fn print_others(rt: &impl Print, list: &[f64]) -> io::Result<usize>
    ensures { IfOk result (λ n. n ≡ others list.now (length list.now)) }
{
    let n = count_others(list);
    if n > 0 {
        println!(rt; "a list was written to")?;
    }
    Ok(n)
}
