// The weight shape as a table of whole numbers, for a board with no floating point (METHOD 1.6). Weights are in units
// of 2^-30; q, a distance over the radius, is in units of 2^-20.
#![tactic(auto)]

mod table;

ghost use Rattle.weight_table.specs.Table.{TablePromise};
ghost use Rattle.weight_table.specs.Lookup.{LookupPromise};

// The parts of a step from one entry to the next, and the number of the last of them.
const PARTS: u32 = 1024;

const LAST: u32 = PARTS - 1;

// Where q is 1.
const ONE: u32 = 1048576;

// The whole table: entry k is the weight at q = k / 1024.
pub fn entries() -> [u32; 1025]
    ensures { TablePromise result }
{
    table::ENTRIES
}

// The weight at q, on the line between two entries, rounded down. The table falls, so that is an entry less what the
// line has fallen, rounded up.
pub fn lookup(q: u32) -> u32
    ensures { LookupPromise q result }
{
    if ONE <= q {
        return 0;
    }
    let k = (q / PARTS) as usize;
    let f = q % PARTS;
    let table = entries();
    let here = table[k];
    let next = table[k + 1];
    here - ((here - next) * f + LAST) / PARTS
}
