// The C interface to the table of the weight shape (include/iisph.h). It makes an archive of its own, which a board's
// tests take without the solver.
#![tactic(auto)]

ghost use Rattle.weight_table.specs.Lookup.{LookupPromise};

// The weight shape at q, in units of 2^-20, as the board looks it up: in units of 2^-30.
#[unsafe(no_mangle)]
pub extern "C" fn iisph_board_weight(q: u32) -> u32
    ensures { LookupPromise q result }
{
    weight_table::lookup(q)
}
