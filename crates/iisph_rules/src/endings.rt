// How the iterations ended, as the text and the C interface tell it.
ghost use Rattle.std.specs.Prelude.{◌≡◌};
ghost use Rattle.iisph_rules.specs.Endings.{told_of};

use crate::Ending;

// In the numbers of the C interface: that of an ending, 0 for one without iterations; the last iteration's error, +0
// where there was none; and 1 where an average was passed over in it, else 0.
#[derive(Clone, Copy)]
pub struct Told {
    pub number: u64,
    pub error: f64,
    pub passed_over: u64,
}

pub fn tell(ending: Ending) -> Told
    ensures { result ≡ told_of ending }
{
    match ending {
        Ending::Unswept => Told {
            number: 0,
            error: 0.0,
            passed_over: 0,
        },
        Ending::Settled(error, passed_over) => Told {
            number: 1,
            error,
            passed_over: u64::from(passed_over),
        },
        Ending::RanOut(error, passed_over) => Told {
            number: 2,
            error,
            passed_over: u64::from(passed_over),
        },
    }
}
