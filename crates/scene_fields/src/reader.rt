// A packed scene read double by double, at any offset: what stands there, or the refusal that the walk says of it. The
// work is done by functions on slice and number, which call the walk's `double`. A reader holds the scene and the
// offset of the next field; each function over it takes it apart and calls one of them.
ghost use Rattle.std.specs.Prelude.{◌≡◌};
ghost use Rattle.scene_fields.specs.Reading.{double_read, behind_double, header_read, reader_at};
ghost use Rattle.scene_fields.specs.Reading.{past_double};

use crate::fields::double;
use scene_format::format::TOTAL_STEP_SIZE;
use scene_format::{Refusal, read};

// The double at an offset.
fn double_at(s: &[u8], at: usize) -> Result<f64, Refusal>
    ensures { result ≡ double_read s.now at }
{
    double(s, at)?;
    Ok(read::double(s, at))
}

// The offset behind the double at an offset; that offset itself where the double is refused.
fn behind_double(s: &[u8], at: usize) -> usize
    ensures { result ≡ behind_double s.now at }
{
    double(s, at).unwrap_or(at)
}

// A scene, and where the next field stands.
#[derive(Clone, Copy)]
pub struct Reader<'a> {
    pub scene: &'a [u8],
    pub at: usize,
}

impl<'a> Reader<'a> {
    // A reader that starts at an offset.
    pub fn starting_at(scene: &'a [u8], at: usize) -> Reader<'a>
        ensures { result ≡ reader_at scene.entry at }
    {
        Reader { scene, at }
    }

    // The double at its place, or its refusal.
    pub fn double(self) -> Result<f64, Refusal>
        ensures { result ≡ double_read self.entry.scene.now self.entry.at }
    {
        double_at(self.scene, self.at)
    }

    // The reader, moved on behind that double; where the double is refused, it stays.
    pub fn past_double(self) -> Reader<'a>
        ensures { result ≡ past_double self.entry }
    {
        let at = behind_double(self.scene, self.at);
        Reader {
            scene: self.scene,
            at,
        }
    }
}

// The three doubles of the header that stand by themselves.
#[derive(Clone, Copy)]
pub struct HeaderNumbers {
    pub total_step_size: f64,
    pub remaining_time: f64,
    pub max_density_error: f64,
}

// The header's numbers, one after the other. Its parameter is a plain slice, so its callers need to know of no reader.
pub fn header_numbers(scene: &[u8]) -> Result<HeaderNumbers, Refusal>
    ensures { result ≡ header_read scene.now }
{
    let first = Reader::starting_at(scene, TOTAL_STEP_SIZE);
    let second = first.past_double();
    let third = second.past_double();
    Ok(HeaderNumbers {
        total_step_size: first.double()?,
        remaining_time: second.double()?,
        max_density_error: third.double()?,
    })
}
