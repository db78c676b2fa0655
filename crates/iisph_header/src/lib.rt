// The header of an accepted scene, decoded once for a whole step. `step_header` is for the crates above, which show
// that the scene passed the check.
#![tactic(auto)]

ghost use Rattle.std.specs.Prelude.{◌≡◌, length};
ghost use Rattle.scene_check.specs.Walk.{checked};
ghost use Rattle.scene_format.specs.SceneOf.{scene_of};
ghost use Rattle.iisph_header.specs.Header.{StepHeaderIs};
ghost use Rattle.std.specs.declared.result.Result.TheVariants.{Ok};

use math::Vec3;
use scene_fields::reader::header_numbers;
use scene_format::format::{GRAVITY, MAX_PRESSURE_ITER, MIN_PRESSURE_ITER};
use scene_format::read;
use timestep_manager::{Clock, advance};

// When the iterations stop.
#[derive(Clone, Copy)]
pub struct Stopping {
    pub min_pressure_iter: usize,
    pub max_pressure_iter: usize,
    pub max_density_error: f64,
}

// The clock, advanced by the whole step; gravity; and when the iterations stop.
#[derive(Clone, Copy)]
pub struct StepHeader {
    pub clock: Clock,
    pub gravity: Vec3,
    pub stopping: Stopping,
}

// The header of a scene that passed the check.
pub fn step_header(scene: &[u8]) -> StepHeader
    requires { checked scene.now ≡ Ok (length scene.now) }
    ensures { StepHeaderIs (scene_of scene.now) result }
{
    // A scene that passed the check has its numbers.
    let numbers = header_numbers(scene).unwrap();
    let clock = advance(Clock {
        total_step_size: numbers.total_step_size,
        dt: 0.0,
        inv_dt: 0.0,
        remaining_time: numbers.remaining_time,
    });
    let gravity = read::vector(scene, GRAVITY, read::axes(scene));
    let stopping = Stopping {
        min_pressure_iter: read::byte(scene, MIN_PRESSURE_ITER),
        max_pressure_iter: read::byte(scene, MAX_PRESSURE_ITER),
        max_density_error: numbers.max_density_error,
    };
    StepHeader {
        clock,
        gravity,
        stopping,
    }
}
