// The iterations over the pressures (the Rust's `pressure_solve`): the passes of one, its error, and the loop with its
// early end.
ghost use Rattle.std.specs.Prelude.{◌≡◌};
ghost use Rattle.iisph_header.specs.Header.{StoppingIs};
ghost use Rattle.iisph_pressures.specs.IterationRows.{pressures_in, Iterating};
ghost use Rattle.iisph_rows.specs.Passes.{DrivenOn};
ghost use Rattle.iisph_rules.specs.Step.{first_pressures};
ghost use Rattle.scene_check.specs.Check.{Passed};
ghost use Rattle.scene_format.specs.SceneOf.{scene_of};
ghost use Rattle.iisph_iterations.specs.PressureSolve.{Iterates, ending_after, Solves};

use crate::errors::max_error;
use iisph_header::Stopping;
use iisph_passes::traverse::{Pass, traverse};
use iisph_rows::over::{Drive, Over};
use iisph_rules::{Ending, IterationError, NO_ERROR};
use scene_layout::Layout;

// How many iterations were carried out, and how they ended.
#[derive(Clone, Copy)]
pub struct Solved {
    pub iterations: u32,
    pub ending: Ending,
}

// One iteration; its error is handed back.
fn iterate(over: Over, layout: Layout, drive: Drive, work: &mut [f64]) -> IterationError
    requires driven_pass { DrivenOn over drive }
    requires passed { Passed over.scene.now layout × Iterating (scene_of over.scene.now) over.dim over.n work.old }
    ensures { Iterates over.entry.dim (scene_of over.entry.scene.now) work.old result work.new }
{
    traverse(Pass::Quotients, over, drive, work);
    traverse(Pass::DijPjl, over, drive, work);
    traverse(Pass::NextPressures, over, drive, work);
    traverse(Pass::Exchange, over, drive, work);
    max_error(over, layout, work)
}

// The ending after i iterations, the last with this error, if none met the stopping test.
fn ending_after(i: usize, error: IterationError) -> Ending
    ensures { result ≡ ending_after i error }
{
    if i == 0 {
        Ending::Unswept
    } else {
        Ending::RanOut(error.value, error.passed_over)
    }
}

// The iterations from the first pressures, which stand in the rows.
pub fn pressure_solve(
    over: Over,
    layout: Layout,
    drive: Drive,
    stopping: Stopping,
    work: &mut [f64],
) -> Solved
    requires driven_pass { DrivenOn over drive × StoppingIs (scene_of over.scene.now) stopping }
    requires passed { Passed over.scene.now layout × Iterating (scene_of over.scene.now) over.dim over.n work.old }
    requires work_value { pressures_in over.dim over.n work.old ≡ first_pressures (scene_of over.scene.now) }
    ensures { Solves over.entry.dim (scene_of over.entry.scene.now) work.old result work.new }
{
    let least = stopping.min_pressure_iter;
    let most = stopping.max_pressure_iter;
    let limit = stopping.max_density_error;
    let mut error = NO_ERROR;
    for i in 0..most {
        error = iterate(over, layout, drive, work);
        if error.value <= limit && i >= least {
            return Solved {
                iterations: (i + 1) as u32,
                ending: Ending::Settled(error.value, error.passed_over),
            };
        }
    }
    Solved {
        iterations: most as u32,
        ending: ending_after(most, error),
    }
}
