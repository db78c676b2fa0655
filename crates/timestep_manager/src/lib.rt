// The clock of a step (timestep_manager.rs), as far as a pressure step uses it.
#![tactic(auto)]

ghost use Rattle.std.specs.Prelude.{◌≡◌};
ghost use Rattle.timestep_manager.specs.Clock.{inverse, advanced};

// The doubles of `TimestepManager` that a step moves on.
#[derive(Clone, Copy)]
pub struct Clock {
    pub total_step_size: f64,
    pub dt: f64,
    pub inv_dt: f64,
    pub remaining_time: f64,
}

// 1 / dt, or 0 for a zero of either sign.
fn inverse_of(dt: f64) -> f64
    ensures { result ≡ inverse dt }
{
    if math::is_zero(dt) { 0.0 } else { 1.0 / dt }
}

// Advance to the next substep, which is the whole step.
pub fn advance(clock: Clock) -> Clock
    ensures { result ≡ advanced clock }
{
    let dt = clock.total_step_size;
    Clock {
        total_step_size: dt,
        dt,
        inv_dt: inverse_of(dt),
        remaining_time: clock.remaining_time - dt,
    }
}

// The same on a clock that is lent (the Rust's `advance(&mut self)`): it is advanced where its owner keeps it.
pub fn advance_in_place(clock: &mut Clock)
    ensures { clock.new ≡ advanced clock.old }
{
    *clock = advance(*clock);
}
