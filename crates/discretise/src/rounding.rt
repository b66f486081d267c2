//! Metres as cells, and seconds as steps.

ghost use Rattle.std.specs.Prelude.{◌≡◌, ◌≤◌};
ghost use Rattle.rail_net.specs.Rules.{IsGoodLimit};
ghost use Rattle.discretise.specs.Rounding.{HasSteps, advance_of as advance_in_step, length_in_cells as cells_of_length, dwell_steps as steps_of_stop, last_step as last_of_steps, latest_entry as latest_of_entry, limit_of as limit_in_cells, step_count as steps_of_horizon, step_from as first_step_from, steps_until as whole_steps_until};

use cell_net::limits::ADVANCE;
use timetable::Timetable;

/// A length in cells, rounded up.
pub(crate) fn cells_of(timetable: &Timetable, length_m: u64) -> u64
    requires { HasSteps timetable.now }
    ensures { result ≡ cells_of_length timetable.now length_m }
{
    length_m.div_ceil(timetable.space_step_m)
}

/// How many whole cells a speed, of at most 500 km/h, covers in a step of time.
pub(crate) fn advance_of(timetable: &Timetable, speed_kmh: u64) -> u64
    requires steps { HasSteps timetable.now }
    requires slow { speed_kmh ≤ 500 }
    ensures { result ≡ advance_in_step timetable.now speed_kmh }
{
    // A speed of 18 km/h is 5 m/s.
    speed_kmh * timetable.time_step_s * 5 / (18 * timetable.space_step_m)
}

/// How many steps end at the horizon or before.
pub(crate) fn step_count(timetable: &Timetable) -> u64
    requires { HasSteps timetable.now }
    ensures { result ≡ steps_of_horizon timetable.now }
{
    timetable.horizon_s / timetable.time_step_s
}

/// The first step that begins at the time or later.
pub(crate) fn step_from(timetable: &Timetable, time_s: u64) -> u64
    requires { HasSteps timetable.now }
    ensures { result ≡ first_step_from timetable.now time_s }
{
    time_s.div_ceil(timetable.time_step_s)
}

/// How many steps end at the time or before.
pub(crate) fn steps_until(timetable: &Timetable, time_s: u64) -> u64
    requires { HasSteps timetable.now }
    ensures { result ≡ whole_steps_until timetable.now time_s }
{
    time_s / timetable.time_step_s
}

/// The last step that ends at the arrival time or before, within the horizon.
pub(crate) fn last_step(timetable: &Timetable, arrive_s: Option<u64>) -> u64
    requires { HasSteps timetable.now }
    ensures { result ≡ last_of_steps timetable.now arrive_s }
{
    let last = step_count(timetable).saturating_sub(1);
    match arrive_s {
        Some(arrive_s) => last.min(steps_until(timetable, arrive_s).saturating_sub(1)),
        None => last,
    }
}

/// The last step at which a train may enter that enters from `start` on and arrives by step `by`.
pub(crate) fn latest_entry(
    timetable: &Timetable,
    start: u64,
    by: u64,
    entry_until_s: Option<u64>,
) -> u64
    requires { HasSteps timetable.now }
    ensures { result ≡ latest_of_entry timetable.now start by entry_until_s }
{
    match entry_until_s {
        Some(entry_until_s) => steps_until(timetable, entry_until_s).min(by),
        None => start,
    }
}

/// How many steps a stop takes: one at least.
pub(crate) fn dwell_steps(timetable: &Timetable, dwell_s: u64) -> u64
    requires { HasSteps timetable.now }
    ensures { result ≡ steps_of_stop timetable.now dwell_s }
{
    step_from(timetable, dwell_s).max(1)
}

/// How many cells a train may advance in a step on a track with this limit, of at most 500 km/h.
pub(crate) fn limit_of(timetable: &Timetable, limit_kmh: Option<u64>) -> u64
    requires steps { HasSteps timetable.now }
    requires slow { IsGoodLimit limit_kmh }
    ensures value { result ≡ limit_in_cells timetable.now limit_kmh }
    ensures limited { result ≤ ADVANCE }
{
    match limit_kmh {
        Some(limit_kmh) => advance_of(timetable, limit_kmh).min(u64::from(ADVANCE)),
        None => u64::from(ADVANCE),
    }
}
