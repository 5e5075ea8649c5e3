//! Positions in a picture, in pixels.
ghost use Rattle.std.specs.Prelude.{◌≡◌, ◌<◌, ◌≤◌, ◌^◌};
ghost use Rattle.up_chart.specs.Svg.{shown_end, tick_step, x_at, y_at};

/// The limit to which times and rows are clamped: 34 years in milliseconds, or this many rows.
const FAR: u64 = 1_099_511_627_776;

/// The width of a whole run.
pub(crate) const WIDTH: u64 = 1000;

/// The height of a row.
pub(crate) const HEIGHT: u64 = 20;

/// The end of a run as it is drawn: at least one millisecond.
pub(crate) fn shown_end(end: u64) -> u64
    ensures value { result ≡ shown_end end }
    ensures some { 1 ≤ result }
    ensures near { result ≤ 1099511627776 }
{
    end.min(FAR).max(1)
}

/// The horizontal position of a time, in a run that ends at `end`.
pub(crate) fn x_at(end: u64, time: u64) -> u64
    ensures { result ≡ x_at end time }
{
    let end = shown_end(end);
    time.min(end) * WIDTH / end
}

/// The top of a row.
pub(crate) fn y_at(place: u64) -> u64
    ensures value { result ≡ y_at place }
    ensures near { result < 2 ^ 50 }
{
    place.min(FAR) * HEIGHT
}

/// The first of these steps of which at most ten fit into a run.
pub(crate) fn tick_step(end: u64, steps: &[u64]) -> u64
    ensures { result ≡ tick_step end steps.now }
{
    for step in steps {
        if end / 10 < *step {
            return *step;
        }
    }
    FAR
}
