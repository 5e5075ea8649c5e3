//! A picture as a text in SVG.
ghost use Rattle.std.specs.Prelude.{◌≡◌, ◌++◌, ◌≤◌, ◌<◌, ◌^◌, ◌*◌, IfOk, OnOk, max, length};
ghost use Rattle.std.specs.List.{flat_map};
ghost use Rattle.up_model.specs.Signals.{signal_text};
ghost use Rattle.up_chart.specs.Svg.{arrow_path, arrow_text, axis, bar, bar_title, column, corner, crash_text, head, interval, label_text, legend, longest, mark_text, name_text, opening, place_text, row_line, signal_mark, span_text, started_text, svg_of, tail_text, tick_at, tick_line, tick_text, tick_time, tip_y, way_text};

use crate::chart::Chart;
use crate::label::{Arrow, Label, Mark, Span};
use crate::moment::Sign;
use crate::push::{push, push_all_escaped, push_attribute, push_decimal};
use crate::scale::{WIDTH, shown_end, tick_step, x_at, y_at};
use std::alloc::{AllocError, Global};
use up_conf::signal_name;

/// The steps between the times at the bottom, in milliseconds.
static STEPS: [u64; 36] = [
    1,
    2,
    5,
    10,
    20,
    50,
    100,
    200,
    500,
    1_000,
    2_000,
    5_000,
    10_000,
    20_000,
    50_000,
    100_000,
    200_000,
    500_000,
    1_000_000,
    2_000_000,
    5_000_000,
    10_000_000,
    20_000_000,
    50_000_000,
    100_000_000,
    200_000_000,
    500_000_000,
    1_000_000_000,
    2_000_000_000,
    5_000_000_000,
    10_000_000_000,
    20_000_000_000,
    50_000_000_000,
    100_000_000_000,
    200_000_000_000,
    500_000_000_000,
];

/// The times at the bottom, counted in steps.
static TICKS: [u64; 11] = [0, 1, 2, 3, 4, 5, 6, 7, 8, 9, 10];

/// The style of the parts of a picture, and the legend of its colours.
const LOOKS: &'static str = "<style>\
    text{fill:#222}\
    .by{font-size:9px}\
    .name{text-anchor:end}\
    .time{text-anchor:middle}\
    path{fill:none}\
    .tick{stroke:#ccc}\
    .line{stroke:#eee}\
    .crash{fill:#c00}\
    .signal{stroke:#000;stroke-width:2}\
    .arrow{stroke:#555;stroke-width:.7;marker-start:url(#tail);marker-end:url(#tip)}\
    .end{fill:#555}\
    .starting{fill:#f5d76e}\
    .pre-start{fill:#f2a65a}\
    .spawned{fill:#7fa8e0}\
    .post-start{fill:#5fd0d0}\
    .running{fill:#8fcf8f}\
    .pre-stop{fill:#d7a7dc}\
    .stopping{fill:#b0b0b0}\
    .post-stop{fill:#8a7fb8}\
    </style>\n\
    <defs><marker id=\"tail\" markerUnits=\"userSpaceOnUse\" markerWidth=\"4\" markerHeight=\"4\" refX=\"2\" refY=\"2\">\
    <circle class=\"end\" cx=\"2\" cy=\"2\" r=\"2\"/></marker>\
    <marker id=\"tip\" markerUnits=\"userSpaceOnUse\" markerWidth=\"6\" markerHeight=\"6\" refX=\"6\" refY=\"3\" orient=\"auto\">\
    <path class=\"end\" d=\"M0 0l6 3l-6 3z\"/></marker></defs>\n\
    <rect width=\"100%\" height=\"100%\" fill=\"#fff\"/>\n\
    <rect class=\"starting\" x=\"16\" y=\"12\" width=\"14\" height=\"14\"/>\
    <text x=\"34\" y=\"23\">starting</text>\n\
    <rect class=\"pre-start\" x=\"96\" y=\"12\" width=\"14\" height=\"14\"/>\
    <text x=\"114\" y=\"23\">pre-start</text>\n\
    <rect class=\"spawned\" x=\"180\" y=\"12\" width=\"14\" height=\"14\"/>\
    <text x=\"198\" y=\"23\">spawned</text>\n\
    <rect class=\"post-start\" x=\"264\" y=\"12\" width=\"14\" height=\"14\"/>\
    <text x=\"282\" y=\"23\">post-start</text>\n\
    <rect class=\"running\" x=\"352\" y=\"12\" width=\"14\" height=\"14\"/>\
    <text x=\"370\" y=\"23\">running</text>\n\
    <rect class=\"pre-stop\" x=\"430\" y=\"12\" width=\"14\" height=\"14\"/>\
    <text x=\"448\" y=\"23\">pre-stop</text>\n\
    <rect class=\"stopping\" x=\"512\" y=\"12\" width=\"14\" height=\"14\"/>\
    <text x=\"530\" y=\"23\">stopping</text>\n\
    <rect class=\"post-stop\" x=\"596\" y=\"12\" width=\"14\" height=\"14\"/>\
    <text x=\"614\" y=\"23\">post-stop</text>\n\
    <path class=\"crash\" d=\"M688 13l5 11h-10z\"/>\
    <text x=\"698\" y=\"23\">main failed</text>\n\
    <path class=\"signal\" d=\"M776 11v16\"/>\
    <text x=\"782\" y=\"23\">signal</text>\n\
    <path class=\"arrow\" d=\"M832 19H854\"/>\
    <text x=\"860\" y=\"23\">started by</text>\n";

/// The start of a picture, before its size and after it.
const BEGINNING: &'static str = "<svg xmlns=\"http://www.w3.org/2000/svg\"";

const LETTERS: &'static str = " font-family=\"sans-serif\" font-size=\"11\">\n";

/// The text in a bar before its title and after it.
const BAR_BEGINS: &'static str = " height=\"14\"><title>";

const BAR_ENDS: &'static str = " ms</title></rect>\n";

fn longest(labels: &[Label]) -> u64
    ensures { result ≡ longest labels.now }
{
    let mut most = 0;
    for label in labels {
        most = most.max(label.name.as_str().len() as u64);
    }
    most
}

// The width of the column of names, in pixels.
fn column(labels: &[Label]) -> u64
    ensures value { result ≡ column labels.now }
    ensures narrow { result ≤ 600 }
{
    longest(labels).min(80) * 7 + 24
}

// Appends the opening tag with the size.
#[tactic(auto, unfolding(crate::specs::Svg::opening))]
fn push_opening(text: &mut Vec<u8>, width: u64, height: u64) -> Result<(), AllocError>
    ensures { OnOk result (text.new.items ≡ text.old.items ++ opening width height) }
{
    push(text, BEGINNING)?;
    push_attribute(text, "width", width)?;
    push_attribute(text, "height", height)?;
    push(text, LETTERS)
}

// Appends the styles and the legend, and opens the group of the rows.
#[tactic(auto, unfolding(crate::specs::Svg::legend))]
fn push_legend(text: &mut Vec<u8>, left: u64) -> Result<(), AllocError>
    ensures { OnOk result (text.new.items ≡ text.old.items ++ legend left) }
{
    push(text, LOOKS)?;
    push(text, "<g transform=\"translate(")?;
    push_decimal(text, left)?;
    push(text, ",44)\">\n")
}

// Appends the opening tag, the styles and the legend.
#[tactic(auto, unfolding(crate::specs::Svg::head))]
fn push_head(text: &mut Vec<u8>, labels: &[Label]) -> Result<(), AllocError>
    ensures { OnOk result (text.new.items ≡ text.old.items ++ head labels.now) }
{
    let left = column(labels);
    push_opening(text, left + WIDTH + 160, y_at(labels.len() as u64) + 80)?;
    push_legend(text, left)
}

// Appends a position as the attributes `x` and `y`.
#[tactic(auto, unfolding(crate::specs::Svg::corner))]
fn push_corner(text: &mut Vec<u8>, x: u64, y: u64) -> Result<(), AllocError>
    ensures { OnOk result (text.new.items ≡ text.old.items ++ corner x y) }
{
    push_attribute(text, "x", x)?;
    push_attribute(text, "y", y)
}

// A tick, from the first row to below the last.
#[tactic(auto, unfolding(crate::specs::Svg::tick_line))]
fn push_tick_line(text: &mut Vec<u8>, x: u64, below: u64) -> Result<(), AllocError>
    ensures { OnOk result (text.new.items ≡ text.old.items ++ tick_line x below) }
{
    push(text, "<path class=\"tick\" d=\"M")?;
    push_decimal(text, x)?;
    push(text, " 0V")?;
    push_decimal(text, below)?;
    push(text, "\"/>")
}

#[tactic(auto, unfolding(crate::specs::Svg::tick_time))]
fn push_tick_time(text: &mut Vec<u8>, x: u64, y: u64, time: u64) -> Result<(), AllocError>
    ensures { OnOk result (text.new.items ≡ text.old.items ++ tick_time x y time) }
{
    push(text, "<text class=\"time\"")?;
    push_corner(text, x, y)?;
    push(text, ">")?;
    push_decimal(text, time)?;
    push(text, " ms</text>\n")
}

#[tactic(auto, unfolding(crate::specs::Svg::tick_text))]
fn push_tick(text: &mut Vec<u8>, end: u64, bottom: u64, time: u64) -> Result<(), AllocError>
    requires { bottom < 2 ^ 50 }
    ensures { OnOk result (text.new.items ≡ text.old.items ++ tick_text end bottom time) }
{
    let x = x_at(end, time);
    push_tick_line(text, x, bottom + 4)?;
    push_tick_time(text, x, bottom + 18, time)
}

fn push_tick_at(
    text: &mut Vec<u8>,
    end: u64,
    bottom: u64,
    step: u64,
    tick: u64,
) -> Result<(), AllocError>
    requires { bottom < 2 ^ 50 }
    ensures { OnOk result (text.new.items ≡ text.old.items ++ tick_at end bottom step tick) }
{
    match tick.checked_mul(step) {
        Some(time) if time <= end => push_tick(text, end, bottom, time),
        _ => Ok(()),
    }
}

fn push_ticks(
    text: &mut Vec<u8>,
    end: u64,
    bottom: u64,
    step: u64,
    ticks: &[u64],
) -> Result<(), AllocError>
    requires { bottom < 2 ^ 50 }
    ensures { OnOk result (text.new.items ≡ text.old.items ++ flat_map (tick_at end bottom step) ticks.now) }
{
    for tick in ticks {
        push_tick_at(text, end, bottom, step, *tick)?;
    }
    Ok(())
}

// Appends the times at the bottom.
#[tactic(auto, unfolding(crate::specs::Svg::axis))]
fn push_axis(text: &mut Vec<u8>, end: u64, rows: u64) -> Result<(), AllocError>
    ensures { OnOk result (text.new.items ≡ text.old.items ++ axis end rows) }
{
    let end = shown_end(end);
    let step = tick_step(end, &STEPS);
    push_ticks(text, end, y_at(rows), step, &TICKS)
}

#[tactic(auto, unfolding(crate::specs::Svg::row_line))]
fn push_row_line(text: &mut Vec<u8>, y: u64) -> Result<(), AllocError>
    ensures { OnOk result (text.new.items ≡ text.old.items ++ row_line y) }
{
    push(text, "<path class=\"line\" d=\"M0 ")?;
    push_decimal(text, y)?;
    push(text, "h1000\"/>")
}

#[tactic(auto, unfolding(crate::specs::Svg::name_text))]
fn push_name(text: &mut Vec<u8>, y: u64, name: &[u8]) -> Result<(), AllocError>
    ensures { OnOk result (text.new.items ≡ text.old.items ++ name_text y name.now) }
{
    push(text, "<text class=\"name\" x=\"-8\"")?;
    push_attribute(text, "y", y)?;
    push(text, ">")?;
    push_all_escaped(text, name)?;
    push(text, "</text>\n")
}

// Appends the line above a row and its name.
#[tactic(auto, unfolding(crate::specs::Svg::label_text))]
fn push_label(text: &mut Vec<u8>, label: &Label) -> Result<(), AllocError>
    ensures { OnOk result (text.new.items ≡ text.old.items ++ label_text label.now) }
{
    let y = y_at(label.place);
    push_row_line(text, y)?;
    push_name(text, y + 14, label.name.as_str().as_bytes())
}

fn push_labels(text: &mut Vec<u8>, labels: &[Label]) -> Result<(), AllocError>
    ensures { OnOk result (text.new.items ≡ text.old.items ++ flat_map label_text labels.now) }
{
    for label in labels {
        push_label(text, label)?;
    }
    Ok(())
}

// Appends `BEGIN to END`, in milliseconds.
#[tactic(auto, unfolding(crate::specs::Svg::interval))]
fn push_interval(text: &mut Vec<u8>, begin: u64, end: u64) -> Result<(), AllocError>
    ensures { OnOk result (text.new.items ≡ text.old.items ++ interval begin end) }
{
    push_decimal(text, begin)?;
    push(text, " to ")?;
    push_decimal(text, end)?;
    push(text, BAR_ENDS)
}

#[tactic(auto, unfolding(crate::specs::Svg::bar))]
fn push_bar(text: &mut Vec<u8>, class: &str, x: u64, y: u64, width: u64) -> Result<(), AllocError>
    ensures { OnOk result (text.new.items ≡ text.old.items ++ bar class.now x y width) }
{
    push(text, "<rect class=\"")?;
    push(text, class)?;
    push(text, "\"")?;
    push_corner(text, x, y)?;
    push_attribute(text, "width", width)
}

// Appends the title of a bar, which is shown under the mouse pointer.
#[tactic(auto, unfolding(crate::specs::Svg::bar_title))]
fn push_bar_title(text: &mut Vec<u8>, class: &str, begin: u64, end: u64) -> Result<(), AllocError>
    ensures { OnOk result (text.new.items ≡ text.old.items ++ bar_title class.now begin end) }
{
    push(text, BAR_BEGINS)?;
    push(text, class)?;
    push(text, ", ")?;
    push_interval(text, begin, end)
}

// Appends the bar of a state. It is at least one pixel wide.
#[tactic(auto, unfolding(crate::specs::Svg::span_text))]
fn push_span(text: &mut Vec<u8>, end: u64, span: &Span) -> Result<(), AllocError>
    ensures { OnOk result (text.new.items ≡ text.old.items ++ span_text end span.now) }
{
    let x = x_at(end, span.begin);
    let width = x_at(end, span.end).saturating_sub(x).max(1);
    push_bar(text, span.state.name(), x, y_at(span.place) + 3, width)?;
    push_bar_title(text, span.state.name(), span.begin, span.end)
}

fn push_spans(text: &mut Vec<u8>, end: u64, spans: &[Span]) -> Result<(), AllocError>
    ensures { OnOk result (text.new.items ≡ text.old.items ++ flat_map (span_text end) spans.now) }
{
    for span in spans {
        push_span(text, end, span)?;
    }
    Ok(())
}

fn push_signal(text: &mut Vec<u8>, signal: u8) -> Result<(), AllocError>
    ensures { OnOk result (text.new.items ≡ text.old.items ++ signal_text signal) }
{
    match signal_name(signal) {
        Some(name) => push(text, name),
        None => push_decimal(text, u64::from(signal)),
    }
}

// Appends the start of an arrow: in a row, or above the first.
fn push_tail(text: &mut Vec<u8>, from: Option<u64>) -> Result<(), AllocError>
    ensures { OnOk result (text.new.items ≡ text.old.items ++ tail_text from) }
{
    match from {
        Some(from) => push_decimal(text, y_at(from) + 10),
        None => push(text, "-8"),
    }
}

// The vertical position of the end of an arrow.
fn tip_y(from: Option<u64>, place: u64) -> u64
    ensures { result ≡ tip_y from place }
{
    match from {
        Some(from) if place < from => y_at(place) + 17,
        _ => y_at(place) + 3,
    }
}

// Straight to a life that begins at the same position, or along the row to one that begins later.
#[tactic(auto, unfolding(crate::specs::Svg::way_text))]
fn push_way(
    text: &mut Vec<u8>,
    from: Option<u64>,
    place: u64,
    x: u64,
    to_x: u64,
) -> Result<(), AllocError>
    ensures { OnOk result (text.new.items ≡ text.old.items ++ way_text from place x to_x) }
{
    push(text, "V")?;
    if x < to_x {
        push_decimal(text, y_at(place) + 10)?;
        push(text, "H")?;
        push_decimal(text, to_x)
    } else {
        push_decimal(text, tip_y(from, place))
    }
}

#[tactic(auto, unfolding(crate::specs::Svg::arrow_path))]
fn push_arrow_path(
    text: &mut Vec<u8>,
    from: Option<u64>,
    place: u64,
    x: u64,
    to_x: u64,
) -> Result<(), AllocError>
    ensures { OnOk result (text.new.items ≡ text.old.items ++ arrow_path from place x to_x) }
{
    push(text, "<path class=\"arrow\" d=\"M")?;
    push_decimal(text, x)?;
    push(text, " ")?;
    push_tail(text, from)?;
    push_way(text, from, place, x, to_x)?;
    push(text, "\"/>\n")
}

// An arrow from the row and time of an event to the row and time of the life that it started.
fn push_arrow(text: &mut Vec<u8>, end: u64, arrow: &Arrow) -> Result<(), AllocError>
    ensures { OnOk result (text.new.items ≡ text.old.items ++ arrow_text end arrow.now) }
{
    push_arrow_path(
        text,
        arrow.from,
        arrow.place,
        x_at(end, arrow.came),
        x_at(end, arrow.life_began),
    )
}

fn push_arrows(text: &mut Vec<u8>, end: u64, arrows: &[Arrow]) -> Result<(), AllocError>
    ensures { OnOk result (text.new.items ≡ text.old.items ++ flat_map (arrow_text end) arrows.now) }
{
    for arrow in arrows {
        push_arrow(text, end, arrow)?;
    }
    Ok(())
}

// Appends the events that started an instance, at the beginning of its start.
#[tactic(auto, unfolding(crate::specs::Svg::started_text))]
fn push_started(text: &mut Vec<u8>, x: u64, y: u64, events: &[u8]) -> Result<(), AllocError>
    requires { y < 2 ^ 50 }
    ensures { OnOk result (text.new.items ≡ text.old.items ++ started_text x y events.now) }
{
    push(text, "<text class=\"by\" dx=\"3\"")?;
    push_attribute(text, "x", x)?;
    push_attribute(text, "y", y + 13)?;
    push(text, ">")?;
    push_all_escaped(text, events)?;
    push(text, "</text>\n")
}

// Appends the starting point of a path.
fn push_place(text: &mut Vec<u8>, x: u64, y: u64) -> Result<(), AllocError>
    ensures { OnOk result (text.new.items ≡ text.old.items ++ place_text x y) }
{
    push(text, " d=\"M")?;
    push_decimal(text, x)?;
    push(text, " ")?;
    push_decimal(text, y)
}

// Appends the mark of a failed main process.
#[tactic(auto, unfolding(crate::specs::Svg::crash_text))]
fn push_crash(text: &mut Vec<u8>, x: u64, y: u64) -> Result<(), AllocError>
    requires { y < 2 ^ 50 }
    ensures { OnOk result (text.new.items ≡ text.old.items ++ crash_text x y) }
{
    push(text, "<path class=\"crash\"")?;
    push_place(text, x, y + 4)?;
    push(text, "l5 11h-10z\"><title>main failed</title></path>\n")
}

// Appends the mark of a signal, whose name is shown under the mouse pointer.
#[tactic(auto, unfolding(crate::specs::Svg::signal_mark))]
fn push_signal_mark(text: &mut Vec<u8>, x: u64, y: u64, signal: u8) -> Result<(), AllocError>
    requires { y < 2 ^ 50 }
    ensures { OnOk result (text.new.items ≡ text.old.items ++ signal_mark x y signal) }
{
    push(text, "<path class=\"signal\"")?;
    push_place(text, x, y + 2)?;
    push(text, "v16\"><title>")?;
    push_signal(text, signal)?;
    push(text, "</title></path>\n")
}

fn push_mark(text: &mut Vec<u8>, end: u64, mark: &Mark) -> Result<(), AllocError>
    ensures { OnOk result (text.new.items ≡ text.old.items ++ mark_text end mark.now) }
{
    let x = x_at(end, mark.time);
    let y = y_at(mark.place);
    match &mark.sign {
        Sign::Enters(_) => Ok(()),
        Sign::StartedBy { events, source: _ } => {
            push_started(text, x, y, events.as_str().as_bytes())
        }
        Sign::ByClient => Ok(()),
        Sign::Fails => push_crash(text, x, y),
        Sign::Signal(signal) => push_signal_mark(text, x, y, *signal),
        Sign::Comes => Ok(()),
    }
}

fn push_marks(text: &mut Vec<u8>, end: u64, marks: &[Mark]) -> Result<(), AllocError>
    ensures { OnOk result (text.new.items ≡ text.old.items ++ flat_map (mark_text end) marks.now) }
{
    for mark in marks {
        push_mark(text, end, mark)?;
    }
    Ok(())
}

/// A picture in SVG: a row for each instance, with a bar for each of its states, a mark for each failure and each signal, and the events
/// that started it; at the bottom the time in milliseconds.
#[tactic(auto, unfolding(crate::specs::Svg::svg_of))]
pub fn svg(alloc: Global, chart: &Chart) -> Result<Vec<u8>, AllocError>
    ensures { IfOk result (λ text. text.items ≡ svg_of chart.now) }
{
    let mut text = Vec::new(alloc);
    let labels = chart.labels.as_slice();
    push_head(&mut text, labels)?;
    push_axis(&mut text, chart.end, labels.len() as u64)?;
    push_labels(&mut text, labels)?;
    push_spans(&mut text, chart.end, chart.spans.as_slice())?;
    push_arrows(&mut text, chart.end, chart.arrows.as_slice())?;
    push_marks(&mut text, chart.end, chart.marks.as_slice())?;
    push(&mut text, "</g>\n</svg>\n")?;
    Ok(text)
}
