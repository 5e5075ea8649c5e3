//! Collects the picture of a run from its moments, one after another.
ghost use Rattle.std.specs.Prelude.{◌≡◌, ◌++◌, ◌∷◌, [], OnOk, IfOk};
ghost use Rattle.up_chart.specs.Arrows.{arrows_by, arrows_in};
ghost use Rattle.up_chart.specs.Charts.{marks_by, marks_in, span_of, spans_by, spans_in, started, starts_by, starts_in};
ghost use Rattle.up_chart.specs.Rows.{all_rows, row_for, rows_after, times_after};
ghost use Rattle.up_chart.specs.declared.moment.Sign.TheVariants.{StartedBy};

use crate::arrow::push_arrows;
use crate::label::{Arrow, Mark, Span, Start};
use crate::moment::{Moment, Sign};
use crate::row::{Row, came_again, is_up, new_row, next_row};
use crate::rows::Rows;
use crate::times::Times;
use std::alloc::{AllocError, Global};
use up_model::State;
use up_text::Text;

/// The picture of a run so far.
#[derive(Drop)]
pub struct Seen {
    pub rows: Rows,
    /// The times at which each event occurred.
    pub times: Times,
    pub spans: Vec<Span>,
    pub arrows: Vec<Arrow>,
    pub marks: Vec<Mark>,
    pub starts: Vec<Start>,
}

/// Appends the state of an instance up to this time, if it lasted a while. Waiting isn't shown.
pub(crate) fn push_span(spans: &mut Vec<Span>, end: u64, row: &Row) -> Result<(), AllocError>
    ensures { OnOk result (spans.new.items ≡ spans.old.items ++ span_of end row.now) }
{
    if row.state.is_waiting() || end <= row.since {
        return Ok(());
    }
    spans.push(Span {
        place: row.place,
        state: row.state,
        begin: row.since,
        end,
    })?;
    Ok(())
}

fn push_spans(spans: &mut Vec<Span>, time: u64, row: &Row, sign: &Sign) -> Result<(), AllocError>
    ensures { OnOk result (spans.new.items ≡ spans.old.items ++ spans_by time row.now sign.now) }
{
    match sign {
        Sign::Enters(_) => push_span(spans, time, row),
        Sign::StartedBy {
            events: _,
            source: _,
        } => Ok(()),
        Sign::ByClient => Ok(()),
        Sign::Fails => Ok(()),
        Sign::Signal(_) => Ok(()),
        Sign::Comes => Ok(()),
    }
}

fn push_mark(marks: &mut Vec<Mark>, place: u64, time: u64, sign: Sign) -> Result<(), AllocError>
    ensures { OnOk result (marks.new.items ≡ marks.old.items ++ (record { place = place; time = time; sign = sign }) ∷ []) }
{
    marks.push(Mark { place, time, sign })?;
    Ok(())
}

fn copy_source(source: &Option<Text>) -> Result<Option<Text>, AllocError>
    ensures { IfOk result (λ copied. copied ≡ source.now) }
{
    match source {
        Some(source) => {
            let source = source.copy()?;
            Ok(Some(source))
        }
        None => Ok(None),
    }
}

// A `StartedBy` with copies of these texts.
fn started_by(events: &Text, source: &Option<Text>) -> Result<Sign, AllocError>
    ensures { IfOk result (λ sign. sign ≡ StartedBy events.now source.now) }
{
    let source = copy_source(source)?;
    match events.copy() {
        Ok(events) => Ok(Sign::StartedBy { events, source }),
        Err(refused) => {
            drop(source);
            Err(refused)
        }
    }
}

fn push_marks(marks: &mut Vec<Mark>, time: u64, row: &Row, sign: &Sign) -> Result<(), AllocError>
    ensures { OnOk result (marks.new.items ≡ marks.old.items ++ marks_by time row.now sign.now) }
{
    match sign {
        Sign::Enters(_) => Ok(()),
        Sign::StartedBy { events, source } => {
            if row.told {
                return Ok(());
            }
            let sign = started_by(events, source)?;
            push_mark(marks, row.place, time, sign)
        }
        Sign::ByClient => Ok(()),
        Sign::Fails => {
            if is_up(row.state) {
                push_mark(marks, row.place, time, Sign::Fails)
            } else {
                Ok(())
            }
        }
        Sign::Signal(signal) => push_mark(marks, row.place, time, Sign::Signal(*signal)),
        Sign::Comes => Ok(()),
    }
}

// Appends a start that is completed, if one began.
fn push_start(
    starts: &mut Vec<Start>,
    time: u64,
    name: &Text,
    began: Option<u64>,
) -> Result<(), AllocError>
    ensures { OnOk result (starts.new.items ≡ starts.old.items ++ started time name.now began) }
{
    let Some(began) = began else {
        return Ok(());
    };
    let name = name.copy()?;
    let took = time.saturating_sub(began);
    starts.push(Start { name, began, took })?;
    Ok(())
}

fn push_starts(starts: &mut Vec<Start>, row: &Row, moment: &Moment) -> Result<(), AllocError>
    ensures { OnOk result (starts.new.items ≡ starts.old.items ++ starts_by row.now moment.now) }
{
    match moment.sign {
        Sign::Enters(State::Running) => push_start(
            starts,
            moment.time,
            &moment.name,
            row.start_began,
        ),
        _ => Ok(()),
    }
}

fn row_for(rows: &Rows, moment: &Moment) -> Row
    ensures { result ≡ row_for rows.now moment.now }
{
    match rows.get(moment.name.as_str()) {
        Some(row) => row,
        None => new_row(rows.len() as u64, moment.time),
    }
}

// Records the time, if an event occurs.
#[tactic(auto, unfolding(crate::specs::Rows::times_after))]
fn set_time(alloc: Global, times: &mut Times, moment: &Moment) -> Result<(), AllocError>
    ensures { OnOk result (times.new ≡ times_after times.old moment.now) }
{
    match moment.sign {
        Sign::Comes => {
            let name = moment.name.as_str();
            let came = came_again(moment.time, times.get(name));
            times.set(alloc, name, came)
        }
        Sign::Enters(_)
        | Sign::StartedBy {
            events: _,
            source: _,
        }
        | Sign::ByClient
        | Sign::Fails
        | Sign::Signal(_) => Ok(()),
    }
}

// Updates an instance after a moment.
#[tactic(auto, unfolding(crate::specs::Rows::rows_after))]
fn set_row(alloc: Global, rows: &mut Rows, row: Row, moment: &Moment) -> Result<(), AllocError>
    requires { row ≡ row_for rows.old moment.now }
    ensures { OnOk result (rows.new ≡ rows_after rows.old moment.now) }
{
    match &moment.sign {
        Sign::Comes => Ok(()),
        sign => rows.set(
            alloc,
            moment.name.as_str(),
            next_row(moment.time, row, sign),
        ),
    }
}

impl Seen {
    pub(crate) fn new(alloc: Global) -> Self
        ensures rows { result.rows ≡ [] }
        ensures times { result.times ≡ [] }
        ensures spans { result.spans.items ≡ [] }
        ensures arrows { result.arrows.items ≡ [] }
        ensures marks { result.marks.items ≡ [] }
        ensures starts { result.starts.items ≡ [] }
    {
        Seen {
            rows: Rows::new(alloc),
            times: Times::new(alloc),
            spans: Vec::new(alloc),
            arrows: Vec::new(alloc),
            marks: Vec::new(alloc),
            starts: Vec::new(alloc),
        }
    }

    // Adds to the picture what a moment shows, given the instance before it.
    fn draw(&mut self, row: &Row, moment: &Moment) -> Result<(), AllocError>
        ensures rows { OnOk result (self.new.rows ≡ self.old.rows) }
        ensures times { OnOk result (self.new.times ≡ self.old.times) }
        ensures spans { OnOk result (self.new.spans.items
            ≡ self.old.spans.items ++ spans_by moment.now.time row.now moment.now.sign) }
        ensures arrows { OnOk result (self.new.arrows.items ≡ self.old.arrows.items
            ++ arrows_by self.old.rows self.old.times row.now moment.now.sign) }
        ensures marks { OnOk result (self.new.marks.items
            ≡ self.old.marks.items ++ marks_by moment.now.time row.now moment.now.sign) }
        ensures starts { OnOk result (self.new.starts.items
            ≡ self.old.starts.items ++ starts_by row.now moment.now) }
    {
        push_spans(&mut self.spans, moment.time, row, &moment.sign)?;
        push_arrows(&mut self.arrows, &self.rows, &self.times, row, &moment.sign)?;
        push_marks(&mut self.marks, moment.time, row, &moment.sign)?;
        push_starts(&mut self.starts, row, moment)
    }

    fn see(&mut self, alloc: Global, moment: &Moment) -> Result<(), AllocError>
        ensures rows { OnOk result (self.new.rows ≡ rows_after self.old.rows moment.now) }
        ensures times { OnOk result (self.new.times ≡ times_after self.old.times moment.now) }
        ensures spans { OnOk result (self.new.spans.items ≡ self.old.spans.items
            ++ spans_by moment.now.time (row_for self.old.rows moment.now) moment.now.sign) }
        ensures arrows { OnOk result (self.new.arrows.items ≡ self.old.arrows.items
            ++ arrows_by self.old.rows self.old.times (row_for self.old.rows moment.now) moment.now.sign) }
        ensures marks { OnOk result (self.new.marks.items ≡ self.old.marks.items
            ++ marks_by moment.now.time (row_for self.old.rows moment.now) moment.now.sign) }
        ensures starts { OnOk result (self.new.starts.items ≡ self.old.starts.items
            ++ starts_by (row_for self.old.rows moment.now) moment.now) }
    {
        let row = row_for(&self.rows, moment);
        self.draw(&row, moment)?;
        set_time(alloc, &mut self.times, moment)?;
        set_row(alloc, &mut self.rows, row, moment)
    }

    pub(crate) fn see_all(&mut self, alloc: Global, moments: &[Moment]) -> Result<(), AllocError>
        ensures rows { OnOk result (self.new.rows ≡ all_rows self.old.rows moments.now) }
        ensures spans { OnOk result (self.new.spans.items
            ≡ self.old.spans.items ++ spans_in self.old.rows moments.now) }
        ensures arrows { OnOk result (self.new.arrows.items
            ≡ self.old.arrows.items ++ arrows_in self.old.rows self.old.times moments.now) }
        ensures marks { OnOk result (self.new.marks.items
            ≡ self.old.marks.items ++ marks_in self.old.rows moments.now) }
        ensures starts { OnOk result (self.new.starts.items
            ≡ self.old.starts.items ++ starts_in self.old.rows moments.now) }
    {
        for moment in moments {
            self.see(alloc, moment)?;
        }
        Ok(())
    }
}
