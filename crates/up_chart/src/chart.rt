//! The picture of a run: its rows, the states of each, its marks, and its starts.
ghost use Rattle.std.specs.Prelude.{◌≡◌, ◌++◌, [], OnOk, IfOk};
ghost use Rattle.std.specs.List.{flat_map};
ghost use Rattle.up_chart.specs.Arrows.{arrows_in};
ghost use Rattle.up_chart.specs.Charts.{chart_of, label_of, last_span, marks_in, spans_in, starts_in};
ghost use Rattle.up_chart.specs.Rows.{all_rows};

use crate::label::{Arrow, Label, Mark, Span, Start};
use crate::moment::Moment;
use crate::row::Row;
use crate::rows::Rows;
use crate::seen::{Seen, push_span};
use std::alloc::{AllocError, Global};
use up_text::{Items, Text};

/// The picture of a run.
#[derive(Drop)]
pub struct Chart {
    /// The duration of the run, in milliseconds.
    pub end: u64,
    /// The names of its rows, in order.
    pub labels: Items<Label>,
    pub spans: Items<Span>,
    pub arrows: Items<Arrow>,
    pub marks: Items<Mark>,
    pub starts: Items<Start>,
}

fn push_label(labels: &mut Vec<Label>, name: &str, row: Row) -> Result<(), AllocError>
    ensures { OnOk result (labels.new.items ≡ labels.old.items ++ label_of (name.now, row)) }
{
    let name = Text::from_str(*labels.allocator(), name)?;
    labels.push(Label {
        place: row.place,
        name,
    })?;
    Ok(())
}

fn push_labels(labels: &mut Vec<Label>, rows: &Rows) -> Result<(), AllocError>
    ensures { OnOk result (labels.new.items ≡ labels.old.items ++ flat_map label_of rows.now) }
{
    for i in 0..rows.len() {
        let (name, row) = rows.at(i);
        push_label(labels, name, row)?;
    }
    Ok(())
}

// Appends the states that last until the end.
fn push_last(spans: &mut Vec<Span>, end: u64, rows: &Rows) -> Result<(), AllocError>
    ensures { OnOk result (spans.new.items ≡ spans.old.items ++ flat_map (last_span end) rows.now) }
{
    for i in 0..rows.len() {
        let (_, row) = rows.at(i);
        push_span(spans, end, &row)?;
    }
    Ok(())
}

fn all_seen(alloc: Global, moments: &[Moment]) -> Result<Seen, AllocError>
    ensures rows { IfOk result (λ seen. seen.rows ≡ all_rows [] moments.now) }
    ensures spans { IfOk result (λ seen. seen.spans.items ≡ spans_in [] moments.now) }
    ensures arrows { IfOk result (λ seen. seen.arrows.items ≡ arrows_in [] [] moments.now) }
    ensures marks { IfOk result (λ seen. seen.marks.items ≡ marks_in [] moments.now) }
    ensures starts { IfOk result (λ seen. seen.starts.items ≡ starts_in [] moments.now) }
{
    let mut seen = Seen::new(alloc);
    seen.see_all(alloc, moments)?;
    Ok(seen)
}

/// The picture of a run of this duration in milliseconds, with these moments.
#[tactic(auto, unfolding(crate::specs::Charts::chart_of))]
pub fn chart_of(alloc: Global, end: u64, moments: &[Moment]) -> Result<Chart, AllocError>
    ensures { IfOk result (λ chart. chart ≡ chart_of end moments.now) }
{
    let Seen {
        rows,
        times,
        mut spans,
        arrows,
        marks,
        starts,
    } = all_seen(alloc, moments)?;
    drop(times);
    let mut labels = Vec::new(alloc);
    push_labels(&mut labels, &rows)?;
    push_last(&mut spans, end, &rows)?;
    drop(rows);
    Ok(Chart {
        end,
        labels: Items::new(labels),
        spans: Items::new(spans),
        arrows: Items::new(arrows),
        marks: Items::new(marks),
        starts: Items::new(starts),
    })
}
