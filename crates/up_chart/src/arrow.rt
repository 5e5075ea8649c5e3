//! The arrows from the origin of an event that started an instance to the beginning of the instance's life.
ghost use Rattle.std.specs.Prelude.{◌≡◌, ◌++◌, OnOk, IfOk, None, map, option_map};
ghost use Rattle.std.specs.List.{flat_map};
ghost use Rattle.up_chart.specs.Arrows.{arrow, arrows_by, arrows_to, from_client, from_life, from_outside, is_known, is_life, is_only, last_life, place_of, words_of};

use crate::label::Arrow;
use crate::moment::{Sign, life_event, state_told};
use crate::row::{Came, Row};
use crate::rows::Rows;
use crate::times::Times;
use std::alloc::{AllocError, Global};
use up_text::Text;

// Whether no other event with the name occurred since the last life that events started.
fn is_only(events_came: Option<u64>, before: Option<u64>) -> bool
    ensures { result ≡ is_only events_came before }
{
    let Some(before) = before else {
        return true;
    };
    match events_came {
        Some(events_came) => before <= events_came,
        None => false,
    }
}

// Whether an event is known to have started a life that began at this time.
fn is_known(alone: bool, row: &Row, life_began: u64, came: Came) -> bool
    ensures { result ≡ is_known alone row.now life_began came }
{
    came.last <= life_began
        && (is_only(row.events_came, came.before) || (alone && came.last == life_began))
}

fn push_arrow(
    arrows: &mut Vec<Arrow>,
    from: Option<u64>,
    alone: bool,
    row: &Row,
    life_began: u64,
    came: Option<Came>,
) -> Result<(), AllocError>
    ensures { OnOk result (arrows.new.items ≡ arrows.old.items ++ arrow from alone row.now life_began came) }
{
    let Some(came) = came else {
        return Ok(());
    };
    if !is_known(alone, row, life_began, came) {
        return Ok(());
    }
    arrows.push(Arrow {
        from,
        came: came.last,
        place: row.place,
        life_began,
    })?;
    Ok(())
}

fn place_of(rows: &Rows, who: &str) -> Option<u64>
    ensures { result ≡ place_of rows.now who.now }
{
    match rows.get(who) {
        Some(row) => Some(row.place),
        None => None,
    }
}

fn is_life(event: &str) -> bool
    ensures { result ≡ is_life event.now }
{
    state_told(event).is_some()
}

// Splits the names of events, which are separated by spaces.
fn words_of<'a>(alloc: Global, events: &'a str) -> Result<Vec<&'a str>, AllocError>
    ensures { IfOk result (λ words. map (λ word. word.now) words.items ≡ words_of events.now) }
{
    events.split(' ').collect(alloc)
}

// The last of these events that belongs to an instance's life.
fn last_life<'a>(events: &[&'a str]) -> Option<&'a str>
    ensures { option_map (λ event. event.now) result ≡ last_life None (map (λ event. event.now) events.now) }
{
    let mut last = None;
    for event in events {
        if is_life(event) {
            last = Some(*event);
        }
    }
    last
}

// An event of an instance's life comes from the row of that instance.
fn push_from_life(
    arrows: &mut Vec<Arrow>,
    rows: &Rows,
    times: &Times,
    alone: bool,
    row: &Row,
    life_began: u64,
    event: Option<&str>,
    source: &Option<Text>,
) -> Result<(), AllocError>
    ensures { OnOk result (arrows.new.items ≡ arrows.old.items ++ from_life rows.now times.now alone row.now life_began
        (option_map (λ event. event.now) event.entry) source.now) }
{
    let Some(event) = event else {
        return Ok(());
    };
    let Some(who) = source else {
        return Ok(());
    };
    let who = who.as_str();
    let event = life_event(*arrows.allocator(), event, who)?;
    let came = times.get(event.as_str());
    drop(event);
    push_arrow(arrows, place_of(rows, who), alone, row, life_began, came)
}

// Any other comes from outside.
fn push_from_outside(
    arrows: &mut Vec<Arrow>,
    times: &Times,
    alone: bool,
    row: &Row,
    life_began: u64,
    event: &str,
) -> Result<(), AllocError>
    ensures { OnOk result (arrows.new.items
        ≡ arrows.old.items ++ from_outside times.now alone row.now life_began event.now) }
{
    if is_life(event) {
        return Ok(());
    }
    push_arrow(arrows, None, alone, row, life_began, times.get(event))
}

fn push_all_from_outside(
    arrows: &mut Vec<Arrow>,
    times: &Times,
    alone: bool,
    row: &Row,
    life_began: u64,
    events: &[&str],
) -> Result<(), AllocError>
    ensures { OnOk result (arrows.new.items ≡ arrows.old.items
        ++ flat_map (from_outside times.now alone row.now life_began) (map (λ event. event.now) events.now)) }
{
    for event in events {
        push_from_outside(arrows, times, alone, row, life_began, event)?;
    }
    Ok(())
}

// Appends the arrows to a life that these events started.
fn push_arrows_to(
    arrows: &mut Vec<Arrow>,
    rows: &Rows,
    times: &Times,
    row: &Row,
    events: &[&str],
    source: &Option<Text>,
) -> Result<(), AllocError>
    ensures { OnOk result (arrows.new.items ≡ arrows.old.items
        ++ arrows_to rows.now times.now row.now row.now.life_began (map (λ event. event.now) events.now) source.now) }
{
    let Some(life_began) = row.life_began else {
        return Ok(());
    };
    let alone = events.len() == 1;
    push_from_life(
        arrows,
        rows,
        times,
        alone,
        row,
        life_began,
        last_life(events),
        source,
    )?;
    push_all_from_outside(arrows, times, alone, row, life_began, events)
}

// A client starts a life immediately, from outside.
fn push_from_client(
    arrows: &mut Vec<Arrow>,
    place: u64,
    life_began: Option<u64>,
) -> Result<(), AllocError>
    ensures { OnOk result (arrows.new.items ≡ arrows.old.items ++ from_client place life_began) }
{
    let Some(life_began) = life_began else {
        return Ok(());
    };
    arrows.push(Arrow {
        from: None,
        came: life_began,
        place,
        life_began,
    })?;
    Ok(())
}

/// Appends the arrows to an instance, if a sign reports who started it.
pub(crate) fn push_arrows(
    arrows: &mut Vec<Arrow>,
    rows: &Rows,
    times: &Times,
    row: &Row,
    sign: &Sign,
) -> Result<(), AllocError>
    ensures { OnOk result (arrows.new.items ≡ arrows.old.items ++ arrows_by rows.now times.now row.now sign.now) }
{
    match sign {
        Sign::StartedBy { events, source } => {
            if row.told {
                return Ok(());
            }
            let words = words_of(*arrows.allocator(), events.as_str())?;
            push_arrows_to(arrows, rows, times, row, words.as_slice(), source)
        }
        Sign::Enters(_) => Ok(()),
        Sign::ByClient => {
            if row.asked {
                return Ok(());
            }
            push_from_client(arrows, row.place, row.life_began)
        }
        Sign::Fails => Ok(()),
        Sign::Signal(_) => Ok(()),
        Sign::Comes => Ok(()),
    }
}
