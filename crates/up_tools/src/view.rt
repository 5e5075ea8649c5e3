//! The output for a folder's jobs and the inputs of a record.
ghost use Rattle.std.specs.Prelude.{◌≡◌, ◌≤◌, IfOk, length};
ghost use Rattle.up_print.specs.Folders.{prints};
ghost use Rattle.up_tools.specs.Views.{Views, ViewsBundle, ViewsInputs, run_chart, shown, viewed_run};

use crate::watch::watch;
use std::alloc::{AllocError, Global};
use up_chart::Chart;
use up_chart::blame::blame;
use up_chart::svg::svg;
use up_conf::Folder;
use up_disk::{BundleRun, compile_bundle, play_run, render_folder};
use up_image::Table;
use up_model::Input;
use up_print::Printed;
use up_print::check::faults_and_compile;
use up_script::ScriptInputs;
use up_text::{Env, Items};

/// How a run is shown.
#[derive(Clone, Copy, PartialEq, Eq)]
pub enum View {
    /// As a picture.
    Chart,
    /// By how long its starts took.
    Blame,
}

fn show(alloc: Global, view: View, chart: Chart) -> Result<Vec<u8>, AllocError>
    ensures { IfOk result (λ text. text.items ≡ shown view chart) }
{
    match view {
        View::Chart => {
            let text = svg(alloc, &chart);
            drop(chart);
            text
        }
        View::Blame => blame(alloc, chart),
    }
}

fn show_run(
    alloc: Global,
    view: View,
    table: Table,
    inputs: &[Input],
) -> Result<Items<u8>, AllocError>
    ensures { IfOk result (λ text. text ≡ shown view (run_chart table inputs.now)) }
{
    let chart = watch(alloc, table, inputs)?;
    let text = show(alloc, view, chart)?;
    Ok(Items::new(text))
}

// The output for a run of a folder's jobs.
fn view_inputs(
    alloc: Global,
    view: View,
    folder: &Folder,
    inputs: &[Input],
) -> Result<Printed, AllocError>
    ensures { IfOk result (ViewsInputs view folder.now inputs.now) }
{
    let (printed, table) = faults_and_compile(alloc, folder)?;
    let Some(table) = table else {
        return Ok(printed);
    };
    let status = printed.status;
    drop(printed);
    let text = show_run(alloc, view, table, inputs)?;
    Ok(Printed { text, status })
}

/// The output for a folder's jobs and a record with this name. At a bad step, and for a refused folder, it is that of a replay.
pub(crate) fn view_folder(
    alloc: Global,
    view: View,
    folder: &Folder,
    name: &str,
    read: Result<Items<Input>, u32>,
) -> Result<Printed, AllocError>
    ensures { IfOk result (Views view folder.now name.now read) }
{
    match read {
        Ok(inputs) => {
            let made = view_inputs(alloc, view, folder, inputs.as_slice());
            drop(inputs);
            made
        }
        Err(line) => {
            let read: Result<ScriptInputs, u32> = Err(line);
            render_folder(alloc, folder, Env::new(alloc), name, read)
        }
    }
}

// The output for a compiled bundle.
fn view_run(alloc: Global, view: View, run: BundleRun, name: &str) -> Result<Printed, AllocError>
    ensures { IfOk result (λ made. made ≡ viewed_run view name.now run) }
{
    let BundleRun {
        faults,
        table,
        read,
    } = run;
    match read {
        Ok(inputs) => view_steps(alloc, view, faults, table, inputs),
        Err(line) => {
            let run = BundleRun {
                faults,
                table,
                read: Err(line),
            };
            play_run(alloc, run, Env::new(alloc), name)
        }
    }
}

// The output for a run of the jobs of a bundle.
fn view_steps(
    alloc: Global,
    view: View,
    faults: Printed,
    table: Table,
    inputs: ScriptInputs,
) -> Result<Printed, AllocError>
    ensures { IfOk result (λ made. made ≡ prints (shown view (run_chart table inputs)) faults.status) }
{
    let status = faults.status;
    drop(faults);
    match inputs.expanded(alloc) {
        Ok(inputs) => {
            let shown = show_run(alloc, view, table, inputs.as_slice());
            drop(inputs);
            let text = shown?;
            Ok(Printed { text, status })
        }
        Err(refused) => {
            drop(table);
            Err(refused)
        }
    }
}

/// The output for the bytes of a record that is a bundle with this name. At a bad step, and if one of its folders is refused, it is
/// that of a replay.
pub(crate) fn view_bundle(
    alloc: Global,
    view: View,
    bytes: &[u8],
    name: &str,
) -> Result<Printed, AllocError>
    requires { length bytes.now ≤ 67108864 }
    ensures { IfOk result (ViewsBundle view name.now) }
{
    match compile_bundle(alloc, bytes)? {
        Ok(run) => view_run(alloc, view, run, name),
        Err(refusal) => Ok(refusal),
    }
}
