//! The lines of the report.

ghost use Rattle.std.specs.Prelude.{◌≡◌, ◌+◌, ◌<◌, ◌^◌, ◌++◌, IfOk, OnOk, string_bytes};
ghost use Rattle.std.specs.List.{flat_map};
ghost use Rattle.nona_report.specs.Report.{answer_word, plain_word, stage_word, unit_text, stage_line, region_line, plain_line};

use nona_stages::{Plain, Region};
use nona_tree::Stage;
use std::alloc::{AllocError, Global};

/// The word for whether there is a version.
fn word_of_answer(there: bool) -> &'static str
    ensures { result.now ≡ answer_word there }
{
    if there { "yes" } else { "no" }
}

/// The word for why a loop is no region.
fn word_of_reason(why: Plain) -> &'static str
    ensures { result.now ≡ plain_word why }
{
    match why {
        Plain::Seq => "seq",
        Plain::Wild => "wild",
        Plain::Tied => "tied",
    }
}

/// The letter for whether one task alone may run a stage.
fn word_of_stage(sequential: bool) -> &'static str
    ensures { result.now ≡ stage_word sequential }
{
    if sequential { "S" } else { "P" }
}

/// Adds a unit behind a text.
fn add_unit(unit: u32, text: &mut String) -> Result<(), AllocError>
    ensures { OnOk result (string_bytes text.new ≡ string_bytes text.old ++ unit_text unit) }
{
    write!(text, " {unit}")
}

/// Units, each behind a blank.
fn text_of_units(alloc: Global, units: &[u32]) -> Result<String, AllocError>
    ensures { IfOk result (λ text. string_bytes text ≡ flat_map unit_text units.now) }
{
    let mut text = String::new(alloc);
    for unit in units {
        add_unit(*unit, &mut text)?;
    }
    Ok(text)
}

/// The line of the stage at a place of a pipeline, from 0. Stages are numbered from 1.
pub(crate) fn line_of_stage(
    alloc: Global,
    place: usize,
    stage: &Stage,
) -> Result<String, AllocError>
    requires few { place + 1 < 2 ^ 64 }
    ensures { IfOk result (λ text. string_bytes text ≡ stage_line (place + 1) stage.now) }
{
    let number = place + 1;
    let letter = word_of_stage(stage.sequential);
    let units = text_of_units(alloc, stage.units.as_slice())?;
    format!(in alloc; "stage {number} {letter}{units}\n")
}

/// The line of a region.
pub(crate) fn line_of_region(alloc: Global, region: &Region) -> Result<String, AllocError>
    ensures { IfOk result (λ text. string_bytes text ≡ region_line region.now) }
{
    let number = region.number;
    let at = region.at;
    let any = word_of_answer(region.plan.any);
    let pipe = word_of_answer(!region.plan.pipe.is_empty());
    format!(in alloc; "region {number} at {at} any {any} pipe {pipe}\n")
}

/// The line of a loop that is no region.
pub(crate) fn line_of_plain(alloc: Global, at: u32, why: Plain) -> Result<String, AllocError>
    ensures { IfOk result (λ text. string_bytes text ≡ plain_line at why) }
{
    let reason = word_of_reason(why);
    format!(in alloc; "plain at {at} {reason}\n")
}
