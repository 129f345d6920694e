//! The line of an event in the text of a run: its number, its first word, what it tells (ours).

ghost use Rattle.std.specs.Prelude.{◌≡◌, ◌++◌, OnOk};
ghost use Rattle.std.specs.List.{flat_map};
ghost use Rattle.std.specs.String.{string_bytes};
ghost use Rattle.mqtt_replay.specs.playing.Told.{report_text, told_text};

use mqtt_rules::Report;
use mqtt_script::{
    push_accepted, push_ended, push_entered, push_number, push_out, push_released,
    push_will_refused,
};
use std::alloc::AllocError;

/// Adds a report: of a copy its publication and its session's client, of an open identifier the
/// identifier, of a Will the client. Fails only for want of memory.
pub fn push_report(text: &mut String, report: &Report) -> Result<(), AllocError>
    ensures { OnOk result (string_bytes text.new
        ≡ string_bytes text.old ++ report_text report.now) }
{
    match report {
        Report::Accepted { publication } => push_accepted(text, *publication),
        Report::Entered { copy, client } => push_entered(text, copy.publication, client.as_str()),
        Report::Released { identifier, .. } => push_released(text, *identifier),
        Report::Ended {
            copy,
            client,
            ending,
        } => push_ended(text, copy.publication, client.as_str(), *ending),
        Report::WillRefused { client, .. } => push_will_refused(text, client.as_str()),
    }
}

/// Adds reports, in order.
fn push_reports(text: &mut String, reports: &[Report]) -> Result<(), AllocError>
    ensures { OnOk result (string_bytes text.new
        ≡ string_bytes text.old ++ flat_map report_text reports.now) }
{
    let mut rest = reports;
    while let Some((first, after)) = rest.split_first() {
        push_report(text, first)?;
        rest = after;
    }
    Ok(())
}

/// Adds the whole line of an event: its number, from 1, its first word, its reports in order, and how
/// many packets went out, if some did. Fails only for want of memory.
#[tactic(auto, using(std::proofs::lemmas::List::append_assoc))]
pub fn push_told(
    text: &mut String,
    number: u64,
    word: &str,
    reports: &[Report],
    out: u64,
) -> Result<(), AllocError>
    ensures { OnOk result (string_bytes text.new
        ≡ string_bytes text.old ++ told_text number word.now reports.now out) }
{
    push_number(text, number, word)?;
    push_reports(text, reports)?;
    push_out(text, out)?;
    text.push('\n')
}
