//! The options of `serve` and `replay` that say how large the broker's tables may be, and what a full queue does; and that of
//! `serve` alone that says how many connections there may be (ours).

ghost use Rattle.std.specs.Prelude.{◌≡◌, ℕ, IfNone, IfOk, IfSome, Some, codes, false};
ghost use Rattle.clap.specs.Words.{app_of, found_of, rows_of, rule_of};
ghost use Rattle.clap.specs.declared.builder.command.Command.TheViews.{out-Command as fields_of};
ghost use Rattle.mqtt_cli.specs.command.Limits.{AskForCapacity, AskForLimits, IsFullGiven, IsSizeGiven, choice_rule, with_capacity, with_limits};
ghost use Rattle.mqtt_cli.specs.command.Values.{value_in};
ghost use Rattle.mqtt_flow.specs.declared.outbound.entry.Full.{Full};

use crate::command::values::{full_read, size_read};
use clap::{Arg, ArgMatches, Command};
use mqtt_base::{LINE_LIMIT, LINES_UNASKED, QUEUE_LIMIT, RETAINED_LIMIT, SESSION_LIMIT};
use mqtt_flow::Full;
use mqtt_rules::{Capacity, Limits};
use std::alloc::{AllocError, Global};

/// A command with the options for limits, `[--full refuse|drop] [--queue N] [--sessions N] [--retained N]`.
pub(crate) fn limited<'a>(alloc: Global, command: Command<'a>) -> Result<Command<'a>, AllocError>
    requires local { (fields_of command).has_globals ≡ false }
    ensures app { IfOk result (λ with. app_of with ≡ with_limits (app_of command.entry)) }
    ensures local { IfOk result (λ with. (fields_of with).has_globals ≡ false) }
{
    command
        .arg(choice_arg(
            alloc,
            "full",
            "refuse|drop",
            "What becomes of a message for a full queue: it is refused, or the oldest that wait give way [default: refuse]",
        ))?
        .arg(choice_arg(
            alloc,
            "queue",
            "N",
            "The most messages in a session's queue, from 1 to 1000 [default: 1000]",
        ))?
        .arg(choice_arg(
            alloc,
            "sessions",
            "N",
            "The most sessions, from 1 to 1000 [default: 1000]",
        ))?
        .arg(choice_arg(
            alloc,
            "retained",
            "N",
            "The most retained messages, from 1 to 1000 [default: 1000]",
        ))
}

/// A command with these, and with the option for connections, `[--connections N]`.
pub(crate) fn with_capacity<'a>(
    alloc: Global,
    command: Command<'a>,
) -> Result<Command<'a>, AllocError>
    requires local { (fields_of command).has_globals ≡ false }
    ensures app { IfOk result (λ with. app_of with ≡ with_capacity (app_of command.entry)) }
    ensures local { IfOk result (λ with. (fields_of with).has_globals ≡ false) }
{
    limited(alloc, command)?.arg(choice_arg(
        alloc,
        "connections",
        "N",
        "The most connections at one time, from 1 to 1000 [default: 64]",
    ))
}

/// `--NAME VALUE`, which may be left out.
pub(crate) fn choice_arg<'a>(alloc: Global, name: &'a str, value: &'a str, help: &'a str) -> Arg<'a>
    ensures rule { rule_of result ≡ choice_rule name.entry.now }
    ensures local { result.global ≡ false }
{
    Arg::new(alloc, name)
        .long(name)
        .value_name(value)
        .help(help)
}

/// The limits that the matches of a command ask for: nothing, if a value isn't of its form.
pub(crate) fn limits_in(matches: &ArgMatches<'_>) -> Option<Limits>
    ensures { AskForLimits (Some (rows_of (found_of matches.now))) result }
{
    let full = full_in(matches)?;
    let most = QUEUE_LIMIT as u32;
    let queue = size_in(matches, "queue", most, most)?;
    let most = SESSION_LIMIT as u32;
    let sessions = size_in(matches, "sessions", most, most)?;
    let most = RETAINED_LIMIT as u32;
    let retained = size_in(matches, "retained", most, most)?;
    Some(Limits {
        full,
        queue,
        sessions,
        retained,
    })
}

/// The limits and the lines that the matches of a command ask for: nothing, if a value isn't of its form.
pub(crate) fn capacity_in(matches: &ArgMatches<'_>) -> Option<Capacity>
    ensures { AskForCapacity (Some (rows_of (found_of matches.now))) result }
{
    let limits = limits_in(matches)?;
    let lines = size_in(matches, "connections", LINES_UNASKED, LINE_LIMIT as u32)?;
    Some(limits.with_lines(lines))
}

/// What a full queue does, by the matches of a command.
fn full_in(matches: &ArgMatches<'_>) -> Option<Full>
    ensures read { IfSome result (λ full.
        IsFullGiven (value_in (codes "full") (Some (rows_of (found_of matches.now)))) full) }
    ensures only { IfNone result ((full : Full)
        → ¬ (IsFullGiven (value_in (codes "full") (Some (rows_of (found_of matches.now)))) full)) }
{
    match matches.get_str("full") {
        Some(text) => full_read(text),
        None => Some(Full::Refuse),
    }
}

/// The number from 1 to `most` that the matches of a command ask for by an option: `unasked`, if it is left out.
fn size_in(matches: &ArgMatches<'_>, name: &str, unasked: u32, most: u32) -> Option<u32>
    ensures read { IfSome result (λ size.
        IsSizeGiven unasked most (value_in name.now (Some (rows_of (found_of matches.now)))) size) }
    ensures only { IfNone result ((size : ℕ)
        → ¬ (IsSizeGiven unasked most (value_in name.now (Some (rows_of (found_of matches.now)))) size)) }
{
    match matches.get_str(name) {
        Some(text) => size_read(text, most),
        None => Some(unasked),
    }
}
