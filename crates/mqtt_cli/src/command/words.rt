//! The words of a command line, as `clap` reads them (ours).

ghost use Rattle.std.specs.Prelude.{◌≡◌, ◌≢◌, None, Some, IfErr, IfNone, IfOk, IfSome, codes, false, map};
ghost use Rattle.clap.specs.Words.{app_of, found_of, kind_of, rows_of, rule_of, subcommand_rows_of};
ghost use Rattle.clap.specs.declared.builder.command.Command.TheViews.{out-Command as fields_of};
ghost use Rattle.mqtt_cli.specs.command.Line.{AskFor, AskToReplay, AskToServe, AskForVersion, AskForVersionAlone, IsCommitGiven, command_of, file_rule, flag_rule, option_rule, program_app, replay_app, serve_app, vectors_app, view_app};
ghost use Rattle.mqtt_cli.specs.command.Values.{value_in};
ghost use Rattle.mqtt_link.specs.declared.commit.Commit.{Commit};

use crate::command::limits::{capacity_in, choice_arg, limited, limits_in, with_capacity};
use crate::command::line::{Action, LineFault};
use crate::command::values::{address_read, commit_read, count_read};
use crate::command::version::VERSION;
use crate::command::wrong_values::{WrongValue, wrong_value};
use crate::viewer::Details;
use clap::error::ErrorKind;
use clap::{Arg, ArgAction, ArgMatches, Command};
use mqtt_link::Commit;
use std::alloc::{AllocError, Global};
use std::convert::AsStr;

/// What the words of a command line ask for, the first of which names the program. A call for help
/// is `Usage`, with the help as its text, and a call for the version is `Version`.
pub fn action<'a, S: AsStr>(alloc: Global, words: &'a [S]) -> Result<Action<'a>, LineFault>
    ensures ok { IfOk result (λ action. AskFor (command_of (map S.text words.entry.now))
        (Some action)) }
    ensures usage { IfErr result (λ fault. fault ≢ LineFault.Memory
        → AskFor (command_of (map S.text words.entry.now)) None) }
    ensures version { IfErr result (λ fault. fault ≡ LineFault.Version
        → AskForVersion (map S.text words.entry.now)) }
    ensures only { IfErr result (λ fault. fault ≢ LineFault.Memory → fault ≢ LineFault.Version
        → ¬ (AskForVersionAlone (map S.text words.entry.now))) }
{
    let program = program(alloc)?;
    match program.try_get_matches_from(words) {
        Ok(matches) => asked(alloc, matches),
        Err(error) => Err(line_fault(alloc, error)),
    }
}

/// What the matches of a command line ask for, which are needed no longer.
fn asked<'a>(alloc: Global, matches: ArgMatches<'a>) -> Result<Action<'a>, LineFault>
    ensures ok { IfOk result (λ action. AskFor (subcommand_rows_of matches.entry) (Some action)) }
    ensures usage { IfErr result (λ fault. fault ≢ LineFault.Memory
        → AskFor (subcommand_rows_of matches.entry) None) }
    ensures other { IfErr result (λ fault. fault ≢ LineFault.Version) }
{
    let asked = action_in(&matches);
    let wrong = match matches.subcommand() {
        Some((_, values)) => wrong_value(values),
        None => None,
    };
    drop(matches);
    match asked {
        Some(action) => Ok(action),
        None => Err(bad_value(alloc, wrong)),
    }
}

/// The fault of a command line with this value that is not of its form.
fn bad_value(alloc: Global, wrong: Option<WrongValue<'_>>) -> LineFault
    ensures { result ≢ LineFault.Version }
{
    let text = match wrong {
        Some(
            WrongValue {
                option,
                value,
                form,
            },
        ) => { format!(in alloc; "mqtt5: --{option} '{value}': it is {form}\n") }
        None => String::from_str(alloc, "mqtt5: a value is missing\n"),
    };
    match text {
        Ok(text) => LineFault::Usage(text),
        Err(_) => LineFault::Memory,
    }
}

/// What the matches of a command line ask for.
fn action_in<'a>(matches: &ArgMatches<'a>) -> Option<Action<'a>>
    ensures { AskFor (subcommand_rows_of matches.now) result }
{
    let (name, view) = matches.subcommand()?;
    if name == "vectors" {
        return Some(Action::Vectors);
    }
    if name == "serve" {
        return serve_in(view);
    }
    if name == "replay" {
        return replay_in(view);
    }
    if name != "view" {
        return None;
    }
    let file = view.get_str("file")?;
    let details = Details {
        payload: view.get_flag("payload"),
        properties: view.get_flag("properties"),
        json: view.get_flag("json"),
    };
    Some(Action::View { file, details })
}

/// What the matches of `serve` ask for: nothing, if a value isn't of its form.
fn serve_in<'a>(matches: &ArgMatches<'a>) -> Option<Action<'a>>
    ensures { AskToServe (rows_of (found_of matches.now)) result }
{
    let listen = matches.get_str("listen")?;
    let db = matches.get_str("db")?;
    let turns = matches.get_str("turns")?;
    let listen = address_read(listen)?;
    let turns = count_read(turns)?;
    let limits = capacity_in(matches)?;
    let commit = commit_in(matches)?;
    let log = matches.get_flag("log");
    Some(Action::Serve {
        listen,
        db,
        turns,
        limits,
        commit,
        log,
    })
}

/// When the steps of the broker are stored, by the matches of a command.
fn commit_in(matches: &ArgMatches<'_>) -> Option<Commit>
    ensures read { IfSome result (λ commit.
        IsCommitGiven (value_in (codes "commit") (Some (rows_of (found_of matches.now)))) commit) }
    ensures only { IfNone result ((commit : Commit)
        → ¬ (IsCommitGiven (value_in (codes "commit") (Some (rows_of (found_of matches.now)))) commit)) }
{
    match matches.get_str("commit") {
        Some(text) => commit_read(text),
        None => Some(Commit::Turn),
    }
}

/// What the matches of `replay` ask for: nothing, if a value isn't of its form.
fn replay_in<'a>(matches: &ArgMatches<'a>) -> Option<Action<'a>>
    ensures { AskToReplay (rows_of (found_of matches.now)) result }
{
    let file = matches.get_str("file")?;
    let limits = limits_in(matches)?;
    Some(Action::Replay { file, limits })
}

/// What stands at the end of the help.
const AFTER_HELP: &str =
    "Example: mqtt5 serve --listen 127.0.0.1:1883 --db broker.db --turns 4294967295
Exit status: 0 done, 1 a fault in the input, 2 a wrong command line or help, 3 a file, socket, store or memory that failed";

/// The program with its commands.
fn program<'a>(alloc: Global) -> Result<Command<'a>, AllocError>
    ensures { IfOk result (λ command. app_of command ≡ program_app) }
{
    let view = view_command(alloc)?;
    let replay = replay_command(alloc)?;
    let serve = serve_command(alloc)?;
    Command::new(alloc, "mqtt5")
        .version(VERSION)
        .before_help(VERSION)
        .about("An MQTT 5.0 broker, a viewer of its packets, and scripts that crash it")
        .after_help(AFTER_HELP)
        .subcommand_required(true)
        .subcommand(view)?
        .subcommand(replay)?
        .subcommand(vectors_command(alloc))?
        .subcommand(serve)
}

/// `view [--payload] [--properties] [--json] FILE`
fn view_command<'a>(alloc: Global) -> Result<Command<'a>, AllocError>
    ensures app { IfOk result (λ command. app_of command ≡ view_app) }
    ensures local { IfOk result (λ command. (fields_of command).has_globals ≡ false) }
{
    Command::new(alloc, "view")
        .about("Writes a line for each packet of FILE")
        .arg(flag_arg(
            alloc,
            "payload",
            "Show the first 16 payload bytes of each PUBLISH",
        ))?
        .arg(flag_arg(
            alloc,
            "properties",
            "Show each property; of a CONNECT its Will and its User Name too",
        ))?
        .arg(flag_arg(
            alloc,
            "json",
            "Write each line as a JSON object, which has all that --properties shows",
        ))?
        .arg(file_arg(alloc, "The bytes to view; - is standard input"))
}

/// `replay FILE`, with the options for limits.
fn replay_command<'a>(alloc: Global) -> Result<Command<'a>, AllocError>
    ensures app { IfOk result (λ command. app_of command ≡ replay_app) }
    ensures local { IfOk result (λ command. (fields_of command).has_globals ≡ false) }
{
    let command = Command::new(alloc, "replay")
        .about("Runs the events of FILE in a world of clients, lost lines and stops")
        .arg(file_arg(alloc, "The script; - is standard input"))?;
    limited(alloc, command)
}

/// `--NAME`, a flag.
fn flag_arg<'a>(alloc: Global, name: &'a str, help: &'a str) -> Arg<'a>
    ensures rule { rule_of result ≡ flag_rule name.entry.now }
    ensures local { result.global ≡ false }
{
    Arg::new(alloc, name)
        .long(name)
        .help(help)
        .action(ArgAction::SetTrue)
}

/// FILE
fn file_arg<'a>(alloc: Global, help: &'a str) -> Arg<'a>
    ensures rule { rule_of result ≡ file_rule }
    ensures local { result.global ≡ false }
{
    Arg::new(alloc, "file")
        .value_name("FILE")
        .help(help)
        .required(true)
}

/// `vectors`
fn vectors_command<'a>(alloc: Global) -> Command<'a>
    ensures app { app_of result ≡ vectors_app }
    ensures local { (fields_of result).has_globals ≡ false }
{
    Command::new(alloc, "vectors").about("Checks frames whose meaning is known")
}

/// `serve --listen ADDR --db FILE --turns N [--commit turn|step] [--log]`, with the options for limits and for connections.
fn serve_command<'a>(alloc: Global) -> Result<Command<'a>, AllocError>
    ensures app { IfOk result (λ command. app_of command ≡ serve_app) }
    ensures local { IfOk result (λ command. (fields_of command).has_globals ≡ false) }
{
    let command = Command::new(alloc, "serve")
        .about("Serves MQTT 5.0 clients over a database on disk")
        .arg(option_arg(
            alloc,
            "listen",
            "ADDR",
            "An IPv4 address and a port, as 127.0.0.1:1883",
        ))?
        .arg(option_arg(
            alloc,
            "db",
            "FILE",
            "The database, made where there is none",
        ))?
        .arg(option_arg(
            alloc,
            "turns",
            "N",
            "How many turns to run, from 1 to 4294967295",
        ))?
        .arg(choice_arg(
            alloc,
            "commit",
            "turn|step",
            "When steps are stored: those of a turn as one transaction, or each as one of its own [default: turn]",
        ))?
        .arg(flag_arg(
            alloc,
            "log",
            "Tell on standard error why the server ends early",
        ))?;
    with_capacity(alloc, command)
}

/// `--NAME VALUE`, which has to be there.
fn option_arg<'a>(alloc: Global, name: &'a str, value: &'a str, help: &'a str) -> Arg<'a>
    ensures rule { rule_of result ≡ option_rule name.entry.now }
    ensures local { result.global ≡ false }
{
    let arg = Arg::new(alloc, name).long(name).value_name(value);
    arg.help(help).required(true)
}

/// The fault of a command line, with the text that `clap` gives it.
fn line_fault(alloc: Global, error: clap::Error) -> LineFault
    ensures memory { kind_of error ≡ ErrorKind.OutOfMemory → result ≡ LineFault.Memory }
    ensures version { result ≡ LineFault.Version → kind_of error ≡ ErrorKind.DisplayVersion }
    ensures only { kind_of error ≡ ErrorKind.DisplayVersion → result ≡ LineFault.Version }
{
    match error.kind() {
        ErrorKind::OutOfMemory => return LineFault::Memory,
        ErrorKind::DisplayVersion => return LineFault::Version,
        _ => {}
    }
    match error.to_string(alloc) {
        Ok(text) => LineFault::Usage(text),
        Err(_) => LineFault::Memory,
    }
}
