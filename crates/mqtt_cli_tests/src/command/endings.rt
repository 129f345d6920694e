//! How the program ends, its help and its version (ours).

use mqtt_cli::{
    BadLine, BadReason, LineFault, Outcome, Played, ReplayFault, ServeFault, Status, VERSION,
    VectorsFault, ViewFault, action, exit_status, perform,
};
use std::alloc::Global;
use std::test::Fail;

/// Whether a command line is a call for help, with these words in it.
fn is_help(alloc: Global, words: &[&str], told: &[&str]) -> Result<bool, Fail> {
    match action(alloc, words) {
        Err(LineFault::Usage(text)) => {
            let mut has_all = true;
            for word in told {
                has_all = has_all && text.as_str().contains(*word);
            }
            drop(text);
            Ok(has_all)
        }
        Err(LineFault::Memory) => Err(Fail::from("want of memory")),
        Ok(_) | Err(LineFault::Version) => Ok(false),
    }
}

#[test]
fn help_has_the_version_an_example_and_the_exit_statuses(rt: HostRuntime) -> Result<(), Fail> {
    let told = [
        VERSION,
        "Example: mqtt5 serve --listen 127.0.0.1:1883 --db broker.db",
        "Exit status: 0 done",
    ];
    assert!(rt; is_help(rt.alloc(), &["mqtt5", "--help"], &told)?);
    assert!(rt;
        is_help(
            rt.alloc(),
            &["mqtt5", "serve", "--help"],
            &["--commit <turn|step>", "--log", "--connections <N>"]
        )?
    );
    Ok(())
}

#[test]
fn the_version_is_written(rt: HostRuntime) -> Result<(), Fail> {
    for word in ["--version", "-V"] {
        let mut written: Vec<u8> = Vec::new(rt.alloc());
        let outcome = perform(
            &rt,
            &["mqtt5", word],
            &mut written,
            &|_, _, _, _, _, _| Err(ServeFault::Socket),
            &|_, _| Err(ReplayFault::Store),
        );
        let is_told = matches!(outcome, Outcome::Line(LineFault::Version));
        let is_line = written.as_slice() == "mqtt5 0.1.0\n".as_bytes();
        drop(written);
        assert!(rt; is_told && is_line, "{word}");
        assert!(rt; ends_with(rt.alloc(), outcome, 0, "")?, "{word}");
    }
    Ok(())
}

/// Whether the program ends so.
fn ends_with(alloc: Global, outcome: Outcome, status: u8, text: &str) -> Result<bool, Fail> {
    let found = exit_status(&outcome);
    let shown = format!(in alloc; "{outcome}");
    drop(outcome);
    let shown = shown?;
    let is_text = shown.as_str() == text;
    drop(shown);
    Ok(found == status && is_text)
}

#[test]
fn each_outcome_has_its_status_and_text(rt: HostRuntime) -> Result<(), Fail> {
    let usage = LineFault::Usage(String::from_str(rt.alloc(), "wrong\n")?);
    assert!(rt; ends_with(rt.alloc(), Outcome::Line(usage), 2, "wrong\n")?);
    for (outcome, status) in [
        (Outcome::Done(Status::Whole), 0),
        (Outcome::Done(Status::Faulty), 1),
        (Outcome::Line(LineFault::Version), 0),
        (Outcome::Replayed(Played::Whole), 0),
        (Outcome::Served, 0),
    ] {
        assert!(rt; ends_with(rt.alloc(), outcome, status, "")?);
    }
    for (outcome, text) in [
        (Outcome::NoFile, "mqtt5: file\n"),
        (Outcome::Unwritten, "mqtt5: file\n"),
        (Outcome::Line(LineFault::Memory), "mqtt5: memory\n"),
        (Outcome::View(ViewFault::Read), "mqtt5: file\n"),
        (Outcome::View(ViewFault::Write), "mqtt5: file\n"),
        (Outcome::View(ViewFault::Memory), "mqtt5: memory\n"),
        (Outcome::Vectors(VectorsFault::Write), "mqtt5: file\n"),
        (Outcome::Vectors(VectorsFault::Memory), "mqtt5: memory\n"),
        (Outcome::Replay(ReplayFault::Read), "mqtt5: file\n"),
        (Outcome::Replay(ReplayFault::Write), "mqtt5: file\n"),
        (Outcome::Replay(ReplayFault::Memory), "mqtt5: memory\n"),
        (Outcome::Replay(ReplayFault::Store), "mqtt5: store\n"),
        (Outcome::Serve(ServeFault::Write), "mqtt5: file\n"),
        (Outcome::Serve(ServeFault::Memory), "mqtt5: memory\n"),
        (Outcome::Serve(ServeFault::Store), "mqtt5: store\n"),
        (Outcome::Serve(ServeFault::Socket), "mqtt5: socket\n"),
    ] {
        assert!(rt; ends_with(rt.alloc(), outcome, 3, text)?);
    }
    Ok(())
}

#[test]
fn a_bad_line_is_told_with_its_number_and_reason(rt: HostRuntime) -> Result<(), Fail> {
    for (number, reason, text) in [
        (
            1,
            BadReason::CarriageReturn,
            "mqtt5: line 1: it ends with a carriage return; lines end with a line feed alone\n",
        ),
        (
            20,
            BadReason::SpaceTooMany,
            "mqtt5: line 20: a space too many; words have one space between them\n",
        ),
        (333, BadReason::NoEvent, "mqtt5: line 333: it is no event\n"),
        (
            u64::MAX,
            BadReason::CannotHappen,
            "mqtt5: line 18446744073709551615: this event can't happen here\n",
        ),
    ] {
        let bad = BadLine { number, reason };
        let outcome = Outcome::Replayed(Played::Bad(bad));
        assert!(rt; ends_with(rt.alloc(), outcome, 1, text)?);
    }
    Ok(())
}

#[test]
fn faults_have_their_numbers(rt: HostRuntime) {
    assert!(rt; ViewFault::Read as u8 == 1);
    assert!(rt; ViewFault::Write as u8 == 2);
    assert!(rt; ViewFault::Memory as u8 == 3);
    assert!(rt; VectorsFault::Write as u8 == 2);
    assert!(rt; VectorsFault::Memory as u8 == 3);
    assert!(rt; ReplayFault::Read as u8 == 1);
    assert!(rt; ReplayFault::Write as u8 == 2);
    assert!(rt; ReplayFault::Memory as u8 == 3);
    assert!(rt; ReplayFault::Store as u8 == 4);
    assert!(rt; ServeFault::Write as u8 == 2);
    assert!(rt; ServeFault::Memory as u8 == 3);
    assert!(rt; ServeFault::Store as u8 == 4);
    assert!(rt; ServeFault::Socket as u8 == 5);
}
