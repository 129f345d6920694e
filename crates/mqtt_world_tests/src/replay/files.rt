//! A script in a file (ours).

use crate::replay::playing::LIMITS;
use mqtt_replay::{BadLine, BadReason, Played, ReplayFault, replay_at};
use std::fs;
use std::test::Fail;

/// The file, in the folder in which tests run.
const FILE: &str = "a.script";

/// Whether the script in the file ends so, with this text.
fn is_told(rt: &HostRuntime, due: Result<Played, ReplayFault>, text: &str) -> bool {
    let mut written = Vec::new(rt.alloc());
    let played = replay_at(rt, FILE, &mut written, LIMITS);
    let is_text = written.as_slice() == text.as_bytes();
    drop(written);
    is_text && played == due
}

#[test]
fn a_script_in_a_file(rt: HostRuntime) -> Result<(), Fail> {
    fs::write(&rt, FILE, b"# p1\npublisher p1\n\ntick\npublisher p1\n").map_err(
        |_| "the file can't be written",
    )?;
    let bad = BadLine {
        number: 5,
        reason: BadReason::CannotHappen,
    };
    let is_played = is_told(&rt, Ok(Played::Bad(bad)), "1 publisher\n2 tick\n3 bad\n");
    fs::remove_file(&rt, FILE).map_err(|_| "the file can't be removed")?;
    assert!(rt; is_played);
    assert!(rt;
        is_told(&rt, Err(ReplayFault::Read), ""),
        "a file that is gone"
    );
    Ok(())
}
