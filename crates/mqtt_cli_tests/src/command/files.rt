//! A file that a command line names (ours).

use mqtt_cli::{
    Capacity, Commit, Limits, Outcome, Played, ReplayFault, ServeFault, Status, perform,
};
use std::fs;
use std::net::SocketAddrV4;
use std::process::Abort;
use std::test::Fail;

/// The file, in the folder in which tests run.
const FILE: &str = "a.mqtt";

/// MQTT 5.0, 3.12 and 3.3: a PINGREQ, then "!" on the topic "a/b".
const BYTES: &[u8] = b"\xc0\x00\x30\x07\x00\x03a/b\x00!";

/// MQTT 5.0, 3.3.2.3.7: the same PUBLISH with a User Property.
const WITH_PROPERTY: &[u8] = b"\x30\x0e\x00\x03a/b\x07\x26\x00\x01k\x00\x01v!";

/// Stands for what serves, and is not called for a view.
fn not_served(
    _: SocketAddrV4,
    _: &str,
    _: u32,
    _: Capacity,
    _: Commit,
    _: bool,
) -> Result<(), ServeFault> {
    Err(ServeFault::Socket)
}

/// Stands for what replays, and is not called for a view.
fn not_replayed(_: &str, _: Limits) -> Result<Played, ReplayFault> {
    Err(ReplayFault::Store)
}

/// Whether a command line shows these lines, and ends as after whole packets.
fn shows(rt: &HostRuntime, words: &[&str], lines: &str) -> bool {
    let mut written: Vec<u8> = Vec::new(rt.alloc());
    let outcome = perform(rt, words, &mut written, &not_served, &not_replayed);
    let is_whole = matches!(outcome, Outcome::Done(Status::Whole));
    drop(outcome);
    let is_shown = written.as_slice() == lines.as_bytes();
    drop(written);
    is_whole && is_shown
}

/// Whether a command line finds no file, and writes nothing.
fn finds_nothing(rt: &HostRuntime, words: &[&str]) -> bool {
    let mut written: Vec<u8> = Vec::new(rt.alloc());
    let outcome = perform(rt, words, &mut written, &not_served, &not_replayed);
    let is_missed = matches!(outcome, Outcome::NoFile);
    drop(outcome);
    let is_silent = written.is_empty();
    drop(written);
    is_missed && is_silent
}

#[test]
fn a_file_is_viewed_as_the_words_of_a_command_line_ask(rt: HostRuntime) -> Result<(), Fail> {
    fs::write(&rt, FILE, BYTES).map_err(|_| "the file can't be written")?;
    let is_shown = shows(
        &rt,
        &["mqtt5", "view", FILE],
        "0 PINGREQ 2\n2 PUBLISH 9 qos=0 topic=a/b payload=1\n",
    );
    let has_head = shows(
        &rt,
        &["mqtt5", "view", "--payload", FILE],
        "0 PINGREQ 2\n2 PUBLISH 9 qos=0 topic=a/b payload=1 head=21\n",
    );
    fs::write(&rt, FILE, WITH_PROPERTY).map_err(|_| "the file can't be written")?;
    let has_property = shows(
        &rt,
        &["mqtt5", "view", "--properties", "--payload", FILE],
        "0 PUBLISH 16 qos=0 topic=a/b payload=1 props=1 user-property=k:v head=21\n",
    );
    let is_object = shows(
        &rt,
        &["mqtt5", "view", "--json", FILE],
        "{\"place\":0,\"type\":\"PUBLISH\",\"size\":16,\"qos\":0,\"id\":null,\"dup\":false,\"retain\":false,\"topic\":\"a/b\",\"payload\":1,\"properties\":[{\"name\":\"user-property\",\"value\":[\"k\",\"v\"]}]}\n",
    );
    fs::remove_file(&rt, FILE).map_err(|_| "the file can't be removed")?;
    assert!(rt; is_shown, "without payloads");
    assert!(rt; has_head, "with payloads");
    assert!(rt; has_property, "with properties and payloads");
    assert!(rt; is_object, "as an object");
    assert!(rt;
        finds_nothing(&rt, &["mqtt5", "view", FILE]),
        "a file that is gone"
    );
    Ok(())
}
