//! Tells how long parts of the library take, each in a room of its own; for bench/codec/run, bench/framing/run, bench/routes/run and
//! bench/store/run. Words: the room, and what it takes; without any, the rooms whose standard output is compared.
#![tactic(auto)]

mod codec;
mod framing;
mod routes;
mod store;

use std::env;

/// The rooms that tell what they did on standard output, one after the other; `routes` tells times alone.
fn run_all(rt: &HostRuntime) -> anyhow::Result<()> {
    codec::run(rt, &[])?;
    framing::run(rt, &[])?;
    store::run(rt, &[])
}

/// The room that the first word names, with the words behind it.
fn run_room(rt: &HostRuntime, room: &str, words: &[String]) -> anyhow::Result<()> {
    match room {
        "codec" => codec::run(rt, words),
        "framing" => framing::run(rt, words),
        "routes" => routes::run(rt, words),
        "store" => store::run(rt, words),
        _ => anyhow::bail!("the rooms are codec, framing, routes and store"),
    }
}

/// Does what the words of the command line ask for, the program's name before them.
fn run(rt: &HostRuntime, words: &[String]) -> anyhow::Result<()> {
    match words {
        [_program, room, behind @ ..] => run_room(rt, room.as_str(), behind),
        _ => run_all(rt),
    }
}

fn main(rt: HostRuntime) -> anyhow::Result<()> {
    let words: Vec<String> = env::args(&rt)?.collect(rt.alloc())?;
    let ran = run(&rt, words.as_slice());
    drop(words);
    ran
}
