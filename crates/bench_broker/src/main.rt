//! Tells how long the store in SQL and the engine over a store take, each in a room of its own; for bench/sql, bench/engine and
//! bench/serve/run. Words: the room, and what it takes; without any, both.
#![tactic(auto)]

mod engine;
mod sql;

use std::env;

/// The room that the first word names, with the words behind it.
fn run_room(rt: &HostRuntime, room: &str, words: &[String]) -> anyhow::Result<()> {
    match room {
        "sql" => sql::run(rt, words),
        "engine" => engine::run(rt, words),
        _ => anyhow::bail!("the rooms are sql and engine"),
    }
}

/// Does what the words of the command line ask for, the program's name before them.
fn run(rt: &HostRuntime, words: &[String]) -> anyhow::Result<()> {
    match words {
        [_program, room, behind @ ..] => run_room(rt, room.as_str(), behind),
        _ => {
            sql::run(rt, &[])?;
            engine::run(rt, &[])
        }
    }
}

fn main(rt: HostRuntime) -> anyhow::Result<()> {
    let words: Vec<String> = env::args(&rt)?.collect(rt.alloc())?;
    let ran = run(&rt, words.as_slice());
    drop(words);
    ran
}
