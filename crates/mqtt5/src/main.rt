//! The program `mqtt5`: an MQTT 5.0 broker, a viewer of its packets, and scripts of what may become of them.
#![tactic(auto)]

use mqtt_cli::{exit_status, run};
use mqtt_replay::replay_at;
use mqtt_serve::{Cause, CauseLine, ServeFault, ServerLog, Unknown, serve};
use std::alloc::AllocError;
use std::io;
use std::io::Stderr;
use std::net::SocketAddr;
use std::process::ExitCode;

/// The journal on standard error, if a log is asked for.
fn journal_of(
    rt: &HostRuntime,
    log: bool,
    db: &str,
) -> Result<Option<ServerLog<Stderr>>, AllocError> {
    if log {
        Ok(Some(ServerLog::new(rt.alloc(), rt.stderr(), db)?))
    } else {
        Ok(None)
    }
}

/// Why the server ended early, as the exit status knows it. With a log the line that tells more is written before.
fn told(rt: &HostRuntime, log: bool, line: CauseLine<'_>) -> ServeFault {
    if log {
        let _ = eprint!(rt; "{line}");
    }
    line.cause.fault()
}

fn main(rt: HostRuntime) -> ExitCode {
    let outcome = run(
        &rt,
        &|listen, db, turns, limits, commit, log| {
            let listen = SocketAddr::V4(listen);
            let Ok(mut journal) = journal_of(&rt, log, db) else {
                let cause = Cause::Memory;
                return Err(told(&rt, log, CauseLine { listen, db, cause }));
            };
            let ended = serve(
                &rt,
                listen,
                db,
                turns,
                &mut io::writer(&rt),
                limits,
                commit,
                Unknown,
                &mut journal,
            );
            drop(journal);
            match ended {
                Ok(()) => Ok(()),
                Err(cause) => Err(told(&rt, log, CauseLine { listen, db, cause })),
            }
        },
        &|file, limits| replay_at(&rt, file, &mut io::writer(&rt), limits),
    );
    let _ = eprint!(rt; "{outcome}");
    ExitCode::from(exit_status(&outcome))
}
