//! A client that calls the server as soon as it is told where it listens (MQTT 5.0, 4.2).
ghost use Rattle.mqtt_rules.specs.step.Laws.{AreWithin};

use mqtt_flow::Full;
use mqtt_serve::{Capacity, Cause, Commit, Quiet, Unknown, serve};
use std::io::{ErrorKind, Read, Write};
use std::net::{Ipv4Addr, SocketAddr, TcpStream};
use std::test::Fail;
use std::{fs, io, str};

/// The limits of the tables; a full queue refuses.
pub const LIMITS: Capacity = Capacity {
    full: Full::Refuse,
    queue: 1_000,
    sessions: 1_000,
    retained: 1_000,
    lines: 64,
};

/// Any port of this machine that is free.
pub fn any_port() -> SocketAddr {
    SocketAddr::from((Ipv4Addr::LOCALHOST, 0))
}

/// What the server writes goes to it: at its first line it connects and sends at once all that it has to say, and at its
/// last it reads what came.
#[derive(Drop)]
struct Caller<'a> {
    rt: &'a HostRuntime,
    sends: &'a [u8],
    told: Vec<u8>,
    stream: Option<TcpStream>,
    came: Vec<u8>,
}

/// Connects where the server listens, and sends.
fn call(rt: &HostRuntime, told: &[u8], sends: &[u8]) -> io::Result<TcpStream> {
    let text = told
        .strip_prefix(b"listening ")
        .and_then(|rest| rest.strip_suffix(b"\n"))
        .and_then(|address| str::from_utf8(address).ok());
    let Some(address) = text else {
        return Err(io::Error::from(ErrorKind::InvalidData));
    };
    let mut stream = TcpStream::connect(rt, address)?;
    stream.write_all(sends)?;
    Ok(stream)
}

impl Write for Caller<'_> {
    fn write(&mut self, buffer: &[u8]) -> io::Result<usize> {
        self.told.extend_from_slice(buffer)?;
        Ok(buffer.len())
    }

    fn flush(&mut self) -> io::Result<()> {
        match &mut self.stream {
            None => self.stream = Some(call(self.rt, &self.told, self.sends)?),
            Some(stream) => {
                stream.read_to_end(&mut self.came)?;
            }
        }
        Ok(())
    }
}

/// Whether a client that sends this to a server that runs so many turns over a database, under these limits, is sent that and
/// nothing else.
pub fn is_answered(
    rt: &HostRuntime,
    db: &str,
    turns: u32,
    limits: Capacity,
    sends: &[u8],
    answer: &[u8],
) -> Result<bool, Cause>
    requires { AreWithin limits }
{
    let mut caller = Caller {
        rt,
        sends,
        told: Vec::new(rt.alloc()),
        stream: None,
        came: Vec::new(rt.alloc()),
    };
    let ran = serve(
        rt,
        any_port(),
        db,
        turns,
        &mut caller,
        limits,
        Commit::Turn,
        Unknown,
        &mut Quiet,
    );
    let is_it = caller.came.as_slice() == answer && caller.told.ends_with(b"\ndone\n");
    drop(caller);
    match ran {
        Ok(()) => Ok(is_it),
        Err(cause) => Err(cause),
    }
}

/// A run of the server: what happens in it, what a client sends, and what it is sent.
pub type Run = (&'static str, &'static [u8], &'static [u8]);

/// The first run of twelve turns each, over one database and under these limits, in which a client is sent something else than it
/// should; none if there is no such run.
pub fn first_wrong(
    rt: &HostRuntime,
    db: &str,
    limits: Capacity,
    runs: &'static [Run],
) -> Result<&'static str, Fail>
    requires { AreWithin limits }
{
    for (what, sends, answer) in runs {
        if !is_answered(rt, db, 12, limits, sends, answer)? {
            return Ok(what);
        }
    }
    Ok("")
}

/// Removes a database and its log, if they are there.
pub fn forget(rt: &HostRuntime, db: &str, log: &str) {
    let _ = fs::remove_file(rt, db);
    let _ = fs::remove_file(rt, log);
}
