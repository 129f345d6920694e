//! The line that tells a cause (ours).
ghost use Rattle.std.specs.Prelude.{Some};
ghost use Rattle.mqtt_serve.specs.causes.Causes.{cause_line};

use crate::causes::cause::Cause;
use std::fmt;
use std::net::SocketAddr;

/// The line that tells why a server ended early: `mqtt5: `, what failed, `: ` and why, and a line feed. What failed is the path of
/// the database, the address, `standard output` or `memory`.
#[derive(Clone, Copy, Debug)]
pub struct CauseLine<'a> {
    /// Where it was to listen.
    pub listen: SocketAddr,
    /// The path of the database.
    pub db: &'a str,
    /// Why it ended.
    pub cause: Cause,
}

impl fmt::Display for CauseLine<'_> {
    ghost output = { λ line. Some (cause_line line.listen line.db.now line.cause) };

    fn fmt<W: fmt::Write>(&self, f: &mut fmt::Formatter<W>) -> fmt::Result {
        let text = self.cause.text();
        match self.cause {
            Cause::Write => writeln!(f, "mqtt5: standard output: {text}"),
            Cause::Memory => writeln!(f, "mqtt5: memory: {text}"),
            Cause::Store(_) => writeln!(f, "mqtt5: {}: {text}", self.db),
            Cause::Socket(_) => writeln!(f, "mqtt5: {}: {text}", self.listen),
        }
    }
}
