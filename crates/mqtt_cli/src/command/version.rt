//! The program's version (ours).

ghost use Rattle.std.specs.Prelude.{OnOk};
ghost use Rattle.std.specs.Io.KnownBytes.{Appends};
ghost use Rattle.mqtt_cli.specs.command.Outcome.{version_line};

use std::io::{self, Write};

/// The program and its version.
pub const VERSION: &str = "mqtt5 0.1.0";

/// Writes the program and its version in a line.
pub(crate) fn write_version<W: Write>(writer: &mut W) -> io::Result<()>
    ensures { OnOk result (Appends (W.contents writer.old) (W.contents writer.new) version_line) }
{
    writer.write_all(VERSION.as_bytes())?;
    writer.write_all(b"\n")
}
