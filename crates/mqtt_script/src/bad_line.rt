//! Why a line of a script is bad (ours).

ghost use Rattle.std.specs.Prelude.{◌≡◌, Some};
ghost use Rattle.mqtt_script.specs.BadLines.{has_space_too_many, has_two_spaces, reason_text, why_no_event};

use std::fmt;

/// Why a line of a script is bad.
#[derive(Clone, Copy, Debug, PartialEq, Eq)]
pub enum BadReason {
    /// 1: it ends with a carriage return, as lines of a file with CR LF do.
    CarriageReturn = 1,
    /// 2: it has a space too many: at its start, at its end, or beside another.
    SpaceTooMany = 2,
    /// 3: it is the line of no event.
    NoEvent = 3,
    /// 4: its event can't happen there.
    CannotHappen = 4,
}

impl BadReason {
    /// Why it is bad, in plain words. Takes no memory.
    pub fn text(self) -> &'static str
        ensures { result.now ≡ reason_text self }
    {
        match self {
            BadReason::CarriageReturn =>
                "it ends with a carriage return; lines end with a line feed alone",
            BadReason::SpaceTooMany => "a space too many; words have one space between them",
            BadReason::NoEvent => "it is no event",
            BadReason::CannotHappen => "this event can't happen here",
        }
    }
}

impl fmt::Display for BadReason {
    ghost output = { λ reason. Some (reason_text reason) };

    fn fmt<W: fmt::Write>(&self, f: &mut fmt::Formatter<W>) -> fmt::Result {
        f.write_str(self.text())
    }
}

/// A line of a script that is bad.
#[derive(Clone, Copy, Debug, PartialEq, Eq)]
pub struct BadLine {
    /// Its number, from 1; lines that are passed over count too.
    pub number: u64,
    /// Why it is bad.
    pub reason: BadReason,
}

/// Whether two spaces stand side by side.
fn has_two_spaces(line: &[u8]) -> bool
    ensures { result ≡ has_two_spaces line.now }
{
    let mut rest = line;
    while let Some((byte, after)) = rest.split_first() {
        if *byte == b' ' && after.starts_with(b" ") {
            return true;
        }
        rest = after;
    }
    false
}

/// Whether a space stands at the start, at the end or beside another.
fn has_space_too_many(line: &[u8]) -> bool
    ensures { result ≡ has_space_too_many line.now }
{
    line.starts_with(b" ") || line.ends_with(b" ") || has_two_spaces(line)
}

/// Why a line that is no event's is none: it is told what most likely went wrong. Takes no memory.
pub fn why_no_event(line: &[u8]) -> BadReason
    ensures { result ≡ why_no_event line.now }
{
    if line.ends_with(b"\r") {
        BadReason::CarriageReturn
    } else if has_space_too_many(line) {
        BadReason::SpaceTooMany
    } else {
        BadReason::NoEvent
    }
}
