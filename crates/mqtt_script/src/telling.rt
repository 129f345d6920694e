//! What is printed of a run: a line for each event, and what the run came to (ours).

ghost use Rattle.std.specs.Prelude.{◌≡◌, ◌++◌, Some, OnOk};
ghost use Rattle.std.specs.List.{flat_map};
ghost use Rattle.std.specs.String.{string_bytes};
ghost use Rattle.mqtt_script.specs.Telling.{accepted_text, bad_text, broker_text, ended_text, ending_text, entered_text, next_number, number_text, numbers_text, out_text, publications_text, publisher_text, receiver_text, released_text, will_refused_text};

use mqtt_base::{Ending, Escaped};
use std::alloc::AllocError;
use std::fmt;

/// Adds the front of an event's line: its number, from 1, and its first word.
pub fn push_number(text: &mut String, number: u64, word: &str) -> Result<(), AllocError>
    ensures { OnOk result (string_bytes text.new
        ≡ string_bytes text.old ++ number_text number word.now) }
{
    write!(text, "{number} {word}")
}

/// Adds that a publication was accepted (3.3.4).
pub fn push_accepted(text: &mut String, publication: u64) -> Result<(), AllocError>
    ensures { OnOk result (string_bytes text.new
        ≡ string_bytes text.old ++ accepted_text publication) }
{
    write!(text, " accepted={publication}")
}

/// Adds that a copy entered the queue of this client's session (4.6).
pub fn push_entered(text: &mut String, publication: u64, client: &str) -> Result<(), AllocError>
    ensures { OnOk result (string_bytes text.new
        ≡ string_bytes text.old ++ entered_text publication client.now) }
{
    write!(text, " entered={publication}>{}", Escaped(client))
}

/// Adds that a PUBREL closed an open packet identifier (4.3.3).
pub fn push_released(text: &mut String, identifier: u16) -> Result<(), AllocError>
    ensures { OnOk result (string_bytes text.new
        ≡ string_bytes text.old ++ released_text identifier) }
{
    write!(text, " released={identifier}")
}

/// How a copy ended, in one word.
fn ending_word(ending: Ending) -> &'static str
    ensures { result.now ≡ ending_text ending }
{
    match ending {
        Ending::Taken => "Taken",
        Ending::Refused => "Refused",
        Ending::Expired => "Expired",
        Ending::TooLarge => "TooLarge",
        Ending::SessionEnded => "SessionEnded",
        Ending::Dropped => "Dropped",
    }
}

/// Adds that a copy left the queue of this client's session, and how (4.3, 4.4).
pub fn push_ended(
    text: &mut String,
    publication: u64,
    client: &str,
    ending: Ending,
) -> Result<(), AllocError>
    ensures { OnOk result (string_bytes text.new
        ≡ string_bytes text.old ++ ended_text publication client.now ending) }
{
    let word = ending_word(ending);
    write!(text, " ended={publication}>{}:{word}", Escaped(client))
}

/// Adds that this client's Will wasn't accepted (3.1.2.5).
pub fn push_will_refused(text: &mut String, client: &str) -> Result<(), AllocError>
    ensures { OnOk result (string_bytes text.new
        ≡ string_bytes text.old ++ will_refused_text client.now) }
{
    write!(text, " willrefused={}", Escaped(client))
}

/// Adds how many packets went out, if some did.
pub fn push_out(text: &mut String, count: u64) -> Result<(), AllocError>
    ensures { OnOk result (string_bytes text.new ≡ string_bytes text.old ++ out_text count) }
{
    if count == 0 {
        Ok(())
    } else {
        write!(text, " out={count}")
    }
}

/// Adds the line of an event that is none, or that can't be.
pub fn push_bad(text: &mut String, number: u64) -> Result<(), AllocError>
    ensures { OnOk result (string_bytes text.new ≡ string_bytes text.old ++ bad_text number) }
{
    writeln!(text, "{number} bad")
}

/// Adds the line of a publisher: how many messages it has, and how many handshakes are completed.
pub fn push_publisher(
    text: &mut String,
    client: &str,
    messages: u64,
    done: u64,
) -> Result<(), AllocError>
    ensures { OnOk result (string_bytes text.new
        ≡ string_bytes text.old ++ publisher_text client.now messages done) }
{
    writeln!(text, "{} sent={messages} done={done}", Escaped(client))
}

/// Numbers, a comma before each.
#[derive(Clone, Copy)]
struct NextNumbers<'a>(&'a [u64]);

impl fmt::Display for NextNumbers<'_> {
    ghost output = { λ t. Some (flat_map next_number t.0.now) };

    fn fmt<W: fmt::Write>(&self, f: &mut fmt::Formatter<W>) -> fmt::Result {
        for number in self.0 {
            write!(f, ",{number}")?;
        }
        Ok(())
    }
}

/// Adds numbers with commas between them, or `-` for none.
fn push_numbers(text: &mut String, numbers: &[u64]) -> Result<(), AllocError>
    ensures { OnOk result (string_bytes text.new
        ≡ string_bytes text.old ++ numbers_text numbers.now) }
{
    match numbers {
        [] => text.push('-'),
        [first, rest @ ..] => write!(text, "{first}{}", NextNumbers(rest)),
    }
}

/// Adds the line of a receiver: the publications of the QoS 2 copies that it was handed, in order,
/// and how many copies are in the queue of its session.
#[tactic(auto, using(std::proofs::lemmas::List::append_assoc))]
pub fn push_receiver(
    text: &mut String,
    client: &str,
    handed: &[u64],
    queue: u64,
) -> Result<(), AllocError>
    ensures { OnOk result (string_bytes text.new
        ≡ string_bytes text.old ++ receiver_text client.now handed.now queue) }
{
    write!(text, "{} handed=", Escaped(client))?;
    push_numbers(text, handed)?;
    writeln!(text, " queue={queue}")
}

#[tactic(auto, unfolding(crate::specs::Telling::publications_text))]
fn push_publications(text: &mut String, publications: u64) -> Result<(), AllocError>
    ensures { OnOk result (string_bytes text.new
        ≡ string_bytes text.old ++ publications_text publications) }
{
    write!(text, "broker publications={publications}")
}

/// Adds the line of the broker: how many publications it accepted, and how many sessions stand.
#[tactic(auto, using(std::proofs::lemmas::List::append_assoc))]
pub fn push_broker(text: &mut String, publications: u64, sessions: u64) -> Result<(), AllocError>
    ensures { OnOk result (string_bytes text.new
        ≡ string_bytes text.old ++ broker_text publications sessions) }
{
    push_publications(text, publications)?;
    writeln!(text, " sessions={sessions}")
}
