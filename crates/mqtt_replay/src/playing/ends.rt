//! The ends that a script made, and the lines that tell what they came to (ours).

ghost use Rattle.std.specs.Prelude.{◌≡◌, ◌++◌, IfOk, OnOk, option_to_list};
ghost use Rattle.std.specs.List.{flat_map};
ghost use Rattle.std.specs.String.{string_bytes};
ghost use Rattle.mqtt_replay.specs.playing.Playing.{end_line, made_by, receiver_line};

use crate::playing::runs::Runs;
use mqtt_base::Text;
use mqtt_script::{Event, push_publisher, push_receiver};
use std::alloc::{AllocError, Global};

/// An end that a script made, by its client identifier.
#[derive(Debug, Drop)]
pub enum End {
    /// A publisher.
    Publisher {
        /// Its client identifier.
        client: Text,
    },
    /// A receiver.
    Receiver {
        /// Its client identifier.
        client: Text,
    },
}

/// The end that an event makes, if it makes one.
fn end_of(event: &Event) -> Result<Option<End>, AllocError>
    ensures { IfOk result (λ end. end ≡ made_by event.now) }
{
    match event {
        Event::Publisher { client } => Ok(Some(End::Publisher {
            client: client.clone()?,
        })),
        Event::Receiver { client, .. } => Ok(Some(End::Receiver {
            client: client.clone()?,
        })),
        _ => Ok(None),
    }
}

/// Adds the end that an event makes, if it makes one.
pub fn push_made(ends: &mut Vec<End>, event: &Event) -> Result<(), AllocError>
    ensures { OnOk result (ends.new.items ≡ ends.old.items ++ option_to_list (made_by event.now)) }
{
    match end_of(event)? {
        Some(end) => Ok(ends.push(end)?),
        None => Ok(()),
    }
}

/// Adds the line of a receiver.
fn push_receiver_end<P: Runs>(
    alloc: Global,
    text: &mut String,
    world: &P,
    client: &str,
) -> Result<(), AllocError>
    ensures { OnOk result (string_bytes text.new
        ≡ string_bytes text.old ++ receiver_line P.play world.now client.now) }
{
    let handed = world.handed(alloc, client)?;
    let result = push_receiver(text, client, handed.as_slice(), world.queue(client));
    drop(handed);
    result
}

/// Adds the line of an end.
fn push_end<P: Runs>(
    alloc: Global,
    text: &mut String,
    world: &P,
    end: &End,
) -> Result<(), AllocError>
    ensures { OnOk result (string_bytes text.new
        ≡ string_bytes text.old ++ end_line P.play world.now end.now) }
{
    match end {
        End::Publisher { client } => {
            let client = client.as_str();
            push_publisher(text, client, world.sent(client), world.done(client))
        }
        End::Receiver { client } => push_receiver_end(alloc, text, world, client.as_str()),
    }
}

/// Adds the lines of ends, in order.
pub fn push_ends<P: Runs>(
    alloc: Global,
    text: &mut String,
    world: &P,
    ends: &[End],
) -> Result<(), AllocError>
    ensures { OnOk result (string_bytes text.new
        ≡ string_bytes text.old ++ flat_map (end_line P.play world.now) ends.now) }
{
    let mut rest = ends;
    while let Some((first, after)) = rest.split_first() {
        push_end(alloc, text, world, first)?;
        rest = after;
    }
    Ok(())
}
