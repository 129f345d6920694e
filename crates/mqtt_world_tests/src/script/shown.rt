//! An event in other words than those of its line: its parts by name.

use mqtt_script::{Asking, Draft, Event, Wish};
use std::alloc::{AllocError, Global};

/// Adds a message.
fn push_draft(alloc: Global, text: &mut String, draft: &Draft) -> Result<(), AllocError> {
    let content = &draft.content;
    let payload = hex::encode(alloc, content.payload.as_slice())?;
    let topic = content.topic.as_str();
    let written = write!(
        text,
        "{:?} retain {} topic {topic} payload {payload}",
        draft.qos, content.retain
    );
    drop(payload);
    written
}

/// Adds a subscription.
fn push_wish(text: &mut String, wish: &Wish) -> Result<(), AllocError> {
    let filter = wish.filter.as_str();
    let options = wish.options;
    write!(
        text,
        "{filter} {:?} no local {} as published {} {:?}",
        options.qos, options.no_local, options.retain_as_published, options.retain_handling
    )?;
    match wish.identifier {
        Some(number) => write!(text, " number {number}"),
        None => Ok(()),
    }
}

/// Adds what is asked for.
fn push_asking(alloc: Global, text: &mut String, asking: &Asking) -> Result<(), AllocError> {
    match asking {
        Asking::ToBroker { client, old: false } => write!(text, "read of {}", client.as_str()),
        Asking::ToBroker { client, old: true } => write!(text, "late read of {}", client.as_str()),
        Asking::Break { client } => write!(text, "loss of {}", client.as_str()),
        Asking::Pump { client } => write!(text, "pump of {}", client.as_str()),
        Asking::Tick => text.push_str("a tick"),
        Asking::Stranger { name, bytes } => {
            let hex = hex::encode(alloc, bytes.as_slice())?;
            let written = write!(text, "{hex} from {}", name.as_str());
            drop(hex);
            written
        }
    }
}

/// Adds an event.
pub(crate) fn push_shown(
    alloc: Global,
    text: &mut String,
    event: &Event,
) -> Result<(), AllocError> {
    match event {
        Event::Publisher { client } => write!(text, "a publisher {}", client.as_str()),
        Event::Receiver {
            client,
            window,
            aliases,
        } => write!(
            text,
            "a receiver {} of {window} and {aliases}",
            client.as_str()
        ),
        Event::Connect {
            client,
            clean_start,
        } => write!(text, "{} connects, clean {clean_start}", client.as_str()),
        Event::GiveUp { client } => write!(text, "{} gives up", client.as_str()),
        Event::Publish { client, draft } => {
            write!(text, "{} publishes ", client.as_str())?;
            push_draft(alloc, text, draft)
        }
        Event::Subscribe { client, wish } => {
            write!(text, "{} subscribes ", client.as_str())?;
            push_wish(text, wish)
        }
        Event::ToBroker { client, old: false } => write!(text, "from {}", client.as_str()),
        Event::ToBroker { client, old: true } => write!(text, "late from {}", client.as_str()),
        Event::ToEnd { client } => write!(text, "to {}", client.as_str()),
        Event::Break { client } => write!(text, "{} is lost", client.as_str()),
        Event::Pump { client } => write!(text, "{} is pumped", client.as_str()),
        Event::Clock { wait } => write!(text, "{wait} pass"),
        Event::Tick => text.push_str("tick"),
        Event::Restart => text.push_str("restart"),
        Event::StopBefore(asking) => {
            text.push_str("stop before ")?;
            push_asking(alloc, text, asking)
        }
        Event::StopAfter(asking) => {
            text.push_str("stop after ")?;
            push_asking(alloc, text, asking)
        }
        Event::Stranger { name, bytes } => {
            let hex = hex::encode(alloc, bytes.as_slice())?;
            let written = write!(text, "{} says {hex}", name.as_str());
            drop(hex);
            written
        }
        Event::Drain { client } => write!(text, "{} is drained", client.as_str()),
    }
}
