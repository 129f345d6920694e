//! How a line is read as an event (ours).

ghost use Rattle.std.specs.Prelude.{◌≡◌, ◌≢◌, IfOk, IfErr};
ghost use Rattle.mqtt_script.specs.Lines.{IsLineOf, IsNoLine, is_passed_over};
ghost use Rattle.mqtt_script.specs.Words.{words_of};
ghost use Rattle.mqtt_script.specs.Reading.{IsReadAs, aliases_in, alone, asked, asking_in, asking_named, clock_in, connect_in, draft_in, end_named, event_in, event_named, is_asking_word, late_in, one_name_in, options_in, publish_in, receiver_in, stranger_in, subscribe_in, texts, tick_in, to_broker_in, wish_in};

use crate::event::{Asking, Content, Draft, Event, Wish};
use crate::fault::ScriptFault;
use crate::words::{
    alias_maximum_read, bytes_read, flag_read, handling_read, identifier_read, name_read,
    number_read, payload_read, qos_read, window_read,
};
use mqtt_base::{SubscriptionOptions, Text};
use std::alloc::{AllocError, Global};

/// Whether a line says nothing: it is empty, or begins with `#`. Takes no memory.
pub fn is_passed_over(line: &[u8]) -> bool
    ensures { result ≡ is_passed_over line.now }
{
    matches!(line, [] | [b'#', ..])
}

/// Reads the event whose line this is, without its line feed: ASCII, its words with one space
/// between them.
///
/// - `publisher E`, `receiver E MAX`, `receiver E MAX ALIASES`, `connect E C`, `giveup E`;
/// - `publish E QOS RETAIN TOPIC HEX`, with `-` for no payload;
/// - `subscribe E QOS NL RAP RH ID FILTER`, with ID 0 for none;
/// - `tobroker E`, `tobroker E old`, `toend E`, `break E`, `pump E`, `drain E`;
/// - `tick`, `clock MS`, `restart`, `stranger S HEX`;
/// - `stopbefore EVENT` and `stopafter EVENT`, of `tobroker`, `break`, `pump`, `tick` or `stranger`.
///
/// Names, topics and filters are texts of one byte or more; numbers are decimal, without sign or
/// leading zeros; HEX has two digits of either case for each byte. It answers `NoEvent` (1) if
/// the line is that of no event.
pub fn event_of(alloc: Global, line: &[u8]) -> Result<Event, ScriptFault>
    ensures read { IfOk result (λ event. IsLineOf event line.now) }
    ensures refused { IfErr result (λ fault. fault ≢ ScriptFault.Memory → IsNoLine line.now) }
{
    let Ok(text) = str::from_utf8(line) else {
        return Err(ScriptFault::NoEvent);
    };
    let ascii = text.is_ascii();
    if ascii {
        text_read(alloc, text)
    } else {
        Err(ScriptFault::NoEvent)
    }
}

/// The words of a line.
fn words_in(alloc: Global, text: &str) -> Result<Vec<&str>, AllocError>
    ensures { IfOk result (λ words. texts words.items ≡ words_of text.now) }
{
    text.split(' ').collect(alloc)
}

fn text_read(alloc: Global, text: &str) -> Result<Event, ScriptFault>
    ensures { IsReadAs (event_in (words_of text.now)) result }
{
    let words = words_in(alloc, text)?;
    event_read(alloc, &words)
}

#[tactic(auto, unfolding(crate::specs::Reading::event_in))]
fn event_read(alloc: Global, words: &[&str]) -> Result<Event, ScriptFault>
    ensures { IsReadAs (event_in (texts words.now)) result }
{
    match words {
        [first, more @ ..] => event_named(alloc, first, more),
        [] => Err(ScriptFault::NoEvent),
    }
}

/// Whether the word asks something of the broker.
fn is_asking(first: &str) -> bool
    ensures { result ≡ is_asking_word first.now }
{
    matches!(first, "tobroker" | "break" | "pump" | "tick" | "stranger")
}

/// Reads the event of this first word from those behind it.
#[tactic(auto, unfolding(crate::specs::Reading::event_named))]
fn event_named(alloc: Global, first: &str, more: &[&str]) -> Result<Event, ScriptFault>
    ensures { IsReadAs (event_named first.now (texts more.now)) result }
{
    match first {
        "clock" => clock_read(more),
        "restart" => restart_read(more),
        "stopbefore" => Ok(Event::StopBefore(asking_read(alloc, more)?)),
        "stopafter" => Ok(Event::StopAfter(asking_read(alloc, more)?)),
        _ if is_asking(first) => Ok(asked(asking_named(alloc, first, more)?)),
        _ => end_named(alloc, first, more),
    }
}

/// Reads the event of an end of this first word from those behind it.
#[tactic(auto, unfolding(crate::specs::Reading::end_named))]
fn end_named(alloc: Global, first: &str, more: &[&str]) -> Result<Event, ScriptFault>
    ensures { IsReadAs (end_named first.now (texts more.now)) result }
{
    match first {
        "publisher" => Ok(Event::Publisher {
            client: one_name_read(alloc, more)?,
        }),
        "receiver" => receiver_read(alloc, more),
        "connect" => connect_read(alloc, more),
        "giveup" => Ok(Event::GiveUp {
            client: one_name_read(alloc, more)?,
        }),
        "publish" => publish_read(alloc, more),
        "subscribe" => subscribe_read(alloc, more),
        "toend" => Ok(Event::ToEnd {
            client: one_name_read(alloc, more)?,
        }),
        "drain" => Ok(Event::Drain {
            client: one_name_read(alloc, more)?,
        }),
        _ => Err(ScriptFault::NoEvent),
    }
}

#[tactic(auto, unfolding(crate::specs::Reading::asking_in))]
fn asking_read(alloc: Global, words: &[&str]) -> Result<Asking, ScriptFault>
    ensures { IsReadAs (asking_in (texts words.now)) result }
{
    match words {
        [first, more @ ..] => asking_named(alloc, first, more),
        [] => Err(ScriptFault::NoEvent),
    }
}

/// Reads what is asked for by this first word from those behind it.
#[tactic(auto, unfolding(crate::specs::Reading::asking_named))]
fn asking_named(alloc: Global, first: &str, more: &[&str]) -> Result<Asking, ScriptFault>
    ensures { IsReadAs (asking_named first.now (texts more.now)) result }
{
    match first {
        "tobroker" => to_broker_read(alloc, more),
        "break" => Ok(Asking::Break {
            client: one_name_read(alloc, more)?,
        }),
        "pump" => Ok(Asking::Pump {
            client: one_name_read(alloc, more)?,
        }),
        "tick" => tick_read(more),
        "stranger" => stranger_read(alloc, more),
        _ => Err(ScriptFault::NoEvent),
    }
}

/// What is asked for, as an event that is no stop.
fn asked(asking: Asking) -> Event
    ensures { result ≡ asked asking }
{
    match asking {
        Asking::ToBroker { client, old } => Event::ToBroker { client, old },
        Asking::Break { client } => Event::Break { client },
        Asking::Pump { client } => Event::Pump { client },
        Asking::Tick => Event::Tick,
        Asking::Stranger { name, bytes } => Event::Stranger { name, bytes },
    }
}

/// Reads a single name.
#[tactic(auto, unfolding(crate::specs::Reading::one_name_in))]
fn one_name_read(alloc: Global, words: &[&str]) -> Result<Text, ScriptFault>
    ensures { IsReadAs (one_name_in (texts words.now)) result }
{
    match words {
        [client] => name_read(alloc, client),
        _ => Err(ScriptFault::NoEvent),
    }
}

/// Reads a Topic Alias Maximum from its word (3.1.2.11.5); it is 0 if there is none.
#[tactic(auto, unfolding(crate::specs::Reading::aliases_in))]
fn aliases_read(words: &[&str]) -> Result<u16, ScriptFault>
    ensures { IsReadAs (aliases_in (texts words.now)) result }
{
    match words {
        [] => Ok(0),
        [word] => alias_maximum_read(word),
        _ => Err(ScriptFault::NoEvent),
    }
}

#[tactic(auto, unfolding(crate::specs::Reading::receiver_in))]
fn receiver_read(alloc: Global, words: &[&str]) -> Result<Event, ScriptFault>
    ensures { IsReadAs (receiver_in (texts words.now)) result }
{
    let [client, max, more @ ..] = words else {
        return Err(ScriptFault::NoEvent);
    };
    let window = window_read(max)?;
    let aliases = aliases_read(more)?;
    let client = name_read(alloc, client)?;
    Ok(Event::Receiver {
        client,
        window,
        aliases,
    })
}

#[tactic(auto, unfolding(crate::specs::Reading::connect_in))]
fn connect_read(alloc: Global, words: &[&str]) -> Result<Event, ScriptFault>
    ensures { IsReadAs (connect_in (texts words.now)) result }
{
    let [client, clean] = words else {
        return Err(ScriptFault::NoEvent);
    };
    let clean_start = flag_read(clean)?;
    let client = name_read(alloc, client)?;
    Ok(Event::Connect {
        client,
        clean_start,
    })
}

/// Reads a message from its words.
#[tactic(auto, unfolding(crate::specs::Reading::draft_in))]
fn draft_read(
    alloc: Global,
    qos: &str,
    retain: &str,
    topic: &str,
    payload: &str,
) -> Result<Draft, ScriptFault>
    ensures { IsReadAs (draft_in qos.now retain.now topic.now payload.now) result }
{
    let qos = qos_read(qos)?;
    let retain = flag_read(retain)?;
    let topic = name_read(alloc, topic)?;
    let payload = payload_read(alloc, payload)?;
    let content = Content {
        retain,
        topic,
        payload,
    };
    Ok(Draft { qos, content })
}

#[tactic(auto, unfolding(crate::specs::Reading::publish_in))]
fn publish_read(alloc: Global, words: &[&str]) -> Result<Event, ScriptFault>
    ensures { IsReadAs (publish_in (texts words.now)) result }
{
    let [client, qos, retain, topic, payload] = words else {
        return Err(ScriptFault::NoEvent);
    };
    let draft = draft_read(alloc, qos, retain, topic, payload)?;
    let client = name_read(alloc, client)?;
    Ok(Event::Publish { client, draft })
}

/// Reads the options of a subscription (3.8.3.1).
#[tactic(auto, unfolding(crate::specs::Reading::options_in))]
fn options_read(
    qos: &str,
    local: &str,
    published: &str,
    handling: &str,
) -> Result<SubscriptionOptions, ScriptFault>
    ensures { IsReadAs (options_in qos.now local.now published.now handling.now) result }
{
    Ok(SubscriptionOptions {
        qos: qos_read(qos)?,
        no_local: flag_read(local)?,
        retain_as_published: flag_read(published)?,
        retain_handling: handling_read(handling)?,
    })
}

/// Reads a subscription from the words of its options but for Retain Handling, and those behind
/// them.
#[tactic(auto, unfolding(crate::specs::Reading::wish_in))]
fn wish_read(
    alloc: Global,
    qos: &str,
    local: &str,
    published: &str,
    more: &[&str],
) -> Result<Wish, ScriptFault>
    ensures { IsReadAs (wish_in qos.now local.now published.now (texts more.now)) result }
{
    let [handling, identifier, filter] = more else {
        return Err(ScriptFault::NoEvent);
    };
    let options = options_read(qos, local, published, handling)?;
    let identifier = identifier_read(identifier)?;
    let filter = name_read(alloc, filter)?;
    Ok(Wish {
        filter,
        options,
        identifier,
    })
}

#[tactic(auto, unfolding(crate::specs::Reading::subscribe_in))]
fn subscribe_read(alloc: Global, words: &[&str]) -> Result<Event, ScriptFault>
    ensures { IsReadAs (subscribe_in (texts words.now)) result }
{
    let [client, qos, local, published, more @ ..] = words else {
        return Err(ScriptFault::NoEvent);
    };
    let wish = wish_read(alloc, qos, local, published, more)?;
    let client = name_read(alloc, client)?;
    Ok(Event::Subscribe { client, wish })
}

#[tactic(auto, unfolding(crate::specs::Reading::clock_in))]
fn clock_read(words: &[&str]) -> Result<Event, ScriptFault>
    ensures { IsReadAs (clock_in (texts words.now)) result }
{
    match words {
        [wait] => Ok(Event::Clock {
            wait: number_read(wait)?,
        }),
        _ => Err(ScriptFault::NoEvent),
    }
}

#[tactic(auto, unfolding(crate::specs::Reading::alone))]
fn restart_read(words: &[&str]) -> Result<Event, ScriptFault>
    ensures { IsReadAs (alone Event.Restart (texts words.now)) result }
{
    if words.is_empty() {
        Ok(Event::Restart)
    } else {
        Err(ScriptFault::NoEvent)
    }
}

/// Reads what is asked of the line that an end gave up, which a word has to say.
#[tactic(auto, unfolding(crate::specs::Reading::late_in))]
fn late_read(alloc: Global, client: &str, line: &str) -> Result<Asking, ScriptFault>
    ensures { IsReadAs (late_in client.now line.now) result }
{
    if line == "old" {
        Ok(Asking::ToBroker {
            client: name_read(alloc, client)?,
            old: true,
        })
    } else {
        Err(ScriptFault::NoEvent)
    }
}

#[tactic(auto, unfolding(crate::specs::Reading::to_broker_in))]
fn to_broker_read(alloc: Global, words: &[&str]) -> Result<Asking, ScriptFault>
    ensures { IsReadAs (to_broker_in (texts words.now)) result }
{
    match words {
        [client] => Ok(Asking::ToBroker {
            client: name_read(alloc, client)?,
            old: false,
        }),
        [client, line] => late_read(alloc, client, line),
        _ => Err(ScriptFault::NoEvent),
    }
}

#[tactic(auto, unfolding(crate::specs::Reading::stranger_in))]
fn stranger_read(alloc: Global, words: &[&str]) -> Result<Asking, ScriptFault>
    ensures { IsReadAs (stranger_in (texts words.now)) result }
{
    let [name, hex] = words else {
        return Err(ScriptFault::NoEvent);
    };
    let name = name_read(alloc, name)?;
    let bytes = bytes_read(alloc, hex)?;
    Ok(Asking::Stranger { name, bytes })
}

#[tactic(auto, unfolding(crate::specs::Reading::tick_in))]
fn tick_read(words: &[&str]) -> Result<Asking, ScriptFault>
    ensures { IsReadAs (tick_in (texts words.now)) result }
{
    if words.is_empty() {
        Ok(Asking::Tick)
    } else {
        Err(ScriptFault::NoEvent)
    }
}
