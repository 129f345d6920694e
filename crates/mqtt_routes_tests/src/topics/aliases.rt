//! Rows of topic aliases (MQTT 5.0, 3.3.2.3.4).
use mqtt_base::Text;
use mqtt_topic::{Aliases, TopicFault, TopicName};
use std::alloc::Global;
use std::process::Abort;
use std::test::Fail;

/// A call of `resolve`: topic and alias, and the text that answers it, or the fault.
type Call = (&'static str, Option<u16>, &'static str, Option<TopicFault>);

/// Calls one after another, with 10 as the greatest alias.
fn calls() -> &'static [Call] {
    &[
        ("a/b", Some(3), "a/b", None),
        ("", Some(3), "a/b", None),
        ("", Some(4), "", Some(TopicFault::AliasUnknown)),
        ("x", Some(11), "", Some(TopicFault::AliasRange)),
        ("a/+", Some(0), "", Some(TopicFault::AliasRange)),
        ("", None, "", Some(TopicFault::Empty)),
        ("a/+", Some(3), "", Some(TopicFault::WildcardInName)),
        ("", Some(3), "a/b", None),
        ("c", Some(3), "c", None),
        ("d", Some(10), "d", None),
        ("e", None, "e", None),
        ("", Some(3), "c", None),
        ("", Some(10), "d", None),
    ]
}

/// Whether an alias and a topic are answered so.
fn is_answered(aliases: &mut Aliases, call: &Call) -> bool {
    let (topic, alias, text, fault) = call;
    match aliases.resolve(topic, *alias) {
        Ok(name) => fault.is_none() && name.as_str() == *text,
        Err(other) => *fault == Some(other),
    }
}

#[test]
fn an_alias_stands_for_its_last_topic(rt: HostRuntime) {
    let mut aliases = Aliases::new(rt.alloc(), 10);
    for call in calls() {
        assert!(rt; is_answered(&mut aliases, call), "{}", call.0);
    }
    drop(aliases);
}

/// The text that an alias stands for; empty if it stands for none.
fn shown(aliases: &Aliases, alias: u16) -> &str {
    match aliases.look(alias) {
        Some(name) => name.as_str(),
        None => "",
    }
}

/// Sets alias 3 of a new table, and takes it back: what it stood for, and is shown by then and at last.
fn set_and_restore(rt: &impl Abort, alloc: Global) -> Result<(bool, bool, bool), Fail> {
    let topic = TopicName::parse(alloc, "new")?;
    let mut aliases = Aliases::new(alloc, 10);
    let made = aliases.make_room();
    assert!(rt; made.is_ok());
    let before = aliases.set(3, topic);
    let was_new = before.is_none();
    let is_set = shown(&aliases, 3) == "new";
    aliases.restore(3, before);
    let is_gone = shown(&aliases, 3).is_empty();
    drop(aliases);
    Ok((was_new, is_set, is_gone))
}

#[test]
fn what_was_set_is_taken_back(rt: HostRuntime) -> Result<(), Fail> {
    let (was_new, is_set, is_gone) = set_and_restore(&rt, rt.alloc())?;
    assert!(rt; was_new && is_set && is_gone);
    Ok(())
}

/// What a text with alias 3 would mean: a text, or a fault.
fn is_meant(
    rt: &impl Abort,
    alloc: Global,
    aliases: &Aliases,
    topic: &str,
    expected: &str,
) -> Result<bool, Fail> {
    assert!(rt; Text::may_hold(topic));
    let text = Text::new(alloc, topic)?;
    let name = aliases.would_resolve(&text, Some(3));
    drop(text);
    let name = name?;
    let is = name.as_str() == expected;
    drop(name);
    Ok(is)
}

/// A topic beside an alias, and an alias that stands for a topic.
fn ask_both(rt: &impl Abort, alloc: Global, aliases: &mut Aliases) -> Result<(), Fail> {
    assert!(rt; is_meant(rt, alloc, aliases, "x", "x")?);
    assert!(rt; shown(aliases, 3).is_empty());
    assert!(rt; is_answered(aliases, &("a/b", Some(3), "a/b", None)));
    assert!(rt; is_meant(rt, alloc, aliases, "", "a/b")?);
    Ok(())
}

#[test]
fn what_would_be_meant_sets_nothing(rt: HostRuntime) -> Result<(), Fail> {
    let mut aliases = Aliases::new(rt.alloc(), 10);
    let done = ask_both(&rt, rt.alloc(), &mut aliases);
    drop(aliases);
    done
}
