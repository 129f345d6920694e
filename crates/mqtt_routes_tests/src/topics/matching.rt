//! Which filter matches which name: rows from the text of the standard (MQTT 5.0, 4.7.1 to 4.7.3).
use mqtt_topic::{Filter, TopicFault, TopicName, matches};
use std::alloc::Global;
use std::test::Fail;

/// Filters and names, and whether they match, from the text of 4.7.1 to 4.7.3.
fn pairs() -> &'static [(&'static str, &'static str, bool)] {
    &[
        // 4.7.1.2, multi-level wildcard
        ("sport/tennis/player1/#", "sport/tennis/player1", true),
        (
            "sport/tennis/player1/#",
            "sport/tennis/player1/ranking",
            true,
        ),
        (
            "sport/tennis/player1/#",
            "sport/tennis/player1/score/wimbledon",
            true,
        ),
        ("sport/tennis/player1/#", "sport/tennis/player2", false),
        ("sport/#", "sport", true),
        ("sport/#", "sport/", true),
        ("sport/#", "sport/tennis", true),
        ("sport/#", "sports", false),
        ("sport/#", "port", false),
        ("sport/#", "/sport", false),
        ("#", "sport", true),
        ("#", "sport/tennis", true),
        ("#", "/", true),
        ("#", "/sport", true),
        ("sport/tennis/#", "sport/tennis/x/y/z", true),
        ("sport/tennis/#", "sport", false),
        ("/#", "/", true),
        ("/#", "/sport", true),
        ("/#", "sport", false),
        ("+/#", "sport", true),
        ("+/#", "sport/tennis", true),
        ("+/#", "/", true),
        // 4.7.1.3, single-level wildcard
        ("sport/tennis/+", "sport/tennis/player1", true),
        ("sport/tennis/+", "sport/tennis/player2", true),
        ("sport/tennis/+", "sport/tennis/player1/ranking", false),
        ("sport/tennis/+", "sport/tennis/", true),
        ("sport/+", "sport", false),
        ("sport/+", "sport/", true),
        ("+", "sport", true),
        ("+", "sport/tennis", false),
        ("+", "/finance", false),
        ("+/+", "/finance", true),
        ("/+", "/finance", true),
        ("+/+", "finance", false),
        ("+/tennis/#", "sport/tennis", true),
        ("+/tennis/#", "sport/tennis/player1", true),
        ("+/tennis/#", "sport/golf/tennis", false),
        ("sport/+/player1", "sport/tennis/player1", true),
        ("sport/+/player1", "sport//player1", true),
        ("sport/+/player1", "sport/player1", false),
        ("sport/+/player1", "sport/tennis/golf/player1", false),
        ("+/player1", "sport/player1", true),
        ("+/player1", "/player1", true),
        ("+/+/+", "//", true),
        ("+/+/+", "/", false),
        // 4.7.1.1, empty levels
        ("/finance", "/finance", true),
        ("/finance", "finance", false),
        ("finance", "/finance", false),
        ("finance/", "finance", false),
        ("finance", "finance/", false),
        ("//", "//", true),
        ("//", "/", false),
        ("a//b", "a/b", false),
        ("a/+/b", "a//b", true),
        // 4.7.2, names that begin with `$`
        ("#", "$SYS/x", false),
        ("$SYS/#", "$SYS/x", true),
        ("$SYS/#", "$SYS", true),
        ("+/monitor/Clients", "$SYS/monitor/Clients", false),
        ("$SYS/monitor/+", "$SYS/monitor/Clients", true),
        ("+/#", "$SYS/x", false),
        ("+", "$SYS", false),
        ("$SYS/+", "$SYS/x", true),
        ("a/+", "a/$SYS", true),
        ("a/#", "a/$SYS/x", true),
        // 4.7.3, case, spaces and length
        ("ACCOUNTS", "Accounts", false),
        ("Accounts payable", "Accounts payable", true),
        ("a", "ab", false),
        ("ab", "a", false),
        // levels of more bytes than characters
        ("+/é", "ü/é", true),
        ("日本/+", "日本/東京", true),
        // a name may begin with `$share/`
        ("$SYS/#", "$share/g/a", false),
    ]
}

/// Whether a filter matches a name, both read from texts.
fn is_matched(alloc: Global, filter: &str, name: &str) -> Result<bool, TopicFault> {
    let filter = Filter::parse(alloc, filter)?;
    let name = TopicName::parse(alloc, name)?;
    let is = matches(&filter, &name);
    drop(filter);
    drop(name);
    Ok(is)
}

#[test]
fn filters_match_as_the_standard_says(rt: HostRuntime) -> Result<(), Fail> {
    for (filter, name, expected) in pairs() {
        let is = is_matched(rt.alloc(), filter, name)?;
        assert!(rt; is == *expected, "{filter} and {name}");
    }
    Ok(())
}
