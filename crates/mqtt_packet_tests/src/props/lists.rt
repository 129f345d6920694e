//! Blocks of properties read, written and looked at (2.2.2).

use crate::props::rows::PUBLISH;
use mqtt_props::{Place, PropFault, PropName, PropRef, PropsRef, ValueRef, look_at, read, write};
use std::alloc::Global;
use std::test::Fail;

#[test]
fn a_block_is_written_as_it_was_read(rt: HostRuntime) -> Result<(), Fail> {
    let (list, taken) = read(rt.alloc(), &PUBLISH, Place::Publish).expect(&rt, "it is read");
    let mut out = Vec::new(rt.alloc());
    let pushed = out.push(9);
    let written = write(&list, &mut out);
    drop(list);
    let is = match out.as_slice().split_first() {
        Some((first, block)) => *first == 9 && block == &PUBLISH[..15],
        None => false,
    };
    drop(out);
    pushed?;
    assert!(rt; is && written.is_ok());
    assert!(rt; taken == 15);
    Ok(())
}

#[test]
fn a_list_tells_what_it_has(rt: HostRuntime) {
    let (props, taken) = look_at(&PUBLISH, Place::Publish).expect(&rt, "it is read");
    assert!(rt; taken == 15);
    assert!(rt; (props.len(), props.block_len()) == (4, 15));
    assert!(rt; !props.is_empty());
    assert!(rt; props.may_stand_in(Place::Publish) && !props.may_stand_in(Place::Will));
    assert!(rt; props.is_lawful(Place::Publish));
    assert!(rt; props.has(PropName::TopicAlias) && !props.has(PropName::ContentType));
}

#[test]
fn a_list_gives_the_value_of_a_name(rt: HostRuntime) {
    let (props, _) = look_at(&PUBLISH, Place::Publish).expect(&rt, "it is read");
    let alias = PropRef {
        name: PropName::TopicAlias,
        value: ValueRef::U16(5),
    };
    assert!(rt; props.get(PropName::TopicAlias) == Some(alias));
    assert!(rt; props.get(PropName::ContentType) == None);
}

/// The names of up to five properties in their order.
fn names_of(props: PropsRef<'_>) -> [Option<PropName>; 5] {
    let mut names = [None; 5];
    let mut rest = props;
    for name in &mut names {
        if let Some((prop, after)) = rest.split_first() {
            *name = Some(prop.name);
            rest = after;
        }
    }
    names
}

#[test]
fn a_list_gives_its_properties_in_their_order(rt: HostRuntime) {
    let (props, _) = look_at(&PUBLISH, Place::Publish).expect(&rt, "it is read");
    let (first, _) = props.split_first().expect(&rt, "a property");
    assert!(rt; first.fits() && first.value.kind() == first.name.kind());
    let want = [
        Some(PropName::PayloadFormatIndicator),
        Some(PropName::TopicAlias),
        Some(PropName::UserProperty),
        Some(PropName::SubscriptionIdentifier),
        None,
    ];
    assert!(rt; names_of(props.reborrow()) == want);
}

#[test]
fn an_empty_list_has_nothing(rt: HostRuntime) {
    let none = PropsRef::empty();
    assert!(rt; none.is_empty() && none.split_first().is_none());
    assert!(rt; (none.len(), none.block_len()) == (0, 1));
}

/// Whether a fault has this text.
fn is_shown(alloc: Global, fault: PropFault, text: &str) -> Result<bool, Fail> {
    let shown = format!(in alloc; "{fault}")?;
    let is = shown.as_str() == text;
    drop(shown);
    Ok(is)
}

#[test]
fn a_fault_has_its_number_and_its_text(rt: HostRuntime) -> Result<(), Fail> {
    let rows = [
        (
            PropFault::Malformed,
            1,
            "the block of properties has no layout",
        ),
        (PropFault::Twice, 2, "a property stands twice"),
        (
            PropFault::BadValue,
            3,
            "the value of a property is not allowed",
        ),
        (PropFault::Memory, 4, "want of memory"),
    ];
    for (fault, number, text) in rows {
        assert!(rt; fault as u8 == number, "{fault:?}");
        assert!(rt; is_shown(rt.alloc(), fault, text)?);
    }
    Ok(())
}
