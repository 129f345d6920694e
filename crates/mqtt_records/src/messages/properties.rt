//! Properties as a publication passes them on, and as they are sent (3.3.2.3).
ghost use Rattle.std.specs.Prelude.{◌≡◌, ◌++◌, [], map, IfOk, IfErr, OnOk, MatchOption};
ghost use Rattle.mqtt_props.specs.Edits.{only, without, AddRefuses};
ghost use Rattle.mqtt_props.specs.Views.{prop_of, value_of};
ghost use Rattle.mqtt_props.specs.declared.table.PropName.TheVariants.{UserProperty};
ghost use Rattle.mqtt_records.specs.messages.PassedOn.{passed_on, goes_on, rises_from, IsPassedOn};
ghost use Rattle.mqtt_records.specs.messages.PassedOn.{number_in, aged, identified, sent_after};

use mqtt_props::{PropFault, PropList, PropName, PropRef, PropsRef, ValueRef};
use std::alloc::{AllocError, Global};
use std::marker::Model;

/// Properties as a publication passes them on to its copies: no Topic Alias, no Subscription
/// Identifier, in the order in which they are sent, User Properties last. Clones share the bytes.
#[derive(Debug, Drop)]
pub struct PassedOn {
    list: PropList,
}

impl Model for PassedOn {
    ghost use Rattle.std.specs.Prelude.{List};
    ghost use Rattle.mqtt_props.specs.Properties.{Prop};
    ghost use Rattle.mqtt_records.specs.messages.PassedOn.{IsPassedOn};

    ghost Value = { List Prop };

    ghost view = { λ a. a.list };

    ghost invariant = { λ a. IsPassedOn a.list };
}

/// Whether some publication's property of this identifier is passed on.
fn goes_on(id: u8) -> bool
    ensures { result ≡ goes_on id }
{
    id == PropName::PayloadFormatIndicator.id()
        || id == PropName::MessageExpiryInterval.id()
        || id == PropName::ContentType.id()
        || id == PropName::ResponseTopic.id()
        || id == PropName::CorrelationData.id()
        || id == PropName::UserProperty.id()
}

/// Whether each is such as is passed on, in their order.
fn rises(props: &PropsRef<'_>) -> bool
    ensures { result ≡ rises_from 0 props.now }
{
    let mut id = 0;
    let mut rest = props.reborrow();
    while let Some((prop, after)) = rest.split_first() {
        let next = prop.name.id();
        if next < id || !goes_on(next) {
            return false;
        }
        id = next;
        rest = after;
    }
    true
}

/// The number of a value, 0 if it has none (2.2.2.2). Takes no memory.
pub fn number_in(value: ValueRef<'_>) -> u32
    ensures { result ≡ number_in (value_of value.entry) }
{
    match value {
        ValueRef::Byte(n) => u32::from(n),
        ValueRef::U16(n) => u32::from(n),
        ValueRef::U32(n) | ValueRef::VarInt(n) => n,
        ValueRef::Text(_) | ValueRef::Binary(_) | ValueRef::Pair(..) => 0,
    }
}

/// A property as it is sent after so many seconds.
fn aged(prop: PropRef<'_>, waited: u64) -> PropRef<'_>
    ensures { prop_of result ≡ aged waited (prop_of prop.entry) }
{
    if prop.name.id() != PropName::MessageExpiryInterval.id() {
        return prop;
    }
    let left = u64::from(number_in(prop.value)).saturating_sub(waited);
    PropRef {
        name: PropName::MessageExpiryInterval,
        value: ValueRef::U32(left as u32),
    }
}

/// Adds the properties that stand before Subscription Identifiers, as they are sent.
fn push_aged(
    list: &mut PropList,
    alloc: Global,
    props: &PropsRef<'_>,
    waited: u64,
) -> Result<(), PropFault>
    ensures ok { OnOk result (list.new ≡ list.old ++ map (aged waited) (without UserProperty props.now)) }
    ensures refused { IfErr result (AddRefuses (list.old ++ map (aged waited) (without UserProperty props.now))) }
{
    let mut rest = props.reborrow();
    while let Some((prop, after)) = rest.split_first() {
        if prop.name.id() != PropName::UserProperty.id() {
            list.push(alloc, aged(prop, waited))?;
        }
        rest = after;
    }
    Ok(())
}

/// Adds Subscription Identifiers.
fn push_identifiers(
    list: &mut PropList,
    alloc: Global,
    identifiers: &[u32],
) -> Result<(), PropFault>
    ensures ok { OnOk result (list.new ≡ list.old ++ map identified identifiers.now) }
    ensures refused { IfErr result (AddRefuses (list.old ++ map identified identifiers.now)) }
{
    let mut rest = identifiers;
    while let Some((identifier, after)) = rest.split_first() {
        let prop = PropRef {
            name: PropName::SubscriptionIdentifier,
            value: ValueRef::VarInt(*identifier),
        };
        list.push(alloc, prop)?;
        rest = after;
    }
    Ok(())
}

/// Adds the properties of a name. They stand in a list that fits already, so what they are added to
/// fits too.
fn push_only(
    list: &mut PropList,
    alloc: Global,
    props: &PropsRef<'_>,
    name: PropName,
) -> Result<(), AllocError>
    ensures { OnOk result (list.new ≡ list.old ++ only name props.now) }
{
    let part = props.only(alloc, name)?;
    let added = list.append(alloc, &part.lend());
    drop(part);
    match added {
        Ok(()) => Ok(()),
        Err(_) => Err(AllocError),
    }
}

/// Adds what is passed on of these properties.
fn push_passed(list: &mut PropList, alloc: Global, props: &PropsRef<'_>) -> Result<(), AllocError>
    ensures { OnOk result (list.new ≡ list.old ++ passed_on props.now) }
{
    push_only(list, alloc, props, PropName::PayloadFormatIndicator)?;
    push_only(list, alloc, props, PropName::MessageExpiryInterval)?;
    push_only(list, alloc, props, PropName::ContentType)?;
    push_only(list, alloc, props, PropName::ResponseTopic)?;
    push_only(list, alloc, props, PropName::CorrelationData)?;
    push_only(list, alloc, props, PropName::UserProperty)
}

impl PassedOn {
    /// No properties. Takes no memory.
    pub fn new() -> PassedOn
        ensures { result ≡ [] }
    {
        PassedOn {
            list: PropList::new(),
        }
    }

    /// What a publication with these properties passes on (3.3.2.3).
    pub fn of(alloc: Global, props: &PropsRef<'_>) -> Result<PassedOn, AllocError>
        ensures { IfOk result (λ passed. passed ≡ passed_on props.now) }
    {
        let mut list = PropList::new();
        match push_passed(&mut list, alloc, props) {
            Ok(()) => Ok(PassedOn { list }),
            Err(fault) => {
                drop(list);
                Err(fault)
            }
        }
    }

    /// The list, if it is as a publication passes it on. Takes no memory.
    pub fn from_list(list: PropList) -> Option<PassedOn>
        ensures { MatchOption result (¬ IsPassedOn list) (λ passed. passed ≡ list) }
    {
        if rises(&list.lend()) {
            Some(PassedOn { list })
        } else {
            drop(list);
            None
        }
    }

    /// The list, lent. Takes no memory.
    pub fn lend(&self) -> PropsRef<'_>
        ensures value { result ≡ self.now }
        ensures good { IsPassedOn self.now }
    {
        self.list.lend()
    }

    /// The properties of a copy that has waited so many seconds, with its Subscription Identifiers
    /// before its User Properties (3.3.2.3). `Malformed` if they have no spelling as a block.
    pub fn sent(
        &self,
        alloc: Global,
        waited: u64,
        identifiers: &[u32],
    ) -> Result<PropList, PropFault>
        ensures exact { IfOk result (λ list. list ≡ sent_after waited identifiers.now self.now) }
        ensures refused { IfErr result (AddRefuses (sent_after waited identifiers.now self.now)) }
    {
        let mut list = PropList::new();
        match push_sent(&mut list, alloc, &self.list.lend(), waited, identifiers) {
            Ok(()) => Ok(list),
            Err(fault) => {
                drop(list);
                Err(fault)
            }
        }
    }
}

/// Adds the properties of a copy to none.
fn push_sent(
    list: &mut PropList,
    alloc: Global,
    props: &PropsRef<'_>,
    waited: u64,
    identifiers: &[u32],
) -> Result<(), PropFault>
    requires { list.old ≡ [] }
    ensures ok { OnOk result (list.new ≡ sent_after waited identifiers.now props.now) }
    ensures refused { IfErr result (AddRefuses (sent_after waited identifiers.now props.now)) }
{
    push_aged(list, alloc, props, waited)?;
    push_identifiers(list, alloc, identifiers)?;
    let last = props.only(alloc, PropName::UserProperty)?;
    let added = list.append(alloc, &last.lend());
    drop(last);
    added
}

impl Clone for PassedOn {
    ghost is_clone = { λ list copy. copy ≡ list };

    /// Another owner of the same bytes.
    fn clone(&self) -> Result<PassedOn, AllocError> {
        Ok(PassedOn {
            list: self.list.clone()?,
        })
    }
}
