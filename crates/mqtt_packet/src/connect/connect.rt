//! CONNECT: a client asks for a connection (3.1).

ghost use Rattle.std.specs.Prelude.{◌≡◌, ◌<◌, ◌^◌, ◌++◌, true, IfOk, OnOk, OnErr, IsTrue, ◌↔◌, length};
ghost use Rattle.std.specs.Option.{option_map};
ghost use Rattle.mqtt_base.specs.Values.{blob, FitsText};
ghost use Rattle.mqtt_base.specs.Reading.{Reads};
ghost use Rattle.mqtt_packet.specs.parts.Fields.{optional, FitsOptional};
ghost use Rattle.mqtt_packet.specs.parts.Reading.{Gives};
ghost use Rattle.mqtt_packet.specs.parts.Writing.{KeepsFront};
ghost use Rattle.mqtt_packet.specs.connect.Connect.{will_at, will_of, will_field, user_name_at, password_at, login_at, payload_at, fields_at, connect_at, connect_of, connect_body, connect_payload, connect_fields, FitsConnect, FitsWill, lawful_connect, lawful_will, flags_of_connect, will_flags_of, is_version_5, mqtt};

use crate::connect::connect_flags::{Flags, WillFlags, flags_read};
use crate::parts::{Fault, both, stands};
use mqtt_base::{Blob, Qos, Text, blob_push, blob_read, text_read, u8_read, u16_push, u16_read};
use mqtt_props::{Place, PropList, PropsRef, layout_read};
use std::alloc::{AllocError, Global};

/// A Will: what is published when a connection ends without DISCONNECT 00 (3.1.2.5).
#[derive(Debug, Drop)]
pub struct Will {
    /// At which it is published (3.1.2.6).
    pub qos: Qos,
    /// Whether it is published as retained (3.1.2.7).
    pub retain: bool,
    /// The properties of its block, in their order (2.2.2).
    pub properties: PropList,
    /// Where it is published (3.1.3.3).
    pub topic: Text,
    /// The message: at most 65,535 bytes (3.1.3.4).
    pub payload: Blob,
}

/// A Will that stands in a frame.
#[derive(Debug, Drop)]
pub struct WillRef<'a> {
    /// At which it is published (3.1.2.6).
    pub qos: Qos,
    /// Whether it is published as retained (3.1.2.7).
    pub retain: bool,
    /// The properties of its block, in their order (2.2.2).
    pub properties: PropsRef<'a>,
    /// Where it is published (3.1.3.3).
    pub topic: &'a str,
    /// The message: at most 65,535 bytes (3.1.3.4).
    pub payload: &'a [u8],
}

/// A CONNECT (3.1).
#[derive(Debug, Drop)]
pub struct Connect {
    /// Whether an earlier session is given up (3.1.2.4).
    pub clean_start: bool,
    /// Seconds; 0 turns it off (3.1.2.10).
    pub keep_alive: u16,
    /// The properties of its block, in their order (2.2.2).
    pub properties: PropList,
    /// The client's name; empty if the broker is to choose one (3.1.3.1).
    pub client_identifier: Text,
    /// The Will, if there is one (3.1.2.5).
    pub will: Option<Will>,
    /// The user name, if there is one (3.1.3.5).
    pub user_name: Option<Text>,
    /// At most 65,535 bytes (3.1.3.6).
    pub password: Option<Blob>,
}

/// A CONNECT that stands in a frame.
#[derive(Debug, Drop)]
pub struct ConnectRef<'a> {
    /// Whether an earlier session is given up (3.1.2.4).
    pub clean_start: bool,
    /// Seconds; 0 turns it off (3.1.2.10).
    pub keep_alive: u16,
    /// The properties of its block, in their order (2.2.2).
    pub properties: PropsRef<'a>,
    /// The client's name; empty if the broker is to choose one (3.1.3.1).
    pub client_identifier: &'a str,
    /// The Will, if there is one (3.1.2.5).
    pub will: Option<WillRef<'a>>,
    /// The user name, if there is one (3.1.3.5).
    pub user_name: Option<&'a str>,
    /// At most 65,535 bytes (3.1.3.6).
    pub password: Option<&'a [u8]>,
}

#[inline(always)]
#[tactic(auto, unfolding(crate::specs::connect::Connect::will_at))]
fn will_read(flags: Option<WillFlags>, bytes: &[u8]) -> Result<(Option<WillRef<'_>>, usize), Fault>
    ensures { Reads (option_map will_of) result bytes.now (will_at flags bytes.now) }
{
    let Some(flags) = flags else {
        return Ok((None, 0));
    };
    let Ok((properties, first)) = layout_read(bytes, Place::Will) else {
        return Err(Fault::Malformed);
    };
    let (_, rest) = bytes.split_at(first);
    let (topic, second) = text_read(rest)?;
    let (_, rest) = rest.split_at(second);
    let (payload, third) = blob_read(rest)?;
    let will = WillRef {
        qos: flags.qos,
        retain: flags.retain,
        properties,
        topic,
        payload,
    };
    Ok((Some(will), first + second + third))
}

#[inline(always)]
#[tactic(auto, unfolding(crate::specs::connect::Connect::user_name_at))]
fn user_name_read(flag: bool, bytes: &[u8]) -> Result<(Option<&str>, usize), Fault>
    ensures { Reads (option_map (λ t. t.now)) result bytes.now (user_name_at flag bytes.now) }
{
    if !flag {
        return Ok((None, 0));
    }
    let (name, taken) = text_read(bytes)?;
    Ok((Some(name), taken))
}

#[inline(always)]
#[tactic(auto, unfolding(crate::specs::connect::Connect::password_at))]
fn password_read(flag: bool, bytes: &[u8]) -> Result<(Option<&[u8]>, usize), Fault>
    ensures { Reads (option_map (λ p. p.now)) result bytes.now (password_at flag bytes.now) }
{
    if !flag {
        return Ok((None, 0));
    }
    let (password, taken) = blob_read(bytes)?;
    Ok((Some(password), taken))
}

/// The User Name and the Password, and nothing behind them.
#[inline(always)]
fn login_read(flags: Flags, bytes: &[u8]) -> Result<(Option<&str>, Option<&[u8]>), Fault>
    ensures { Gives (λ x. (option_map (λ t. t.now) x.0, option_map (λ p. p.now) x.1)) result (login_at flags bytes.now) }
{
    let (user_name, taken) = user_name_read(flags.user_name, bytes)?;
    let (_, rest) = bytes.split_at(taken);
    let (password, taken) = password_read(flags.password, rest)?;
    if taken != rest.len() {
        return Err(Fault::Malformed);
    }
    Ok((user_name, password))
}

/// What is lent of a payload: Client Identifier, Will, User Name, Password.
type PayloadRef<'a> = (
    &'a str,
    Option<WillRef<'a>>,
    Option<&'a str>,
    Option<&'a [u8]>,
);

#[inline(always)]
fn payload_read(flags: Flags, bytes: &[u8]) -> Result<PayloadRef<'_>, Fault>
    ensures { Gives (λ x. (x.0.now, option_map will_of x.1, option_map (λ t. t.now) x.2, option_map (λ p. p.now) x.3)) result (payload_at flags bytes.now) }
{
    let (client_identifier, taken) = text_read(bytes)?;
    let (_, rest) = bytes.split_at(taken);
    let (will, taken) = will_read(flags.will, rest)?;
    let (_, rest) = rest.split_at(taken);
    match login_read(flags, rest) {
        Ok((user_name, password)) => Ok((client_identifier, will, user_name, password)),
        Err(fault) => {
            drop(will);
            Err(fault)
        }
    }
}

#[inline(always)]
#[tactic(auto, unfolding(crate::specs::connect::Connect::fields_at))]
fn fields_read(flags: Flags, bytes: &[u8]) -> Result<ConnectRef<'_>, Fault>
    ensures { Gives connect_of result (fields_at flags bytes.now) }
{
    let (keep_alive, taken) = u16_read(bytes)?;
    let (_, rest) = bytes.split_at(taken);
    let Ok((properties, taken)) = layout_read(rest, Place::Connect) else {
        return Err(Fault::Malformed);
    };
    let (_, rest) = rest.split_at(taken);
    match payload_read(flags, rest) {
        Ok((client_identifier, will, user_name, password)) => Ok(ConnectRef {
            clean_start: flags.clean_start,
            keep_alive,
            properties,
            client_identifier,
            will,
            user_name,
            password,
        }),
        Err(fault) => {
            drop(properties);
            Err(fault)
        }
    }
}

/// Whether the protocol's name and the version are those of MQTT 5.0 (3.1.2.1, 3.1.2.2). Takes no
/// memory.
#[inline(always)]
pub fn is_version_5(protocol: &str, version: u8) -> bool
    ensures { result ≡ is_version_5 protocol.now version }
{
    protocol == "MQTT" && version == 5
}

/// Reads a body (3.1.2, 3.1.3); `Malformed` (1) is its only refusal. Takes no memory.
#[inline(always)]
#[tactic(auto, unfolding(crate::specs::connect::Connect::connect_at))]
pub fn connect_read(body: &[u8]) -> Result<ConnectRef<'_>, Fault>
    ensures { Gives connect_of result (connect_at body.now) }
{
    let (protocol, taken) = text_read(body)?;
    let (_, rest) = body.split_at(taken);
    let (version, taken) = u8_read(rest)?;
    let (_, rest) = rest.split_at(taken);
    if !is_version_5(protocol, version) {
        return Err(Fault::Malformed);
    }
    let (byte, taken) = u8_read(rest)?;
    let (_, rest) = rest.split_at(taken);
    let Some(flags) = flags_read(byte) else {
        return Err(Fault::Malformed);
    };
    fields_read(flags, rest)
}

impl WillRef<'_> {
    /// Writes the fields at the end.
    #[inline(always)]
    #[tactic(auto, using(std::proofs::lemmas::List::append_assoc, crate::proofs::parts_lemmas::Fronts::begins_same, crate::proofs::parts_lemmas::Fronts::begins_less))]
    fn push(&self, out: &mut Vec<u8>) -> Result<(), AllocError>
        requires { FitsWill (will_of self.now) }
        ensures ok { OnOk result (out.new.items ≡ out.old.items ++ will_field (will_of self.now)) }
        ensures front { OnErr result (KeepsFront out.old.items out.new.items) }
    {
        self.properties.push_block(out)?;
        blob_push(out, self.topic.as_bytes())?;
        blob_push(out, self.payload)
    }

    /// How many bytes the fields take.
    #[inline(always)]
    fn len(&self) -> usize
        requires { FitsWill (will_of self.now) }
        ensures value { result ≡ length (will_field (will_of self.now)) }
        ensures bound { result < 2 ^ 30 }
    {
        self.properties.block_len() + (2 + self.topic.len() + (2 + self.payload.len()))
    }

    /// An owned copy.
    #[inline(never)]
    fn to_will(&self, alloc: Global) -> Result<Will, AllocError>
        requires { FitsWill (will_of self.now) }
        ensures { IfOk result (λ w. w ≡ will_of self.now) }
    {
        let topic = Text::new(alloc, self.topic)?;
        let (topic, payload) = both(topic, Blob::new(alloc, self.payload))?;
        let properties = self.properties.to_list(alloc);
        let ((topic, payload), properties) = both((topic, payload), properties)?;
        Ok(Will {
            qos: self.qos,
            retain: self.retain,
            properties,
            topic,
            payload,
        })
    }
}

impl Will {
    /// The same, lent.
    #[inline(always)]
    fn lend(&self) -> WillRef<'_>
        ensures { will_of result ≡ self.now }
    {
        WillRef {
            qos: self.qos,
            retain: self.retain,
            properties: self.properties.lend(),
            topic: self.topic.as_str(),
            payload: self.payload.as_slice(),
        }
    }

    /// Whether its parts have a spelling.
    #[inline(always)]
    fn fits(&self) -> bool
        ensures { IsTrue result ↔ FitsWill self.now }
    {
        // These show that the topic and the payload have a spelling.
        let _ = self.topic.as_str();
        let _ = self.payload.as_slice();
        stands(&self.properties.lend(), Place::Will)
    }
}

/// Writes the Will's fields at the end, if there is one.
#[inline(always)]
#[tactic(auto, using(crate::proofs::parts_lemmas::Fronts::begins_same, crate::proofs::parts_lemmas::Fronts::begins_less))]
fn will_push(out: &mut Vec<u8>, will: &Option<WillRef<'_>>) -> Result<(), AllocError>
    requires { FitsOptional FitsWill (option_map will_of will.now) }
    ensures ok { OnOk result (out.new.items ≡ out.old.items ++ optional will_field (option_map will_of will.now)) }
    ensures front { OnErr result (KeepsFront out.old.items out.new.items) }
{
    match will {
        Some(will) => will.push(out),
        None => Ok(()),
    }
}

/// Writes a text or binary data at the end, if there is any.
#[inline(always)]
#[tactic(auto, using(crate::proofs::parts_lemmas::Fronts::begins_same, crate::proofs::parts_lemmas::Fronts::begins_less))]
fn blob_push_some(out: &mut Vec<u8>, bytes: Option<&[u8]>) -> Result<(), AllocError>
    requires { FitsOptional (λ b. length b < 2 ^ 16) (option_map (λ b. b.now) bytes) }
    ensures ok { OnOk result (out.new.items ≡ out.old.items ++ optional blob (option_map (λ b. b.now) bytes.entry)) }
    ensures front { OnErr result (KeepsFront out.old.items out.new.items) }
{
    match bytes {
        Some(bytes) => blob_push(out, bytes),
        None => Ok(()),
    }
}

#[inline(always)]
fn will_flags_of(will: &Option<WillRef<'_>>) -> Option<WillFlags>
    ensures { result ≡ option_map will_flags_of (option_map will_of will.now) }
{
    match will {
        Some(will) => Some(WillFlags {
            qos: will.qos,
            retain: will.retain,
        }),
        None => None,
    }
}

/// An owned copy of a text, if there is one.
#[inline(always)]
fn to_text(alloc: Global, text: Option<&str>) -> Result<Option<Text>, AllocError>
    requires { FitsOptional FitsText (option_map (λ t. t.now) text) }
    ensures { IfOk result (λ copy. copy ≡ option_map (λ t. t.now) text.entry) }
{
    match text {
        Some(text) => Text::new(alloc, text).map(Some),
        None => Ok(None),
    }
}

/// An owned copy of binary data, if there is any.
#[inline(always)]
fn to_blob(alloc: Global, bytes: Option<&[u8]>) -> Result<Option<Blob>, AllocError>
    requires { FitsOptional (λ b. length b < 2 ^ 16) (option_map (λ b. b.now) bytes) }
    ensures { IfOk result (λ copy. copy ≡ option_map (λ b. b.now) bytes.entry) }
{
    match bytes {
        Some(bytes) => Blob::new(alloc, bytes).map(Some),
        None => Ok(None),
    }
}

/// An owned copy of the Will, if there is one.
#[inline(always)]
fn to_will(alloc: Global, will: &Option<WillRef<'_>>) -> Result<Option<Will>, AllocError>
    requires { FitsOptional FitsWill (option_map will_of will.now) }
    ensures { IfOk result (λ copy. copy ≡ option_map will_of will.now) }
{
    match will {
        Some(will) => will.to_will(alloc).map(Some),
        None => Ok(None),
    }
}

impl ConnectRef<'_> {
    #[inline(always)]
    fn flags(&self) -> Flags
        ensures { result ≡ flags_of_connect (connect_of self.now) }
    {
        Flags {
            clean_start: self.clean_start,
            will: will_flags_of(&self.will),
            user_name: self.user_name.is_some(),
            password: self.password.is_some(),
        }
    }

    /// Whether its blocks keep their laws (2.2.2). Takes no memory.
    #[inline(always)]
    pub fn is_lawful(&self) -> bool
        ensures { result ≡ lawful_connect (connect_of self.now) }
    {
        self.properties.is_lawful(Place::Connect)
            && match &self.will {
                Some(will) => will.properties.is_lawful(Place::Will),
                None => true,
            }
    }

    /// Writes the body (3.1.2, 3.1.3) at the end; want of memory is its only refusal.
    #[inline(always)]
    #[tactic(auto, using(std::proofs::lemmas::List::append_assoc, crate::proofs::parts_lemmas::Fronts::begins_same, crate::proofs::parts_lemmas::Fronts::begins_less))]
    pub fn push(&self, out: &mut Vec<u8>) -> Result<(), AllocError>
        requires { FitsConnect (connect_of self.now) }
        ensures ok { OnOk result (out.new.items ≡ out.old.items ++ connect_body (connect_of self.now)) }
        ensures front { OnErr result (KeepsFront out.old.items out.new.items) }
    {
        blob_push(out, b"MQTT")?;
        out.push(5)?;
        out.push(self.flags().byte())?;
        self.push_fields(out)
    }

    /// Writes what follows the flags at the end.
    #[inline(always)]
    #[tactic(auto, using(std::proofs::lemmas::List::append_assoc, crate::proofs::parts_lemmas::Fronts::begins_same, crate::proofs::parts_lemmas::Fronts::begins_less))]
    fn push_fields(&self, out: &mut Vec<u8>) -> Result<(), AllocError>
        requires { FitsConnect (connect_of self.now) }
        ensures ok { OnOk result (out.new.items ≡ out.old.items ++ connect_fields (connect_of self.now)) }
        ensures front { OnErr result (KeepsFront out.old.items out.new.items) }
    {
        u16_push(out, self.keep_alive)?;
        self.properties.push_block(out)?;
        self.push_payload(out)
    }

    /// Writes the payload at the end.
    #[inline(always)]
    #[tactic(auto, using(std::proofs::lemmas::List::append_assoc, crate::proofs::parts_lemmas::Fronts::begins_same, crate::proofs::parts_lemmas::Fronts::begins_less))]
    fn push_payload(&self, out: &mut Vec<u8>) -> Result<(), AllocError>
        requires { FitsConnect (connect_of self.now) }
        ensures ok { OnOk result (out.new.items ≡ out.old.items ++ connect_payload (connect_of self.now)) }
        ensures front { OnErr result (KeepsFront out.old.items out.new.items) }
    {
        blob_push(out, self.client_identifier.as_bytes())?;
        will_push(out, &self.will)?;
        text_push_some(out, self.user_name)?;
        blob_push_some(out, self.password)
    }

    /// How many bytes the body takes. Takes no memory.
    #[inline(always)]
    pub fn len(&self) -> usize
        requires { FitsConnect (connect_of self.now) }
        ensures value { result ≡ length (connect_body (connect_of self.now)) }
        ensures bound { result < 2 ^ 31 }
    {
        let will = match &self.will {
            Some(will) => will.len(),
            None => 0,
        };
        let user_name = match self.user_name {
            Some(name) => 2 + name.len(),
            None => 0,
        };
        let password = match self.password {
            Some(password) => 2 + password.len(),
            None => 0,
        };
        10 + (self.properties.block_len()
            + (2 + self.client_identifier.len() + (will + (user_name + password))))
    }

    /// An owned copy; want of memory is its only refusal.
    #[inline(never)]
    pub fn to_connect(&self, alloc: Global) -> Result<Connect, AllocError>
        requires { FitsConnect (connect_of self.now) }
        ensures { IfOk result (λ c. c ≡ connect_of self.now) }
    {
        let client_identifier = Text::new(alloc, self.client_identifier)?;
        let names = both(client_identifier, to_text(alloc, self.user_name))?;
        let secrets = both(names, to_blob(alloc, self.password))?;
        let properties = both(secrets, self.properties.to_list(alloc))?;
        let all = both(properties, to_will(alloc, &self.will))?;
        let ((((client_identifier, user_name), password), properties), will) = all;
        Ok(Connect {
            clean_start: self.clean_start,
            keep_alive: self.keep_alive,
            properties,
            client_identifier,
            will,
            user_name,
            password,
        })
    }
}

impl Connect {
    /// The same, lent. Takes no memory.
    #[inline(always)]
    pub fn lend(&self) -> ConnectRef<'_>
        ensures { connect_of result ≡ self.now }
    {
        ConnectRef {
            clean_start: self.clean_start,
            keep_alive: self.keep_alive,
            properties: self.properties.lend(),
            client_identifier: self.client_identifier.as_str(),
            will: match &self.will {
                Some(will) => Some(will.lend()),
                None => None,
            },
            user_name: match &self.user_name {
                Some(name) => Some(name.as_str()),
                None => None,
            },
            password: match &self.password {
                Some(password) => Some(password.as_slice()),
                None => None,
            },
        }
    }

    /// Whether its parts have a spelling. Takes no memory.
    #[inline(always)]
    pub fn fits(&self) -> bool
        ensures { IsTrue result ↔ FitsConnect self.now }
    {
        // These show that the Keep Alive and the client identifier have a spelling.
        let _keep_alive = self.keep_alive;
        let _ = self.client_identifier.as_str();
        let lent = self.properties.lend();
        stands(&lent, Place::Connect)
            && will_fits(&self.will)
            && user_name_fits(&self.user_name)
            && password_fits(&self.password)
    }
}

#[inline(always)]
fn will_fits(will: &Option<Will>) -> bool
    ensures { IsTrue result ↔ FitsOptional FitsWill will.now }
{
    match will {
        Some(will) => will.fits(),
        None => true,
    }
}

#[inline(always)]
fn user_name_fits(name: &Option<Text>) -> bool
    ensures { IsTrue result ↔ FitsOptional FitsText name.now }
{
    match name {
        Some(name) => {
            // This shows that the name has a spelling.
            let _ = name.as_str();
            true
        }
        None => true,
    }
}

#[inline(always)]
fn password_fits(password: &Option<Blob>) -> bool
    ensures { IsTrue result ↔ FitsOptional (λ p. length p < 2 ^ 16) password.now }
{
    match password {
        Some(password) => {
            // This shows that the password has a spelling.
            let _ = password.as_slice();
            true
        }
        None => true,
    }
}

/// Writes a text at the end, if there is one.
#[inline(always)]
#[tactic(auto, using(crate::proofs::parts_lemmas::Fronts::begins_same, crate::proofs::parts_lemmas::Fronts::begins_less))]
fn text_push_some(out: &mut Vec<u8>, text: Option<&str>) -> Result<(), AllocError>
    requires { FitsOptional FitsText (option_map (λ t. t.now) text) }
    ensures ok { OnOk result (out.new.items ≡ out.old.items ++ optional blob (option_map (λ t. t.now) text.entry)) }
    ensures front { OnErr result (KeepsFront out.old.items out.new.items) }
{
    match text {
        Some(text) => blob_push(out, text.as_bytes()),
        None => Ok(()),
    }
}
