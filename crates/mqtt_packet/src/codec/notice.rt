//! DISCONNECT and AUTH: a reason code and properties (3.14, 3.15).

ghost use Rattle.std.specs.Prelude.{◌≡◌, ◌<◌, ◌^◌, ◌++◌, IfOk, OnOk, OnErr, IsTrue, ◌↔◌, length};
ghost use Rattle.mqtt_packet.specs.parts.Blocks.{keeps_laws};
ghost use Rattle.mqtt_packet.specs.parts.Reading.{Gives};
ghost use Rattle.mqtt_packet.specs.parts.Writing.{KeepsFront};
ghost use Rattle.mqtt_packet.specs.codec.Notice.{disconnect_at, disconnect_body, auth_at, auth_body, notice_of, FitsNotice, lawful_auth};

use crate::codec::tail::{tail_len, tail_push, tail_read};
use crate::parts::{Fault, stands};
use mqtt_base::{Kind, Reason};
use mqtt_props::{Place, PropList, PropName, PropsRef, layout_read};
use std::alloc::{AllocError, Global};

/// A DISCONNECT or an AUTH (3.14, 3.15).
#[derive(Debug, Drop)]
pub struct Notice {
    /// The reason code: one of the packet's set (2.4).
    pub reason: Reason,
    /// The properties of its block, in their order (2.2.2).
    pub properties: PropList,
}

/// A DISCONNECT or an AUTH that stands in a frame.
#[derive(Debug, Drop)]
pub struct NoticeRef<'a> {
    /// The reason code: one of the packet's set (2.4).
    pub reason: Reason,
    /// The properties of its block, in their order (2.2.2).
    pub properties: PropsRef<'a>,
}

#[inline(always)]
#[tactic(auto, unfolding(crate::specs::codec::Notice::disconnect_at))]
pub(crate) fn disconnect_read(body: &[u8]) -> Result<NoticeRef<'_>, Fault>
    ensures { Gives notice_of result (disconnect_at body.now) }
{
    let (code, properties) = tail_read(Place::Disconnect, body)?;
    let reason = Reason(code);
    if !reason.allowed(Kind::Disconnect) {
        return Err(Fault::Malformed);
    }
    Ok(NoticeRef { reason, properties })
}

#[inline(always)]
#[tactic(auto, unfolding(crate::specs::codec::Notice::auth_at))]
pub(crate) fn auth_read(body: &[u8]) -> Result<NoticeRef<'_>, Fault>
    ensures { Gives notice_of result (auth_at body.now) }
{
    match body {
        [] => Ok(NoticeRef {
            reason: Reason(0),
            properties: PropsRef::empty(),
        }),
        [code, rest @ ..] => {
            let Ok((properties, taken)) = layout_read(rest, Place::Auth) else {
                return Err(Fault::Malformed);
            };
            let reason = Reason(*code);
            if taken != rest.len() || !reason.allowed(Kind::Auth) {
                return Err(Fault::Malformed);
            }
            Ok(NoticeRef { reason, properties })
        }
    }
}

impl NoticeRef<'_> {
    /// Whether the laws of DISCONNECT hold: those of its block.
    #[inline(always)]
    pub(crate) fn is_lawful_disconnect(&self) -> bool
        ensures { result ≡ keeps_laws Place.Disconnect self.now.properties }
    {
        self.properties.is_lawful(Place::Disconnect)
    }

    /// Whether the laws of AUTH hold.
    #[inline(always)]
    pub(crate) fn is_lawful_auth(&self) -> bool
        ensures { result ≡ lawful_auth (notice_of self.now) }
    {
        self.properties.is_lawful(Place::Auth)
            && (self.reason.0 == 0 && self.properties.is_empty()
                || self.properties.has(PropName::AuthenticationMethod))
    }

    /// Writes the shortest body of DISCONNECT at the end.
    #[inline(always)]
    #[tactic(auto, using(crate::proofs::parts_lemmas::Fronts::begins_same, crate::proofs::parts_lemmas::Fronts::begins_less))]
    pub(crate) fn push_disconnect(&self, out: &mut Vec<u8>) -> Result<(), AllocError>
        ensures ok { OnOk result (out.new.items ≡ out.old.items ++ disconnect_body (notice_of self.now)) }
        ensures front { OnErr result (KeepsFront out.old.items out.new.items) }
    {
        tail_push(out, self.reason.0, &self.properties)
    }

    /// Writes the shortest body of AUTH at the end.
    #[inline(always)]
    #[tactic(auto, using(std::proofs::lemmas::List::append_assoc, crate::proofs::parts_lemmas::Fronts::begins_same, crate::proofs::parts_lemmas::Fronts::begins_less))]
    pub(crate) fn push_auth(&self, out: &mut Vec<u8>) -> Result<(), AllocError>
        ensures ok { OnOk result (out.new.items ≡ out.old.items ++ auth_body (notice_of self.now)) }
        ensures front { OnErr result (KeepsFront out.old.items out.new.items) }
    {
        if self.reason.0 == 0 && self.properties.is_empty() {
            return Ok(());
        }
        out.push(self.reason.0)?;
        self.properties.push_block(out)
    }

    /// How many bytes the shortest body of DISCONNECT takes.
    #[inline(always)]
    pub(crate) fn disconnect_len(&self) -> usize
        ensures value { result ≡ length (disconnect_body (notice_of self.now)) }
        ensures bound { result < 2 ^ 31 }
    {
        tail_len(self.reason.0, &self.properties)
    }

    /// How many bytes the shortest body of AUTH takes.
    #[inline(always)]
    pub(crate) fn auth_len(&self) -> usize
        ensures value { result ≡ length (auth_body (notice_of self.now)) }
        ensures bound { result < 2 ^ 31 }
    {
        if self.reason.0 == 0 && self.properties.is_empty() {
            0
        } else {
            1 + self.properties.block_len()
        }
    }

    /// An owned copy.
    #[inline(never)]
    pub(crate) fn to_notice(&self, alloc: Global) -> Result<Notice, AllocError>
        ensures { IfOk result (λ n. n ≡ notice_of self.now) }
    {
        Ok(Notice {
            reason: self.reason,
            properties: self.properties.to_list(alloc)?,
        })
    }
}

impl Notice {
    /// The same, lent.
    #[inline(always)]
    pub(crate) fn lend(&self) -> NoticeRef<'_>
        ensures { notice_of result ≡ self.now }
    {
        NoticeRef {
            reason: self.reason,
            properties: self.properties.lend(),
        }
    }

    /// Whether its parts have a spelling.
    #[inline(always)]
    pub(crate) fn fits(&self, kind: Kind, place: Place) -> bool
        ensures { IsTrue result ↔ FitsNotice kind place self.now }
    {
        let lent = self.properties.lend();
        self.reason.allowed(kind) && stands(&lent, place)
    }
}
