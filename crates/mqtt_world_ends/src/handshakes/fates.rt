//! What becomes of a message that a publisher has sent (MQTT 5.0, 4.3.2, 4.3.3).

ghost use Rattle.std.specs.Prelude.{◌≡◌};
ghost use Rattle.mqtt_base.specs.Codes.{is_success};
ghost use Rattle.mqtt_flow.specs.inbound.Publisher.{on_new_session, on_puback, on_pubcomp, on_pubrec};
ghost use Rattle.mqtt_world_ends.specs.handshakes.Fates.{by_last_packet, fate_for, fate_of, finish_of, has_completed, heard_by};
ghost use Rattle.mqtt_world_ends.specs.handshakes.Fates.{identifier_of};

/// How a handshake ended.
#[derive(Clone, Copy, Debug, PartialEq, Eq)]
pub enum Finish {
    /// By its last packet.
    Completed,
    /// By a code of 0x80 or more.
    Refused,
    /// With the session.
    Forgotten,
}

impl Finish {
    /// Whether it ended by its last packet. Takes no memory.
    fn is_completed(self) -> bool
        ensures { result ≡ by_last_packet (finish_of self) }
    {
        match self {
            Finish::Completed => true,
            Finish::Refused | Finish::Forgotten => false,
        }
    }
}

/// What became of a message that went out.
#[derive(Clone, Copy, Debug, PartialEq, Eq)]
pub enum Fate {
    /// One of QoS 1 was sent, and its PUBACK not read.
    SentOnce {
        /// The packet identifier.
        identifier: u16,
    },
    /// The handshake of one of QoS 1 has ended.
    EndedOnce {
        /// How.
        by: Finish,
    },
    /// One of QoS 2 was sent, and its PUBREC not read.
    Sent {
        /// The packet identifier.
        identifier: u16,
    },
    /// Its PUBREC was read, and its PUBCOMP not.
    Released {
        /// The packet identifier.
        identifier: u16,
    },
    /// The handshake of one of QoS 2 has ended.
    Ended {
        /// How.
        by: Finish,
    },
}

impl Fate {
    /// The packet identifier of a message whose handshake hasn't ended. Takes no memory.
    pub(crate) fn identifier(&self) -> Option<u16>
        ensures { result ≡ identifier_of (fate_of self.now) }
    {
        match self {
            Fate::SentOnce { identifier }
            | Fate::Sent { identifier }
            | Fate::Released { identifier } => Some(*identifier),
            Fate::EndedOnce { .. } | Fate::Ended { .. } => None,
        }
    }

    /// Whether its handshake ended by its last packet. Takes no memory.
    pub(crate) fn is_completed(&self) -> bool
        ensures { result ≡ has_completed self.now }
    {
        match self {
            Fate::EndedOnce { by } | Fate::Ended { by } => by.is_completed(),
            Fate::SentOnce { .. } | Fate::Sent { .. } | Fate::Released { .. } => false,
        }
    }
}

/// What a publisher hears of its messages.
#[derive(Clone, Copy, Debug, PartialEq, Eq)]
pub enum Heard {
    /// PUBACK (4.3.2).
    Puback {
        /// The packet identifier.
        identifier: u16,
        /// The reason code.
        code: u8,
    },
    /// PUBREC (4.3.3).
    Pubrec {
        /// The packet identifier.
        identifier: u16,
        /// The reason code.
        code: u8,
    },
    /// PUBCOMP, whatever its code (4.3.3).
    Pubcomp {
        /// The packet identifier.
        identifier: u16,
    },
    /// CONNACK without Session Present: the session is a new one (4.1).
    NewSession,
}

/// Whether a code tells success (2.4).
pub(crate) fn is_success(code: u8) -> bool
    ensures { result ≡ is_success code }
{
    code < 0x80
}

fn after_puback(fate: Fate, identifier: u16, code: u8) -> Fate
    ensures { result ≡ fate_for (on_puback identifier code (fate_of fate)) }
{
    match fate {
        Fate::SentOnce { identifier: other } => {
            if identifier != other {
                Fate::SentOnce { identifier: other }
            } else if is_success(code) {
                Fate::EndedOnce {
                    by: Finish::Completed,
                }
            } else {
                Fate::EndedOnce {
                    by: Finish::Refused,
                }
            }
        }
        Fate::EndedOnce { by } => Fate::EndedOnce { by },
        Fate::Sent { identifier } => Fate::Sent { identifier },
        Fate::Released { identifier } => Fate::Released { identifier },
        Fate::Ended { by } => Fate::Ended { by },
    }
}

fn after_pubrec(fate: Fate, identifier: u16, code: u8) -> Fate
    ensures { result ≡ fate_for (on_pubrec identifier code (fate_of fate)) }
{
    match fate {
        Fate::Sent { identifier: other } => {
            if identifier != other {
                Fate::Sent { identifier: other }
            } else if is_success(code) {
                Fate::Released { identifier: other }
            } else {
                Fate::Ended {
                    by: Finish::Refused,
                }
            }
        }
        Fate::SentOnce { identifier } => Fate::SentOnce { identifier },
        Fate::EndedOnce { by } => Fate::EndedOnce { by },
        Fate::Released { identifier } => Fate::Released { identifier },
        Fate::Ended { by } => Fate::Ended { by },
    }
}

fn after_pubcomp(fate: Fate, identifier: u16) -> Fate
    ensures { result ≡ fate_for (on_pubcomp identifier (fate_of fate)) }
{
    match fate {
        Fate::Released { identifier: other } => {
            if identifier != other {
                Fate::Released { identifier: other }
            } else {
                Fate::Ended {
                    by: Finish::Completed,
                }
            }
        }
        Fate::SentOnce { identifier } => Fate::SentOnce { identifier },
        Fate::EndedOnce { by } => Fate::EndedOnce { by },
        Fate::Sent { identifier } => Fate::Sent { identifier },
        Fate::Ended { by } => Fate::Ended { by },
    }
}

fn after_new_session(fate: Fate) -> Fate
    ensures { result ≡ fate_for (on_new_session (fate_of fate)) }
{
    match fate {
        Fate::SentOnce { .. } => Fate::EndedOnce {
            by: Finish::Forgotten,
        },
        Fate::EndedOnce { by } => Fate::EndedOnce { by },
        Fate::Sent { .. } | Fate::Released { .. } => Fate::Ended {
            by: Finish::Forgotten,
        },
        Fate::Ended { by } => Fate::Ended { by },
    }
}

/// What becomes of a message by what is heard.
pub(crate) fn after(fate: Fate, heard: Heard) -> Fate
    ensures { result ≡ heard_by heard fate }
{
    match heard {
        Heard::Puback { identifier, code } => after_puback(fate, identifier, code),
        Heard::Pubrec { identifier, code } => after_pubrec(fate, identifier, code),
        Heard::Pubcomp { identifier } => after_pubcomp(fate, identifier),
        Heard::NewSession => after_new_session(fate),
    }
}
