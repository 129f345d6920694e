//! What a store has, as one text.

use crate::telling::Telling;
use mqtt_base::Phase;
use mqtt_records::{
    ContentRef, CopyContent, CopyRow, Records, RetainedMessage, Session, Subscription, Will,
};

fn tell_content(told: &mut Telling, content: &ContentRef<'_>) {
    told.word(content.topic.as_str());
    told.pair("@", content.arrived);
    told.word(" ");
    told.hex(content.payload.as_slice());
}

fn tell_will(told: &mut Telling, will: &Will) {
    told.pair(" will ", u64::from(will.delay));
    told.pair(" ", will.qos as u64);
    told.pair(" ", u64::from(will.retain));
    told.word(will.topic.as_str());
    told.word(" ");
    told.hex(will.payload.as_slice());
}

fn tell_subscription(told: &mut Telling, row: &Subscription) {
    told.pair(" sub ", row.place);
    told.word(row.filter.as_str());
    told.pair(" ", row.options.qos as u64);
    told.pair(" ", u64::from(row.identifier.unwrap_or(0)));
}

fn tell_phase(told: &mut Telling, phase: Phase) {
    match phase {
        Phase::Waiting => told.word(" waiting "),
        Phase::Sent { identifier } => told.pair(" sent ", u64::from(identifier)),
        Phase::Released { identifier, order } => {
            told.pair(" released ", u64::from(identifier));
            told.pair(" ", order);
        }
        Phase::Oversize { identifier, order } => {
            told.pair(" oversize ", u64::from(identifier));
            told.pair(" ", order);
        }
    }
}

fn tell_row(told: &mut Telling, row: &CopyRow) {
    told.pair(" copy ", row.place());
    tell_phase(told, row.phase());
    told.pair(" of ", row.id().publication);
    told.pair(" ", row.qos() as u64);
    told.pair(" ", u64::from(row.retain()));
    told.word(row.topic().as_str());
    told.pair("@", row.arrived());
    told.word(if row.whole().is_some() {
        " whole"
    } else {
        " slim"
    });
}

/// What a waiting copy says.
fn tell_told(told: &mut Telling, content: &CopyContent) {
    told.pair("\nsays ", content.place());
    for identifier in content.identifiers().as_slice() {
        told.pair(" ", u64::from(*identifier));
    }
    told.word(" ");
    told.word(content.topic().as_str());
    told.word(" ");
    told.hex(content.payload().as_slice());
}

/// What waiting copies say.
pub(crate) fn tell_contents(told: &mut Telling, contents: &[CopyContent]) {
    for content in contents {
        tell_told(told, content);
    }
}

fn tell_session(told: &mut Telling, session: &Session) {
    told.pair("\nsession ", session.birth);
    told.word(session.client.as_str());
    told.pair(" ", u64::from(session.expiry));
    told.pair(" ", session.closed.unwrap_or(u64::MAX));
    if let Some(will) = &session.will {
        tell_will(told, will);
    }
    for row in session.subscriptions.as_slice() {
        tell_subscription(told, row.get());
    }
    for identifier in session.inbound.as_slice() {
        told.pair(" open ", u64::from(*identifier));
    }
    for row in session.queue.as_slice() {
        tell_row(told, row.get());
    }
}

fn tell_retained(told: &mut Telling, row: &RetainedMessage) {
    told.pair("\nretained ", row.place);
    told.word(row.sender.as_str());
    told.pair(" ", row.publication);
    told.pair(" ", row.qos as u64);
    tell_content(told, &row.content.lend());
}

/// All rows but the moment.
pub(crate) fn tell_records(told: &mut Telling, records: &Records) {
    told.pair("births ", records.births);
    told.pair(" publications ", records.publications);
    told.pair(" subscribes ", records.subscribes);
    told.pair(" autos ", records.autos);
    for session in records.sessions.as_slice() {
        tell_session(told, session.get());
    }
    for row in records.retained.as_slice() {
        tell_retained(told, row.get());
    }
}
