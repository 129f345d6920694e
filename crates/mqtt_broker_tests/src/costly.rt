//! One packet that asks for much (MQTT 5.0, 3.8).

use crate::judging::judge_script;
use crate::telling::Telling;
use std::alloc::Global;
use std::hash::RandomState;

/// A SUBSCRIBE of 65,535 bytes, which has the filter `#` at QoS 0 16,382 times.
fn tell_subscribe(script: &mut Telling) {
    script.word("on 1 82fbff03000100");
    for _ in 0..16_382 {
        script.word("00012300");
    }
}

/// Its SUBACK, and each of ten messages for each filter.
fn tell_answer(script: &mut Telling) {
    script.word(" -> 1:90818001000100");
    for _ in 0..16_382 {
        script.word("00");
    }
    for _ in 0..16_382 {
        tell_messages(script);
    }
}

/// The ten messages that are retained.
fn tell_messages(script: &mut Telling) {
    for digit in 1..10 {
        script.pair(" 1:310800043030303", digit);
        script.word("0021");
    }
    script.word(" 1:31080004303031300021");
}

/// Says if a SUBSCRIBE of 64 KB doesn't get all that is retained for each of its filters.
pub(crate) fn judge_costly(
    wrong: &mut Telling,
    script: &mut Telling,
    alloc: Global,
    hasher: RandomState,
) {
    script.clear();
    script.word("link -> 1\nconnect 1 c -> 1:connected\n");
    script.word("times 10 on 1 3108 0004@ 00 21 -> accepted=10\n");
    tell_subscribe(script);
    tell_answer(script);
    judge_script(wrong, alloc, hasher, script);
}
