//! The lines that a run prints.

use mqtt_base::Ending;
use mqtt_script::{
    push_accepted, push_bad, push_broker, push_ended, push_entered, push_number, push_out,
    push_publisher, push_receiver, push_released, push_will_refused,
};
use std::alloc::AllocError;
use std::test::Fail;

/// Adds two lines of events: a message of QoS 2 is accepted for one receiver, and is handed over.
fn push_events(text: &mut String) -> Result<(), AllocError> {
    push_number(text, 13, "tobroker")?;
    push_accepted(text, 1)?;
    push_entered(text, 1, "r1")?;
    push_out(text, 1)?;
    text.push('\n')?;
    push_number(text, 14, "stopafter")?;
    push_out(text, 0)?;
    text.push('\n')?;
    push_number(text, 22, "tobroker")?;
    push_ended(text, 1, "r1", Ending::Taken)?;
    text.push('\n')
}

/// Adds what the run came to, and a line that is bad.
fn push_sums(text: &mut String) -> Result<(), AllocError> {
    push_receiver(text, "r1", &[1], 0)?;
    push_receiver(text, "r2", &[], 3)?;
    push_receiver(text, "r3", &[2, 1, 18_446_744_073_709_551_615], 0)?;
    push_publisher(text, "p1", 1, 0)?;
    push_broker(text, 1, 2)?;
    push_bad(text, 23)
}

/// Adds all lines of a run.
fn push_run(text: &mut String) -> Result<(), AllocError> {
    push_events(text)?;
    push_sums(text)
}

/// Adds the other reports, and each way in which a copy ends.
fn push_others(text: &mut String) -> Result<(), AllocError> {
    push_released(text, 7)?;
    push_will_refused(text, "a %")?;
    for ending in [
        Ending::Refused,
        Ending::Expired,
        Ending::TooLarge,
        Ending::SessionEnded,
        Ending::Dropped,
    ] {
        push_ended(text, 2, ">", ending)?;
    }
    Ok(())
}

#[test]
fn the_lines_of_a_run(rt: HostRuntime) -> Result<(), Fail> {
    let mut text = String::new(rt.alloc());
    let pushed = push_run(&mut text);
    let is_text = text.as_str()
        == "13 tobroker accepted=1 entered=1>r1 out=1\n14 stopafter\n22 tobroker ended=1>r1:Taken\n\
            r1 handed=1 queue=0\nr2 handed=- queue=3\nr3 handed=2,1,18446744073709551615 queue=0\n\
            p1 sent=1 done=0\nbroker publications=1 sessions=2\n23 bad\n";
    drop(text);
    pushed?;
    assert!(rt; is_text);
    Ok(())
}

#[test]
fn the_other_reports(rt: HostRuntime) -> Result<(), Fail> {
    let mut text = String::new(rt.alloc());
    let pushed = push_others(&mut text);
    let is_text = text.as_str()
        == " released=7 willrefused=a%20%25 ended=2>>:Refused ended=2>>:Expired ended=2>>:TooLarge \
            ended=2>>:SessionEnded ended=2>>:Dropped";
    drop(text);
    pushed?;
    assert!(rt; is_text);
    Ok(())
}
