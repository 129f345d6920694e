//! The lines that a run prints.

use mqtt_base::{Cause, CopyId, Ending, Text};
use mqtt_replay::playing::push_told;
use mqtt_rules::Report;
use std::alloc::AllocError;
use std::test::Fail;

/// The first publication's copy for the second session.
fn copy() -> CopyId {
    CopyId {
        publication: 1,
        birth: 2,
        cause: Cause::Direct,
    }
}

/// Adds a line of a message that is accepted for one receiver.
fn push_accepted(text: &mut String, client: &Text) -> Result<(), AllocError> {
    let client = client.clone()?;
    let reports = [
        Report::Accepted { publication: 1 },
        Report::Entered {
            copy: copy(),
            client,
        },
    ];
    push_told(text, 13, "tobroker", &reports, 1)
}

/// Adds a line of its receiver's PUBCOMP.
fn push_taken(text: &mut String, client: &Text) -> Result<(), AllocError> {
    let reports = [Report::Ended {
        copy: copy(),
        client: client.clone()?,
        ending: Ending::Taken,
    }];
    push_told(text, 22, "tobroker", &reports, 0)
}

/// Adds a line of a PUBREL.
fn push_released(text: &mut String, client: &Text) -> Result<(), AllocError> {
    let reports = [Report::Released {
        birth: 8,
        client: client.clone()?,
        identifier: 7,
    }];
    push_told(text, 23, "tobroker", &reports, 1)
}

/// Adds a line of a Will that isn't accepted.
fn push_refused(text: &mut String, client: &Text) -> Result<(), AllocError> {
    let reports = [Report::WillRefused {
        birth: 9,
        client: client.clone()?,
    }];
    push_told(text, 24, "tick", &reports, 2)
}

/// Adds the lines of some events of a run.
fn push_run(text: &mut String, client: &Text) -> Result<(), AllocError> {
    push_accepted(text, client)?;
    push_told(text, 14, "stopafter", &[], 0)?;
    push_taken(text, client)?;
    push_released(text, client)?;
    push_refused(text, client)
}

#[test]
fn the_lines_of_a_run(rt: HostRuntime) -> Result<(), Fail> {
    assert!(rt; Text::may_hold("r1"));
    let client = Text::new(rt.alloc(), "r1")?;
    let mut text = String::new(rt.alloc());
    let pushed = push_run(&mut text, &client);
    drop(client);
    let is_text = text.as_str()
        == "13 tobroker accepted=1 entered=1>r1 out=1\n14 stopafter\n22 tobroker ended=1>r1:Taken\n\
            23 tobroker released=7 out=1\n24 tick willrefused=r1 out=2\n";
    drop(text);
    pushed?;
    assert!(rt; is_text);
    Ok(())
}
