//! What is asked of the broker by scripts (MQTT 5.0, 2.1, 3 and 4).

use crate::checks::{What, check, sweep};
use crate::failing::Sweep;
use std::hash::RandomState;
use std::test::Fail;

#[test]
fn scripts_tell_what_they_say(rt: HostRuntime) -> Result<(), Fail> {
    let hasher = RandomState::new(&rt)?;
    check(rt.alloc(), hasher, What::Scripts)
}

#[test]
fn what_is_refused_changes_nothing_else(rt: HostRuntime) -> Result<(), Fail> {
    let hasher = RandomState::new(&rt)?;
    check(rt.alloc(), hasher, What::Refusals)
}

/// Prints how many calls failed so.
#[test]
fn a_device_that_fails_stops_the_broker_and_leaves_whole_steps(
    rt: HostRuntime,
) -> Result<(), Fail> {
    let hasher = RandomState::new(&rt)?;
    let counts = sweep(rt.alloc(), hasher, Sweep::Device)?;
    println!(rt;
        "sweep: {} scripts; a store's call fails in {} loads, {} steps twice, {} reads of contents; {} alike left out",
        counts.scripts, counts.loads, counts.applies, counts.contents, counts.alike
    )?;
    assert!(rt; counts.are_all(), "nothing of a kind failed");
    Ok(())
}

/// Prints how many calls were refused so.
#[test]
fn what_a_store_refuses_for_want_of_memory_is_done_when_it_is_asked_again(
    rt: HostRuntime,
) -> Result<(), Fail> {
    let hasher = RandomState::new(&rt)?;
    let counts = sweep(rt.alloc(), hasher, Sweep::Memory)?;
    println!(rt;
        "sweep: {} scripts; a store's call wants memory in {} loads, {} steps, {} reads of contents; {} alike left out",
        counts.scripts, counts.loads, counts.applies, counts.contents, counts.alike
    )?;
    assert!(rt; counts.are_all(), "nothing of a kind was refused");
    Ok(())
}

#[test]
fn scripts_leave_the_same_rows_in_a_store_in_sql(rt: HostRuntime) -> Result<(), Fail> {
    let hasher = RandomState::new(&rt)?;
    check(rt.alloc(), hasher, What::InSql)
}

#[test]
fn steps_leave_their_rows_in_the_tables_and_changed_tables_are_refused(
    rt: HostRuntime,
) -> Result<(), Fail> {
    let hasher = RandomState::new(&rt)?;
    check(rt.alloc(), hasher, What::Tables)
}

#[test]
fn a_broker_goes_on_over_a_store_of_schema_1_that_is_taken_over(
    rt: HostRuntime,
) -> Result<(), Fail> {
    let hasher = RandomState::new(&rt)?;
    check(rt.alloc(), hasher, What::TakenOver)
}

#[test]
fn nothing_changes_once_the_numbers_of_publications_are_spent(rt: HostRuntime) -> Result<(), Fail> {
    let hasher = RandomState::new(&rt)?;
    check(rt.alloc(), hasher, What::Spent)
}

#[test]
fn what_memory_was_wanting_for_is_done_when_it_is_asked_again(rt: HostRuntime) -> Result<(), Fail> {
    let hasher = RandomState::new(&rt)?;
    check(rt.alloc(), hasher, What::Wanting)
}

#[test]
fn cut_and_changed_frames_are_taken_as_the_framer_takes_them(rt: HostRuntime) -> Result<(), Fail> {
    let hasher = RandomState::new(&rt)?;
    check(rt.alloc(), hasher, What::Frames)
}

#[test]
fn a_subscribe_of_64_kilobytes_gets_all_that_is_retained_for_each_filter(
    rt: HostRuntime,
) -> Result<(), Fail> {
    let hasher = RandomState::new(&rt)?;
    check(rt.alloc(), hasher, What::Costly)
}

#[test]
fn a_queue_of_a_thousand_copies_is_drained_sixteen_at_a_time(rt: HostRuntime) -> Result<(), Fail> {
    let hasher = RandomState::new(&rt)?;
    check(rt.alloc(), hasher, What::Drained)
}
