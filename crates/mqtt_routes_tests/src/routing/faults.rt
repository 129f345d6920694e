//! The numbers of the faults, which never change.
use mqtt_routes::RoutesFault;

#[test]
fn each_fault_has_its_number(rt: HostRuntime) {
    assert_eq!(rt; RoutesFault::Full as u8, 1);
    assert_eq!(rt; RoutesFault::Memory as u8, 2);
}
