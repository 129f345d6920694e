//! The numbers of the faults, which never change.
use mqtt_routes::TreeFault;

#[test]
fn each_fault_has_its_number(rt: HostRuntime) {
    assert_eq!(rt; TreeFault::Memory as u8, 1);
}
