//! The numbers of the faults, which never change.
use mqtt_flow::FlowFault;

#[test]
fn each_fault_has_its_number(rt: HostRuntime) {
    assert_eq!(rt; FlowFault::Full as u8, 1);
    assert_eq!(rt; FlowFault::WrongStep as u8, 2);
    assert_eq!(rt; FlowFault::Memory as u8, 3);
}
