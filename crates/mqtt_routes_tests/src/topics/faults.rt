//! The numbers of the faults, which never change.
use mqtt_topic::TopicFault;

#[test]
fn each_fault_has_its_number(rt: HostRuntime) {
    assert!(rt; TopicFault::Empty as u8 == 1);
    assert!(rt; TopicFault::WildcardInName as u8 == 2);
    assert!(rt; TopicFault::WildcardPlace as u8 == 3);
    assert!(rt; TopicFault::Share as u8 == 4);
    assert!(rt; TopicFault::AliasRange as u8 == 5);
    assert!(rt; TopicFault::AliasUnknown as u8 == 6);
    assert!(rt; TopicFault::Memory as u8 == 7);
    assert!(rt; TopicFault::NotText as u8 == 8);
}
