//! The numbers of the engine's errors, which never change.
use mqtt_broker::EngineError;

#[test]
fn each_error_has_its_number(rt: HostRuntime) {
    assert_eq!(rt; EngineError::Memory as u8, 1);
    assert_eq!(rt; EngineError::Stopped as u8, 2);
    assert_eq!(rt; EngineError::Spent as u8, 3);
}
