//! The numbers of the core's faults.

use mcv_core::CoreFault;

#[test]
fn faults_have_their_numbers(rt: HostRuntime) {
    assert_eq!(rt; CoreFault::UnknownPrefix.number(), 1);
    assert_eq!(rt; CoreFault::NoSuchCall.number(), 10);
}
