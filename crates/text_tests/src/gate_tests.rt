//! The gates by themselves, on one thread.
use hall_outside::{Gate, MeetGate, OpenGate};
use std::rt::HostRuntime;

#[test]
fn on_one_thread_nobody_meets(rt: HostRuntime) {
    let gate = MeetGate::make(10);
    assert!(rt; !gate.met(), "before any pass");
    gate.pass(0, false, 0);
    assert!(rt; !gate.met(), "a hand alone");
    gate.pass(1, false, 0);
    assert!(rt; !gate.met(), "the first hand never saw the second flag");
    gate.pass(0, false, 1);
    gate.pass(1, true, 1);
    gate.pass(1, true, 0);
    assert!(rt; !gate.met(), "nor the fourth");
}

#[test]
fn an_open_gate_lets_all_pass(_rt: HostRuntime) {
    OpenGate.pass(0, false, 0);
    OpenGate.pass(1, true, 7);
}
