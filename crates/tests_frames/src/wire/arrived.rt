//! What bytes that have arrived hold of a request, worked out by hand.
use super::faults::REQUESTS;
use crate::parts::{assert_at, assert_is};
use std::process::Abort;
use sysv_wire::{Fault, FrameIn, Request, frame_in};
use tests_kit::worked::{REQUEST_ENDS, SESSION};

/// Returns what the first `count` bytes of a frame of `length` bytes hold.
fn first(count: usize, length: usize) -> FrameIn {
    let least = match count {
        0..=3 => 4,
        4..=5 => 6,
        _ => length,
    };
    if count < length {
        FrameIn::More { least }
    } else {
        FrameIn::Whole { length }
    }
}

#[test]
fn a_session_that_arrives_byte_by_byte(rt: HostRuntime) {
    let mut start = 0;
    for end in REQUEST_ENDS {
        for cut in start..=SESSION.len() {
            assert!(rt; start <= cut && cut <= SESSION.len());
            let found = frame_in(&SESSION[start..cut]);
            let length = end.saturating_sub(start);
            assert_at(&rt, found, first(cut.saturating_sub(start), length), cut);
        }
        start = end;
    }
    assert_is(&rt, start, SESSION.len());
}

/// Asserts that these bytes are the start of a frame.
fn assert_more(rt: &impl Abort, bytes: &[u8]) {
    let found = frame_in(bytes);
    assert!(rt;
        matches!(found, FrameIn::More { .. }),
        "{bytes:?}: {found:?}"
    );
}

/// Asserts that the last of these bytes decides what a reader of requests returns for them.
fn assert_decided(rt: &impl Abort, bytes: &[u8], answer: Result<Option<Request>, Fault>) {
    for cut in 0..bytes.len() {
        assert_more(rt, &bytes[..cut]);
    }
    match answer {
        Ok(None) | Err(Fault::Truncated) => assert_more(rt, bytes),
        _ => {
            let refused = answer.err().map(|fault| FrameIn::Refused { fault });
            assert_at(rt, Some(frame_in(bytes)), refused, bytes);
        }
    }
}

#[test]
fn faults_at_the_first_byte_that_decides_them(rt: HostRuntime) {
    for (bytes, answer) in REQUESTS {
        assert_decided(&rt, bytes, *answer);
    }
}

#[test]
fn bytes_after_a_fault_change_nothing(rt: HostRuntime) {
    let faults = [
        (Fault::TooLong, [0x00, 0x00, 0x20, 0x53, 0x01, 0x02, 0x00]),
        (Fault::BadField, [0x00, 0x00, 0x00, 0x01, 0x01, 0x02, 0x00]),
        (Fault::BadField, [0x00, 0x00, 0x00, 0x06, 0x03, 0x04, 0x00]),
        (Fault::BadField, [0x00, 0x00, 0x00, 0x07, 0x01, 0x04, 0x00]),
        (Fault::BadOp, [0x00, 0x00, 0x00, 0x06, 0x01, 0x08, 0x00]),
    ];
    for (fault, bytes) in faults {
        assert_is(&rt, frame_in(&bytes), FrameIn::Refused { fault });
    }
}

#[test]
fn the_longest_request(rt: HostRuntime) {
    let mut bytes = [0; 8279];
    bytes[..6].copy_from_slice(&[0x00, 0x00, 0x20, 0x52, 0x02, 0x02]);
    for count in [6, 8277, 8278, 8279] {
        assert!(rt; count <= bytes.len());
        assert_at(&rt, frame_in(&bytes[..count]), first(count, 8278), count);
    }
}
