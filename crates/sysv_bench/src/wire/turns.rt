//! Reading a send of 64 bytes and writing its reply, over memory.
use bench_threads::watch::{Time, Watch, nanos_if};
use std::alloc::Global;
use std::io;
use std::io::Write;
use std::time::{Clock, CpuClock};
use sysv_model::{Body, Instrumented};
use sysv_wire::{Op, Reply, ReplyContent, Version, read_request, write_reply};

/// The head and the fields of a send of 64 bytes.
const HEAD: [u8; 22] = [
    0, 0, 0, 82, 1, 2, 0, 0, 0, 0, 0, 0, 0, 0, 0, 0, 0, 5, 0, 0, 0, 0,
];

/// A writer that accepts all bytes, over the bytes written before.
#[derive(Drop)]
struct Slate {
    bytes: [u8; 128],
}

impl Write for Slate {
    fn write(&mut self, buf: &[u8]) -> io::Result<usize> {
        let count = buf.len().min(128);
        self.bytes[..count].copy_from_slice(&buf[..count]);
        Ok(count)
    }

    fn flush(&mut self) -> io::Result<()> {
        Ok(())
    }
}

/// Returns the nanoseconds of all turns.
pub(crate) fn time_of_turns<R: Clock + CpuClock>(rt: &R, alloc: Global, times: u64) -> Option<u64> {
    let mut frame = [b'x'; 86];
    frame[..22].copy_from_slice(&HEAD);
    let mut text = Body::open(alloc).ok()?;
    let watch = Watch::start(rt, Time::Passed);
    let done = take_turns(&frame, &mut text, times);
    nanos_if(rt, watch, done)
}

/// Returns whether all turns succeeded.
fn take_turns(frame: &[u8], text: &mut Body, times: u64) -> bool {
    let mut slate = Slate { bytes: [0; 128] };
    for _ in 0..times {
        if !turn(frame, text, &mut slate) {
            return false;
        }
    }
    true
}

/// Reads the send and writes its reply. Returns whether both succeeded.
fn turn(frame: &[u8], text: &mut Body, slate: &mut Slate) -> bool {
    let mut input = frame;
    let Ok(Some(_)) = read_request(&mut Instrumented::new(&mut input), text) else {
        return false;
    };
    let reply = Reply {
        version: Version::One,
        op: Op::Snd.number(),
        result: ReplyContent::Snd,
    };
    text.len() == 64 && write_reply(&mut Instrumented::new(slate), &reply, text).is_ok()
}
