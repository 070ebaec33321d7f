//! The example in the documentation of the frames, line by line.
use crate::parts::assert_is;
use bitflags::Flags as _;
use std::test::Fail;
use sysv_model::{Body, Flags, Instrumented};
use sysv_wire::{Ask, Request, Version, read_request, write_request};

#[test]
fn a_request_is_written_and_read(rt: HostRuntime) -> Result<(), Fail> {
    let mut text = Body::open(rt.alloc())?;
    let flags = Flags::from_bits_retain(0o600);
    let ask = Ask::Get { key: 7, flags };
    let mut frame = Vec::new(rt.alloc());
    let request = Request {
        version: Version::Two,
        ask,
    };
    write_request(&mut Instrumented::new(&mut frame), &request, &text)?;
    let mut bytes = frame.as_slice();
    let read = read_request(&mut Instrumented::new(&mut bytes), &mut text)?;
    assert_is(&rt, read, Some(request));
    Ok(())
}
