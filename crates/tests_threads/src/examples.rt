//! The example in the documentation of buffers, line by line.
use std::test::Fail;
use sysv_buffer::OneBuffer;

#[test]
fn an_item_goes_through_a_buffer(rt: HostRuntime) -> Result<(), Fail> {
    let (buffer, mut puts, mut takes) = OneBuffer::open(rt.alloc(), 64)?;
    // In one thread:
    let put = buffer.put(&rt, &mut puts, 7);
    // In another:
    let item = buffer.take(&rt, &mut takes)?;
    assert_eq!(rt; (put.is_ok(), item), (true, 7));
    Ok(())
}
