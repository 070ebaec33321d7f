//! Instrumented streams.
use crate::parts::assert_is;
use std::io;
use std::io::{ErrorKind, Read, Write};
use std::process::Abort;
use sysv_model::{Instrumented, WriteFault};
use tests_kit::Page;

/// A stream that returns and takes one byte, and then fails, or takes nothing if it stalls.
#[derive(Drop)]
struct Once {
    is_over: bool,
    stalls: bool,
}

impl Once {
    /// Returns the number of bytes that it returns or takes.
    fn step(&mut self) -> io::Result<usize> {
        if !self.is_over {
            self.is_over = true;
            return Ok(1);
        }
        if self.stalls {
            return Ok(0);
        }
        Err(io::Error::from(ErrorKind::TimedOut))
    }
}

impl Read for Once {
    fn read(&mut self, buf: &mut [u8]) -> io::Result<usize> {
        Ok(self.step()?.min(buf.len()))
    }
}

impl Write for Once {
    fn write(&mut self, buf: &[u8]) -> io::Result<usize> {
        Ok(self.step()?.min(buf.len()))
    }

    fn flush(&mut self) -> io::Result<()> {
        self.step()?;
        Ok(())
    }
}

#[test]
fn each_failed_read_is_counted(rt: HostRuntime) {
    let mut bytes = [0; 4];
    let mut stream = Once {
        is_over: false,
        stalls: false,
    };
    let mut reader = Instrumented::new(&mut stream);
    assert_is(&rt, reader.read(&mut bytes).ok(), Some(1));
    assert_is(&rt, reader.failures(), 0);
    assert_is(&rt, reader.read(&mut bytes).ok(), None);
    assert_is(&rt, reader.failures(), 1);
    assert_is(&rt, reader.read(&mut bytes).ok(), None);
    assert_is(&rt, reader.failures(), 2);
}

#[test]
fn the_end_of_a_reader_is_no_failure(rt: HostRuntime) {
    let mut bytes = [0; 4];
    let mut stream = b"hi".as_slice();
    let mut reader = Instrumented::new(&mut stream);
    assert_is(&rt, reader.read(&mut bytes).ok(), Some(2));
    assert_is(&rt, reader.read(&mut bytes).ok(), Some(0));
    assert_is(&rt, reader.failures(), 0);
    assert_is(&rt, bytes, *b"hi\0\0");
}

#[test]
fn each_failed_write_is_counted(rt: HostRuntime) {
    assert_failed_write_is_counted(&rt, false);
    assert_failed_write_is_counted(&rt, true);
}

/// Asserts that a write that fails, or that takes nothing, is counted.
fn assert_failed_write_is_counted(rt: &impl Abort, stalls: bool) {
    let mut stream = Once {
        is_over: false,
        stalls,
    };
    let mut writer = Instrumented::new(&mut stream);
    assert_is(rt, writer.write(b"hi").ok(), Some(1));
    assert_is(rt, writer.failures(), 0);
    assert_is(rt, writer.write(b"i").is_ok(), stalls);
    assert_is(rt, writer.failures(), 1);
}

#[test]
fn a_write_of_nothing_is_no_failure(rt: HostRuntime) {
    let mut stream = Once {
        is_over: true,
        stalls: true,
    };
    let mut writer = Instrumented::new(&mut stream);
    assert_is(&rt, writer.write(b"").ok(), Some(0));
    assert_is(&rt, writer.flush().is_ok(), true);
    assert_is(&rt, writer.failures(), 0);
}

#[test]
fn a_failed_flush_is_counted(rt: HostRuntime) {
    let mut stream = Once {
        is_over: true,
        stalls: false,
    };
    let mut writer = Instrumented::new(&mut stream);
    assert_is(&rt, writer.flush().is_err(), true);
    assert_is(&rt, writer.failures(), 1);
}

/// Is interrupted at its first call, and gives and takes all after that.
#[derive(Drop)]
struct Interrupted {
    calls: u32,
}

impl Interrupted {
    /// Fails at the first call.
    fn step(&mut self) -> io::Result<()> {
        self.calls = self.calls.saturating_add(1);
        match self.calls {
            1 => Err(io::Error::from(ErrorKind::Interrupted)),
            _ => Ok(()),
        }
    }
}

impl Read for Interrupted {
    fn read(&mut self, buf: &mut [u8]) -> io::Result<usize> {
        self.step()?;
        Ok(buf.len())
    }
}

impl Write for Interrupted {
    fn write(&mut self, buf: &[u8]) -> io::Result<usize> {
        self.step()?;
        Ok(buf.len())
    }

    fn flush(&mut self) -> io::Result<()> {
        self.step()
    }
}

/// Whether this is the error of a call that was interrupted.
fn is_interrupted<T>(end: &io::Result<T>) -> bool {
    matches!(end, Err(error) if error.kind() == ErrorKind::Interrupted)
}

#[test]
fn an_interrupted_read_is_not_tried_again(rt: HostRuntime) {
    let mut bytes = [0; 4];
    let mut stream = Interrupted { calls: 0 };
    let mut reader = Instrumented::new(&mut stream);
    assert_is(&rt, is_interrupted(&reader.read(&mut bytes)), true);
    assert_is(&rt, reader.failures(), 1);
    assert_is(&rt, reader.read(&mut bytes).ok(), Some(4));
    assert_is(&rt, reader.failures(), 1);
    assert_is(&rt, stream.calls, 2);
}

#[test]
fn an_interrupted_write_is_not_tried_again(rt: HostRuntime) {
    let mut stream = Interrupted { calls: 0 };
    let mut writer = Instrumented::new(&mut stream);
    assert_is(&rt, is_interrupted(&writer.write(b"hi")), true);
    assert_is(&rt, writer.failures(), 1);
    assert_is(&rt, writer.write(b"hi").ok(), Some(2));
    assert_is(&rt, writer.failures(), 1);
    assert_is(&rt, stream.calls, 2);
}

#[test]
fn an_interrupted_flush_is_not_tried_again(rt: HostRuntime) {
    let mut stream = Interrupted { calls: 0 };
    let mut writer = Instrumented::new(&mut stream);
    assert_is(&rt, is_interrupted(&writer.flush()), true);
    assert_is(&rt, writer.failures(), 1);
    assert_is(&rt, writer.flush().is_ok(), true);
    assert_is(&rt, writer.failures(), 1);
    assert_is(&rt, stream.calls, 2);
}

#[test]
fn an_interrupted_write_of_all_bytes_is_not_tried_again(rt: HostRuntime) {
    let mut stream = Interrupted { calls: 0 };
    let mut writer = Instrumented::new(&mut stream);
    assert_is(&rt, writer.write_out(b"hello"), Err(WriteFault));
    assert_is(&rt, writer.failures(), 1);
    assert_is(&rt, writer.write_out(b"hello"), Ok(()));
    assert_is(&rt, writer.failures(), 1);
    assert_is(&rt, stream.calls, 2);
}

#[test]
fn all_bytes_are_written_in_pieces(rt: HostRuntime) {
    let mut page = Page::taking(2, 7, false);
    let mut writer = Instrumented::new(&mut page);
    assert_is(&rt, writer.write_out(b"hello"), Ok(()));
    assert_is(&rt, writer.failures(), 0);
    assert_is(&rt, writer.write_out(b""), Ok(()));
    assert_is(&rt, writer.write_out(b"world"), Err(WriteFault));
    assert_is(&rt, writer.failures(), 1);
    assert_is(&rt, page.written(), b"hellowo".as_slice());
}
