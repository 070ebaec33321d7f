//! What the readers return for bytes from the standard input.
use std::alloc::Global;
use std::io;
use std::io::{BufReader, BufWriter, ErrorKind, Read, Write};
use sysv_model::{Body, Instrumented};
use sysv_wire::{read_reply, read_request};

/// The maximum number of bytes in a case.
const MAX_CASE: usize = 9000;

/// Returns a hash of the payload that depends on the position of each byte.
fn weight_of(text: &Body) -> u64 {
    let mut weight = 0u64;
    for i in 0..text.len() {
        let byte = u64::from(text.byte(i));
        weight = weight.wrapping_mul(31).wrapping_add(byte);
    }
    weight
}

/// Reads cases, each a length of four bytes and that number of bytes. Prints two lines for each
/// case, first for a reader of requests and then for a reader of replies: the result, the number of
/// bytes that are left, and the hash of the payload.
pub(crate) fn tell_answers<R: io::Input + io::Print>(rt: &R, alloc: Global) -> io::Result<()> {
    let Ok(mut text) = Body::open(alloc) else {
        return Err(io::Error::from(ErrorKind::OutOfMemory));
    };
    tell_all(rt, alloc, &mut text)
}

fn tell_all<R: io::Input + io::Print>(rt: &R, alloc: Global, text: &mut Body) -> io::Result<()> {
    let mut input = BufReader::new(alloc, rt.reader())?;
    let mut output = BufWriter::new(alloc, io::writer(rt))?;
    tell_each(&mut input, &mut output, text)
}

fn tell_each<I: Read, O: Write>(input: &mut I, output: &mut O, text: &mut Body) -> io::Result<()> {
    let mut case = [0; MAX_CASE];
    for _ in 0..u64::MAX {
        let Some(len) = read_len(input) else {
            break;
        };
        let len = (len as usize).min(MAX_CASE);
        let bytes = &mut case[..len];
        input.read_exact(bytes)?;
        tell_request(output, bytes, text)?;
        tell_reply(output, bytes, text)?;
    }
    output.flush()
}

/// Reads the length of a case. Returns `None` if there is no further case.
fn read_len<I: Read>(input: &mut I) -> Option<u32> {
    let mut size = [0; 4];
    match input.read_exact(&mut size) {
        Ok(()) => Some(u32::from_be_bytes(size)),
        Err(_) => None,
    }
}

fn tell_request<O: Write>(output: &mut O, bytes: &[u8], text: &mut Body) -> io::Result<()> {
    let mut rest = bytes;
    let answer = read_request(&mut Instrumented::new(&mut rest), text);
    let weight = weight_of(text);
    let left = rest.len();
    writeln!(output, "{answer:?} {left} {weight}")
}

fn tell_reply<O: Write>(output: &mut O, bytes: &[u8], text: &mut Body) -> io::Result<()> {
    let mut rest = bytes;
    let answer = read_reply(&mut Instrumented::new(&mut rest), text);
    let weight = weight_of(text);
    let left = rest.len();
    writeln!(output, "{answer:?} {left} {weight}")
}
