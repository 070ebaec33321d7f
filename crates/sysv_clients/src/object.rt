//! A message as a JSON object.
ghost use Rattle.std.specs.Prelude.{◌≡◌, ◌+◌, ◌*◌, ◌≤◌, ◌++◌, length};
ghost use Rattle.base64.specs.Engines.{standard};
ghost use Rattle.base64.specs.GeneralPurpose.{encode_of};
ghost use Rattle.sysv_clients.specs.Object.{body_member, json_byte, json_text, object_line};
ghost use Rattle.sysv_clients.specs.declared.page.TheConstants.{PAGE_ROOM};
ghost use Rattle.sysv_model.specs.declared.limits.TheConstants.{MESSAGE_BYTES};

use crate::page::Page;
use crate::queue_line::hex_digit;
use base64::engine::general_purpose::STANDARD;
use itoa::Buffer;
use std::str;
use sysv_model::{Body, MESSAGE_BYTES};

/// The number of bytes of the maximum body in base64: four for each three bytes or less.
const ENCODED_BYTES: usize = 10_924;

impl Page {
    /// Appends a message as a JSON object and an LF.
    pub(crate) fn message_object(&mut self, mtype: i64, text: &Body)
        requires most { length text.now ≤ MESSAGE_BYTES }
        requires room { length self.old + 6 * length text.now + 48 ≤ PAGE_ROOM }
        ensures after { self.new ≡ self.old ++ object_line mtype text.now }
        ensures len { length self.new ≤ length self.old + 6 * length text.now + 48 }
    {
        let mut whole = [0; MESSAGE_BYTES];
        self.copy(text, &mut whole);
        self.object(mtype, &whole[..text.len()]);
    }

    /// Appends a JSON object with a type and a body, and an LF.
    #[tactic(auto, using(std::proofs::Common::append_assoc), unfolding(crate::specs::Object::object_line))]
    fn object(&mut self, mtype: i64, body: &[u8])
        requires most { length body.now ≤ MESSAGE_BYTES }
        requires room { length self.old + 6 * length body.now + 48 ≤ PAGE_ROOM }
        ensures after { self.new ≡ self.old ++ object_line mtype body.now }
        ensures len { length self.new ≤ length self.old + 6 * length body.now + 48 }
    {
        let mut buffer = Buffer::new();
        self.put(b"{\"type\":");
        self.put(buffer.format(mtype).as_bytes());
        self.member(body);
        self.put(b"}\n");
    }

    /// Appends the member with the body: a string, or base64 if the body is not UTF-8.
    #[tactic(auto, using(std::proofs::Common::append_assoc), unfolding(crate::specs::Object::body_member))]
    fn member(&mut self, body: &[u8])
        requires most { length body.now ≤ MESSAGE_BYTES }
        requires room { length self.old + 6 * length body.now + 18 ≤ PAGE_ROOM }
        ensures after { self.new ≡ self.old ++ body_member body.now }
        ensures len { length self.new ≤ length self.old + 6 * length body.now + 18 }
    {
        match str::from_utf8(body) {
            Ok(_) => {
                self.put(b",\"body\":\"");
                self.escaped(body);
                self.put(b"\"");
            }
            Err(_) => {
                self.put(b",\"base64\":\"");
                self.encoded(body);
                self.put(b"\"");
            }
        }
    }

    /// Appends the bytes of a JSON string.
    fn escaped(&mut self, body: &[u8])
        requires { length self.old + 6 * length body.now ≤ PAGE_ROOM }
        ensures after { self.new ≡ self.old ++ json_text body.now }
        ensures len { length self.new ≤ length self.old + 6 * length body.now }
    {
        for i in 0..body.len() {
            self.escape(body[i]);
        }
    }

    /// Appends a byte of a JSON string.
    #[tactic(auto, unfolding(crate::specs::Object::json_byte))]
    fn escape(&mut self, byte: u8)
        requires { length self.old + 6 ≤ PAGE_ROOM }
        ensures after { self.new ≡ self.old ++ json_byte byte }
        ensures len { length self.new ≤ length self.old + 6 }
    {
        if byte == b'"' || byte == b'\\' {
            self.put(&[b'\\', byte]);
        } else if byte < b' ' {
            let (high, low) = (hex_digit(byte / 16), hex_digit(byte % 16));
            self.put(&[b'\\', b'u', b'0', b'0', high, low]);
        } else {
            self.put(&[byte]);
        }
    }

    /// Appends bytes in base64.
    fn encoded(&mut self, body: &[u8])
        requires most { length body.now ≤ MESSAGE_BYTES }
        requires room { length self.old + 6 * length body.now + 4 ≤ PAGE_ROOM }
        ensures after { self.new ≡ self.old ++ encode_of standard body.now }
        ensures len { length self.new ≤ length self.old + 6 * length body.now + 4 }
    {
        let mut text = [0; ENCODED_BYTES];
        match STANDARD.encode_slice(body, &mut text) {
            Ok(len) => self.put(&text[..len]),
            Err(_) => unreachable!(),
        }
    }
}
