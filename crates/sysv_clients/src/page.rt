//! What a client collects to show. Space for a message is reserved from the start; rows allocate
//! more as they arrive.
ghost use Rattle.std.specs.Prelude.{◌≡◌, ◌+◌, ◌*◌, ◌<◌, ◌≤◌, [], ◌∷◌, ◌++◌, ℕ, length, take, true, false, IfOk, OnOk, OnErr};
ghost use Rattle.sysv_clients.specs.Page.{answer_most, answer_text, body_text, message_text, row_text, type_text};
ghost use Rattle.sysv_clients.specs.Queue.{id_line, stat_lines};
ghost use Rattle.sysv_clients.specs.Style.{grows};
ghost use Rattle.sysv_clients.specs.Table.{table_head};
ghost use Rattle.sysv_model.specs.declared.limits.TheConstants.{MESSAGE_BYTES};
ghost use Rattle.sysv_wire.specs.Replies.{gives_text};

use crate::command::Form;
use crate::queue_line::{Line, MAX_LINE};
use crate::style::Style;
use itoa::Buffer;
use std::alloc::Global;
use std::marker::Model;
use sysv_model::{BLOCK_BYTES, Body, NoMemory, Row, Stat};
use sysv_wire::ReplyContent;

/// The number of bytes that a page has space for from the start: a message of the maximum size as a
/// JSON object, in which each byte of its body may take six, and 567 bytes before it.
pub(crate) const PAGE_ROOM: usize = 49_767;

/// The maximum number of bytes of several messages together. A pipe takes this many bytes of one
/// write without those of other writers between them.
const WRITE_MOST: usize = 4_096;

/// The maximum number of bytes that a message in a form that is no JSON object has beside its body:
/// its type with a tab, and what ends it.
const PLAIN_MORE: usize = 22;

/// What a client collects to show.
#[derive(Drop)]
pub(crate) struct Page {
    bytes: Vec<u8>,
}

impl Model for Page {
    ghost use Rattle.std.specs.Prelude.{List, ℕ, ◌≤◌, vec_capacity};
    ghost use Rattle.sysv_clients.specs.declared.page.TheConstants.{PAGE_ROOM};

    ghost Value = { List ℕ };

    ghost view = { λ page. page.bytes.items };

    ghost invariant = { λ page. PAGE_ROOM ≤ vec_capacity page.bytes };
}

impl Page {
    /// Creates an empty page. Fails with `NoMemory` if allocation fails.
    pub(crate) fn open(alloc: Global) -> Result<Page, NoMemory>
        ensures { IfOk result (λ page. page ≡ []) }
    {
        match Vec::with_capacity(alloc, PAGE_ROOM) {
            Ok(bytes) => Ok(Page { bytes }),
            Err(_) => Err(NoMemory),
        }
    }

    /// Returns all bytes collected so far.
    pub(crate) fn bytes(&self) -> &[u8]
        ensures { result.now ≡ self.now }
    {
        &self.bytes
    }

    /// Returns whether nothing was collected.
    pub(crate) fn is_empty(&self) -> bool
        ensures none { result ≡ true → self.now ≡ [] }
        ensures some { result ≡ false → 0 < length self.now }
    {
        self.bytes.is_empty()
    }

    /// Returns whether a message can be appended and then written at once with what was collected.
    pub(crate) fn fits(&self, style: &Style, text: &Body) -> bool
        requires { length text.now ≤ MESSAGE_BYTES }
        ensures { result ≡ true → length self.now + 6 * length text.now + 48 ≤ PAGE_ROOM }
    {
        let most = match style.form {
            Form::Object => 6 * text.len() + 48,
            Form::Line | Form::Raw | Form::Zero => text.len() + PLAIN_MORE,
        };
        most <= WRITE_MOST.saturating_sub(self.bytes.len())
    }

    /// Appends bytes that fit in the space reserved from the start.
    pub(crate) fn put(&mut self, piece: &[u8])
        requires { length self.old + length piece.now ≤ PAGE_ROOM }
        ensures after { self.new ≡ self.old ++ piece.now }
        ensures len { length self.new ≡ length self.old + length piece.now }
    {
        match self.bytes.extend_from_slice(piece) {
            Ok(()) => {}
            Err(_) => unreachable!(),
        }
    }

    /// Appends bytes, and allocates memory for them as needed. Fails with `NoMemory` if allocation
    /// fails.
    fn append(&mut self, piece: &[u8]) -> Result<(), NoMemory>
        ensures { OnOk result (self.new ≡ self.old ++ piece.now) }
    {
        match self.bytes.extend_from_slice(piece) {
            Ok(()) => Ok(()),
            Err(_) => Err(NoMemory),
        }
    }

    /// Writes the head of the table on an empty page.
    #[tactic(auto, unfolding(crate::specs::Table::table_head))]
    pub(crate) fn head(&mut self)
        requires { self.old ≡ [] }
        ensures { self.new ≡ table_head }
    {
        self.put(b"key             msqid      owner perms  bytes messages\n");
    }

    /// Empties the page.
    pub(crate) fn clear(&mut self)
        ensures { self.new ≡ [] }
    {
        self.bytes.clear();
    }

    /// Appends what a result adds to the page: the lines of a queue, or a message. Of a message,
    /// `given` is shortened to the bytes that are shown. Fails with `NoMemory` if memory for the
    /// lines is refused.
    pub(crate) fn tell(
        &mut self,
        style: &Style,
        answer: &ReplyContent,
        given: &mut Body,
    ) -> Result<(), NoMemory>
        requires text { length given.old ≤ MESSAGE_BYTES }
        requires room { gives_text answer.now ≡ true →
            length self.old + 6 * MESSAGE_BYTES + 48 ≤ PAGE_ROOM }
        ensures after { OnOk result (self.new
            ≡ self.old ++ answer_text style.now answer.now given.old) }
        ensures len { OnOk result (length self.new ≤ length self.old + answer_most answer.now) }
        ensures row { OnErr result (grows style.now answer.now ≡ true) }
    {
        match answer {
            ReplyContent::Row(Some(row)) => self.row(style, row),
            ReplyContent::Get { id } if style.shows_id => self.id(*id),
            ReplyContent::Stat(stat) => self.stat(stat),
            ReplyContent::Rcv { mtype } => {
                self.message(style, *mtype, given);
                Ok(())
            }
            _ => Ok(()),
        }
    }

    /// Appends the line of a row.
    fn row(&mut self, style: &Style, row: &Row) -> Result<(), NoMemory>
        ensures after { OnOk result (self.new ≡ self.old ++ row_text style.now row.now) }
        ensures len { OnOk result (length self.new ≤ length self.old + MAX_LINE) }
    {
        let mut line = Line::new();
        if style.json {
            line.json(row);
        } else {
            line.row(row);
        }
        self.append(line.bytes())
    }

    /// Appends the line of an identifier.
    fn id(&mut self, id: i32) -> Result<(), NoMemory>
        ensures after { OnOk result (self.new ≡ self.old ++ id_line id) }
        ensures len { OnOk result (length self.new ≤ length self.old + MAX_LINE) }
    {
        let mut line = Line::new();
        line.id(id);
        self.append(line.bytes())
    }

    /// Appends the lines of all attributes.
    fn stat(&mut self, stat: &Stat) -> Result<(), NoMemory>
        ensures after { OnOk result (self.new ≡ self.old ++ stat_lines stat.now) }
        ensures len { OnOk result (length self.new ≤ length self.old + MAX_LINE) }
    {
        let mut line = Line::new();
        line.stat(stat);
        self.append(line.bytes())
    }
}

impl Page {
    /// Appends a message, and shortens `text` to the bytes of it that are shown.
    pub(crate) fn message(&mut self, style: &Style, mtype: i64, text: &mut Body)
        requires most { length text.old ≤ MESSAGE_BYTES }
        requires room { length self.old + 6 * length text.old + 48 ≤ PAGE_ROOM }
        ensures after { self.new ≡ self.old ++ message_text style.now mtype text.old }
        ensures len { length self.new ≤ length self.old + 6 * length text.old + 48 }
    {
        text.truncate(style.size as usize);
        match style.form {
            Form::Line => self.plain(style.shows_type, mtype, text, b"\n"),
            Form::Raw => self.plain(style.shows_type, mtype, text, b""),
            Form::Zero => self.plain(style.shows_type, mtype, text, b"\0"),
            Form::Object => self.message_object(mtype, text),
        }
    }

    /// Appends a body and this end, and the type and a tab before them if they are wanted.
    #[tactic(auto, using(std::proofs::Common::append_assoc))]
    fn plain(&mut self, shows_type: bool, mtype: i64, text: &Body, end: &[u8])
        requires { length self.old + length text.now + length end.now + 21 ≤ PAGE_ROOM }
        ensures after { self.new ≡ self.old ++ body_text shows_type mtype text.now end.now }
        ensures len { length self.new
            ≤ length self.old + length text.now + length end.now + 21 }
    {
        if shows_type {
            self.mtype(mtype);
        }
        self.body(text);
        self.put(end);
    }

    /// Copies a body to the start of `whole`. The page is the same afterwards.
    pub(crate) fn copy(&mut self, text: &Body, whole: &mut [u8])
        requires room { length self.old + length text.now ≤ PAGE_ROOM }
        requires fits { length text.now ≤ length whole.old }
        ensures same { self.new ≡ self.old }
        ensures copied { take (length text.now) whole.new ≡ text.now }
        ensures len { length whole.new ≡ length whole.old }
    {
        let start = self.bytes.len();
        self.body(text);
        whole[..text.len()].copy_from_slice(&self.bytes[start..]);
        self.bytes.truncate(start);
    }

    /// Appends a message's type and a tab.
    fn mtype(&mut self, mtype: i64)
        requires { length self.old + 21 ≤ PAGE_ROOM }
        ensures after { self.new ≡ self.old ++ type_text mtype }
        ensures len { length self.new ≤ length self.old + 21 }
    {
        let mut buffer = Buffer::new();
        self.put(buffer.format(mtype).as_bytes());
        self.put(b"\t");
    }

    /// Appends the bytes of a body.
    fn body(&mut self, text: &Body)
        requires { length self.old + length text.now ≤ PAGE_ROOM }
        ensures after { self.new ≡ self.old ++ text.now }
        ensures len { length self.new ≡ length self.old + length text.now }
    {
        let blocks = text.len().div_ceil(BLOCK_BYTES) as u32;
        for k in 0..blocks {
            self.put(text.block(k));
        }
    }
}
