//! The lines of a file of queues, as a load reads them.
ghost use Rattle.std.specs.Prelude.{ℕ, ℤ, IfOk, List, MatchOption, Some};
ghost use Rattle.std.specs.Bool.{MatchBool};
ghost use Rattle.std.specs.Option.{SomeIff};
ghost use Rattle.std.specs.Prelude.{◌≡◌, ◌∷◌, ◌++◌};
ghost use Rattle.json.specs.Token.{Token as AToken, key};
ghost use Rattle.sysv_clients.specs.Saved.{HasLimits, HasName, HasPair, IsFormatLine, IsQueueIn, IsQueueLine, StatesEntry, StatesNothing, format_tokens, number_member, string_member};
ghost use Rattle.sysv_clients.specs.Words.{IsHexKey, IsId, IsPerms};
ghost use Rattle.sysv_clients.specs.declared.saved.SavedQueue.{SavedQueue as ASavedQueue};
ghost use Rattle.sysv_words.specs.Words.{IsNat32};

use crate::stated::{closes, opens, read_object};
use crate::words::{hex_key, id_of, perms_of};
use json::{Reader, Scratch, Token};
use std::alloc::Global;
use std::str;
use sysv_model::{Body, NoMemory};
use sysv_words::Reads;

/// A queue as its line in a file states it.
#[derive(Clone, Copy, PartialEq, Eq, Debug)]
pub struct SavedQueue {
    /// The queue's key, 0 for a private queue.
    pub key: i32,
    /// The identifier that it had.
    pub id: i32,
    /// The owner's user ID.
    pub uid: u32,
    /// The owner's group ID.
    pub gid: u32,
    /// The creator's user ID.
    pub cuid: u32,
    /// The creator's group ID.
    pub cgid: u32,
    /// The mode, 0 to 0o777.
    pub mode: u32,
    /// The maximum number of queued bytes.
    pub qbytes: u32,
    /// The number of bytes that it had.
    pub cbytes: u32,
    /// The number of messages that it had.
    pub qnum: u32,
}

/// What a line of a file of queues states.
#[derive(Clone, Copy, PartialEq, Eq, Debug)]
pub(crate) enum Entry {
    /// The format.
    Format,
    /// A queue.
    Queue(SavedQueue),
    /// A message of this type.
    Message(i64),
}

/// Reads what a line of a file of queues states. The body of a message is then in `text`. Returns
/// `None` if the line states nothing that such a file may have.
///
/// # Errors
///
/// - `NoMemory` if memory for the line is refused.
pub(crate) fn read_entry(
    alloc: Global,
    line: &[u8],
    scratch: &mut Scratch,
    text: &mut Body,
) -> Result<Option<Entry>, NoMemory>
    ensures { IfOk result (λ found. MatchOption found (StatesNothing line.now)
        (λ entry. StatesEntry line.now entry text.new)) }
{
    if let Some(mtype) = read_object(alloc, line, scratch, text)? {
        return Ok(Some(Entry::Message(mtype)));
    }
    if let Some(queue) = read_queue(line, scratch)? {
        return Ok(Some(Entry::Queue(queue)));
    }
    if read_format(line, scratch)? {
        Ok(Some(Entry::Format))
    } else {
        Ok(None)
    }
}

/// Returns whether a line states the format. Fails with `NoMemory` if memory for it is refused.
fn read_format(line: &[u8], scratch: &mut Scratch) -> Result<bool, NoMemory>
    ensures { IfOk result (λ is. MatchBool is (IsFormatLine line.now) (¬ IsFormatLine line.now)) }
{
    let Ok(line) = str::from_utf8(line) else {
        return Ok(false);
    };
    let Ok(mut reader) = Reader::new(line, scratch) else {
        return Err(NoMemory);
    };
    Ok(format_in(&mut reader))
}

/// Reads the members of a format, which are all that the reader has. Returns whether they are those
/// of this format.
fn format_in(reader: &mut Reader<'_>) -> bool
    ensures { MatchBool result (reader.old ≡ format_tokens) (¬ (reader.old ≡ format_tokens)) }
{
    if !opens(reader) {
        return false;
    }
    let Some(format) = string(reader, "format") else {
        return false;
    };
    if format != "sysvmsg-queues" {
        return false;
    }
    let Some(version) = number(reader, "version") else {
        return false;
    };
    if version != "1" {
        return false;
    }
    closes(reader)
}

/// Reads the queue that a line states, or `None` if it states none. Fails with `NoMemory` if memory
/// for the line is refused.
pub(crate) fn read_queue(line: &[u8], scratch: &mut Scratch) -> Result<Option<SavedQueue>, NoMemory>
    ensures { IfOk result (λ found. MatchOption found
        ((queue : ASavedQueue) → ¬ IsQueueLine line.now queue) (IsQueueLine line.now)) }
{
    let Ok(line) = str::from_utf8(line) else {
        return Ok(None);
    };
    let Ok(mut reader) = Reader::new(line, scratch) else {
        return Err(NoMemory);
    };
    Ok(queue_in(&mut reader))
}

/// Reads the members of a queue, which are all that the reader has.
fn queue_in(reader: &mut Reader<'_>) -> Option<SavedQueue>
    ensures { MatchOption result ((queue : ASavedQueue) → ¬ IsQueueIn reader.old queue)
        (IsQueueIn reader.old) }
{
    if !opens(reader) {
        return None;
    }
    let Some(name) = name_in(reader) else {
        return None;
    };
    let Some(owner) = pair_in(reader, "uid", "gid") else {
        return None;
    };
    let Some(creator) = pair_in(reader, "cuid", "cgid") else {
        return None;
    };
    let Some(limits) = limits_in(reader) else {
        return None;
    };
    let Some(counts) = pair_in(reader, "bytes", "messages") else {
        return None;
    };
    if !closes(reader) {
        return None;
    }
    Some(SavedQueue {
        key: name.0,
        id: name.1,
        uid: owner.0,
        gid: owner.1,
        cuid: creator.0,
        cgid: creator.1,
        mode: limits.0,
        qbytes: limits.1,
        cbytes: counts.0,
        qnum: counts.1,
    })
}

/// Reads the key and the identifier of a queue.
fn name_in(reader: &mut Reader<'_>) -> Option<(i32, i32)>
    ensures { MatchOption result
        ((key id : ℤ) (rest : List AToken) → ¬ HasName key id reader.old rest)
        (λ name. HasName name.0 name.1 reader.old reader.new) }
{
    let Some(word) = string(reader, "key") else {
        return None;
    };
    let Some(key) = hex_key(word.as_bytes()) else {
        return None;
    };
    let Some(digits) = number(reader, "msqid") else {
        return None;
    };
    let Some(id) = id_of(digits.as_bytes()) else {
        return None;
    };
    Some((key, id))
}

/// Reads the mode and the limit of a queue.
fn limits_in(reader: &mut Reader<'_>) -> Option<(u32, u32)>
    ensures { MatchOption result
        ((mode qbytes : ℕ) (rest : List AToken) → ¬ HasLimits mode qbytes reader.old rest)
        (λ limits. HasLimits limits.0 limits.1 reader.old reader.new) }
{
    let Some(word) = string(reader, "perms") else {
        return None;
    };
    let Some(mode) = perms_of(word.as_bytes()) else {
        return None;
    };
    let Some(qbytes) = number_32(reader, "qbytes") else {
        return None;
    };
    Some((mode, qbytes))
}

/// Reads two members of these names whose values are numbers from 0 to 4294967295.
fn pair_in(reader: &mut Reader<'_>, first: &str, second: &str) -> Option<(u32, u32)>
    ensures { MatchOption result
        ((one two : ℕ) (rest : List AToken) →
        ¬ HasPair first.now second.now one two reader.old rest)
        (λ pair. HasPair first.now second.now pair.0 pair.1 reader.old reader.new) }
{
    let Some(one) = number_32(reader, first) else {
        return None;
    };
    let Some(two) = number_32(reader, second) else {
        return None;
    };
    Some((one, two))
}

/// Reads a member of this name whose value is a number from 0 to 4294967295.
fn number_32(reader: &mut Reader<'_>, name: &str) -> Option<u32>
    ensures { MatchOption result
        ((value : ℕ) (digits : List ℕ) (rest : List AToken) →
        reader.old ≡ number_member name.now digits ++ rest → ¬ IsNat32 digits value)
        (λ value. (digits : List ℕ) × IsNat32 digits value
        × (reader.old ≡ number_member name.now digits ++ reader.new)) }
{
    let Some(digits) = number(reader, name) else {
        return None;
    };
    u32::read(digits.as_bytes())
}

/// Reads a member of this name whose value is a string. Returns its text.
fn string<'a>(reader: &mut Reader<'a>, name: &str) -> Option<&'a str>
    ensures { MatchOption result
        ((text : List ℕ) (rest : List AToken) →
        ¬ (reader.old ≡ string_member name.now text ++ rest))
        (λ text. reader.old ≡ string_member name.now text.now ++ reader.new) }
{
    if !named(reader, name) {
        return None;
    }
    match reader.next() {
        Some(Token::String(text)) => Some(text),
        _ => None,
    }
}

/// Reads a member of this name whose value is a number. Returns its digits.
fn number<'a>(reader: &mut Reader<'a>, name: &str) -> Option<&'a str>
    ensures { MatchOption result
        ((digits : List ℕ) (rest : List AToken) →
        ¬ (reader.old ≡ number_member name.now digits ++ rest))
        (λ digits. reader.old ≡ number_member name.now digits.now ++ reader.new) }
{
    if !named(reader, name) {
        return None;
    }
    match reader.next() {
        Some(Token::Number(digits)) => Some(digits),
        _ => None,
    }
}

/// Returns whether a member of this name begins next.
fn named(reader: &mut Reader<'_>, name: &str) -> bool
    ensures { MatchBool result (reader.old ≡ key name.now ∷ reader.new)
        ((rest : List AToken) → ¬ (reader.old ≡ key name.now ∷ rest)) }
{
    matches!(reader.next(), Some(Token::Key(found)) if found == name)
}
