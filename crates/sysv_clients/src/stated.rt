//! The messages that lines state: each line is a body, or a JSON object with a type and a body.
ghost use Rattle.std.specs.Prelude.{◌≡◌, ◌<◌, ◌≤◌, ◌∷◌, [], ◌++◌, ℕ, ℤ, List, IfOk, MatchOption, length};
ghost use Rattle.std.specs.Bool.{MatchBool};
ghost use Rattle.json.specs.Token.{Token as AToken, begin_object, end_object};
ghost use Rattle.sysv_clients.specs.Stated.{AreMembers, HasNoMember, HasNoMembers, IsObjectOf, StatesBody, body_tokens, member_tokens};

use crate::words::type_of;
use base64::DecodeAllocError;
use base64::engine::general_purpose::STANDARD;
use json::{Reader, Scratch, Token};
use std::alloc::Global;
use std::str;
use sysv_model::{Body, MESSAGE_BYTES, NoMemory};

/// The maximum number of bytes in a line that is a JSON object. In the one of a message each byte
/// of the body takes at most six.
pub const OBJECT_BYTES: usize = 65_536;

/// A body as an object states it.
#[derive(Clone, Copy, Drop)]
enum Stated<'a> {
    /// A string.
    Text(&'a str),
    /// A string in base64.
    Coded(&'a str),
}

/// A member of an object that states a message.
#[derive(Clone, Copy, Drop)]
enum Part<'a> {
    /// The type, a number.
    Digits(&'a str),
    /// The body.
    Body(Stated<'a>),
}

/// The members of an object that states a message.
#[derive(Clone, Copy, Drop)]
struct Members<'a> {
    /// The type, a number.
    digits: &'a str,
    /// The body.
    body: Stated<'a>,
}

/// Reads the message that a line states, which is a JSON object. Its body is then in `text`.
/// Returns its type, or `None` if the line states no message.
///
/// # Errors
///
/// - `NoMemory` if memory for the line is refused.
pub(crate) fn read_object(
    alloc: Global,
    line: &[u8],
    scratch: &mut Scratch,
    text: &mut Body,
) -> Result<Option<i64>, NoMemory>
    ensures { IfOk result (λ found. MatchOption found
        ((mtype : ℤ) (body : List ℕ) → ¬ IsObjectOf line.now mtype body)
        (λ mtype. IsObjectOf line.now mtype text.new)) }
{
    let Ok(line) = str::from_utf8(line) else {
        return Ok(None);
    };
    let Ok(mut reader) = Reader::new(line, scratch) else {
        return Err(NoMemory);
    };
    let Some(members) = members_in(&mut reader) else {
        return Ok(None);
    };
    let Some(mtype) = type_of(members.digits.as_bytes()) else {
        return Ok(None);
    };
    match put_body(alloc, members.body, text) {
        Ok(true) => Ok(Some(mtype)),
        Ok(false) => Ok(None),
        Err(NoMemory) => Err(NoMemory),
    }
}

/// Reads the members of an object that states a message, which are all that the reader has.
fn members_in<'a>(reader: &mut Reader<'a>) -> Option<Members<'a>>
    ensures { MatchOption result (HasNoMembers reader.old) (AreMembers reader.old) }
{
    if !opens(reader) {
        return None;
    }
    let Some(first) = member(reader) else {
        return None;
    };
    let Some(second) = member(reader) else {
        return None;
    };
    if !closes(reader) {
        return None;
    }
    match (first, second) {
        (Part::Digits(digits), Part::Body(body)) => Some(Members { digits, body }),
        (Part::Body(body), Part::Digits(digits)) => Some(Members { digits, body }),
        _ => None,
    }
}

/// Returns whether an object begins next.
pub(crate) fn opens(reader: &mut Reader<'_>) -> bool
    ensures { MatchBool result (reader.old ≡ begin_object ∷ reader.new)
        ((rest : List AToken) → ¬ (reader.old ≡ begin_object ∷ rest)) }
{
    matches!(reader.next(), Some(Token::BeginObject))
}

/// Returns whether an object ends next, and nothing follows.
pub(crate) fn closes(reader: &mut Reader<'_>) -> bool
    ensures { MatchBool result (reader.old ≡ end_object ∷ []) (¬ (reader.old ≡ end_object ∷ [])) }
{
    matches!(reader.next(), Some(Token::EndObject)) && reader.next().is_none()
}

/// Reads a member of an object that states a message.
fn member<'a>(reader: &mut Reader<'a>) -> Option<Part<'a>>
    ensures { MatchOption result (HasNoMember reader.old)
        (λ member. reader.old ≡ member_tokens member ++ reader.new) }
{
    let Some(Token::Key(name)) = reader.next() else {
        return None;
    };
    match name {
        "type" => match reader.next() {
            Some(Token::Number(digits)) => Some(Part::Digits(digits)),
            _ => None,
        },
        "body" => match reader.next() {
            Some(Token::String(text)) => Some(Part::Body(Stated::Text(text))),
            _ => None,
        },
        "base64" => match reader.next() {
            Some(Token::String(text)) => Some(Part::Body(Stated::Coded(text))),
            _ => None,
        },
        _ => None,
    }
}

/// Puts the body that an object states into `text`. Returns false if it states none, or one that is
/// too long for a message. Fails with `NoMemory` if memory for it is refused.
fn put_body(alloc: Global, body: Stated<'_>, text: &mut Body) -> Result<bool, NoMemory>
    ensures { IfOk result (λ is_put. MatchBool is_put
        (StatesBody (body_tokens body.entry) text.new × (length text.new ≤ MESSAGE_BYTES))
        ((other : List ℕ) → StatesBody (body_tokens body.entry) other
        → MESSAGE_BYTES < length other)) }
{
    match body {
        Stated::Text(plain) => Ok(put(plain.as_bytes(), text)),
        Stated::Coded(coded) => match STANDARD.decode(alloc, coded.as_bytes()) {
            Ok(bytes) => Ok(put(&bytes, text)),
            Err(DecodeAllocError::OutOfMemory) => Err(NoMemory),
            Err(DecodeAllocError::DecodeError(_)) => Ok(false),
        },
    }
}

/// Makes these bytes the body, and returns true. Returns false if they are too many for a message.
fn put(bytes: &[u8], text: &mut Body) -> bool
    ensures { MatchBool result ((text.new ≡ bytes.now) × (length text.new ≤ MESSAGE_BYTES))
        (MESSAGE_BYTES < length bytes.now) }
{
    if bytes.len() > MESSAGE_BYTES {
        return false;
    }
    text.clear();
    text.push_piece(bytes)
}
