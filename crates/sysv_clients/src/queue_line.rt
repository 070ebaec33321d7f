//! The lines that clients print of a queue: a line of the table, a JSON object, an identifier, or
//! all attributes.
ghost use Rattle.std.specs.Prelude.{◌≡◌, ◌+◌, ◌-◌, ◌≤◌, ◌<◌, [], ◌∷◌, ◌++◌, ℕ, codes, length, max};
ghost use Rattle.sysv_clients.specs.Table.{column, glyph, hex_byte, key_text, mode_text, row_line};
ghost use Rattle.sysv_clients.specs.Queue.{count_lines, field_line, id_line, json_counts, json_line, json_owner, owner_lines, stat_lines, time_lines};
ghost use Rattle.sysv_clients.specs.Saved.{number_text, queue_text, saved_counts, saved_perm};

use itoa::{Buffer, Integer};
use std::marker::Model;
use sysv_model::{Perm, Row, Stat};

/// The maximum number of bytes that are printed of a queue: those of all its attributes.
pub(crate) const MAX_LINE: usize = 256;

/// The number of spaces in the widest column.
const SPACES: [u8; 10] = [b' '; 10];

/// Lines that are collected in memory of a fixed size.
#[derive(Drop)]
pub(crate) struct Line {
    bytes: [u8; MAX_LINE],
    len: usize,
}

impl Model for Line {
    ghost use Rattle.std.specs.Prelude.{List, ℕ, ◌≤◌, take};

    ghost Value = { List ℕ };

    ghost view = { λ line. take line.len line.bytes };

    ghost invariant = { λ line. line.len ≤ 256 };
}

impl Line {
    /// Returns an empty line.
    pub(crate) fn new() -> Line
        ensures { result ≡ [] }
    {
        Line {
            bytes: [0; MAX_LINE],
            len: 0,
        }
    }

    /// Returns all bytes appended so far.
    pub(crate) fn bytes(&self) -> &[u8]
        ensures bytes { result.now ≡ self.now }
        ensures most { length result.now ≤ MAX_LINE }
    {
        &self.bytes[..self.len]
    }

    /// Appends bytes.
    fn put(&mut self, piece: &[u8])
        requires { length self.old + length piece.now ≤ MAX_LINE }
        ensures after { self.new ≡ self.old ++ piece.now }
        ensures len { length self.new ≡ length self.old + length piece.now }
    {
        let end = self.len + piece.len();
        self.bytes[self.len..end].copy_from_slice(piece);
        self.len = end;
    }
}

impl Line {
    /// Writes the columns of a row and an LF on an empty line.
    #[tactic(auto, using(std::proofs::Common::append_assoc), unfolding(crate::specs::Table::row_line))]
    pub(crate) fn row(&mut self, row: &Row)
        requires { length self.old ≡ 0 }
        ensures { self.new ≡ self.old ++ row_line row.now }
    {
        self.key(row.key);
        self.number(10, row.id);
        self.number(10, row.uid);
        self.mode(row.mode);
        self.number(6, row.cbytes);
        self.number(8, row.qnum);
        self.put(b"\n");
    }

    /// Appends a key as `0x` and eight hexadecimal digits.
    #[tactic(auto, using(std::proofs::Common::append_assoc), unfolding(crate::specs::Table::key_text))]
    fn key(&mut self, key: i32)
        requires { length self.old + 10 ≤ MAX_LINE }
        ensures after { self.new ≡ self.old ++ key_text key }
        ensures len { length self.new ≡ length self.old + 10 }
    {
        self.put(b"0x");
        let [a, b, c, d] = key.to_be_bytes();
        self.byte(a);
        self.byte(b);
        self.byte(c);
        self.byte(d);
    }

    /// Appends a byte as two hexadecimal digits.
    fn byte(&mut self, byte: u8)
        requires { length self.old + 2 ≤ MAX_LINE }
        ensures after { self.new ≡ self.old ++ hex_byte byte }
        ensures len { length self.new ≡ length self.old + 2 }
    {
        self.put(&[hex_digit(byte / 16), hex_digit(byte % 16)]);
    }

    /// Appends a space, and then a number right-aligned in a column.
    fn number<I: Integer>(&mut self, width: usize, number: I)
        requires width { width ≤ 10 }
        requires most { I.MAX_STR_LEN ≤ 11 }
        requires room { length self.old + 1 + max width I.MAX_STR_LEN ≤ MAX_LINE }
        ensures after { self.new ≡ self.old ++ column width (I.text number) }
        ensures len { length self.new ≤ length self.old + 1 + max width I.MAX_STR_LEN }
    {
        let mut buffer = Buffer::new();
        let text = buffer.format(number);
        self.column(width, text.as_bytes());
    }

    /// Appends a number.
    fn digits<I: Integer>(&mut self, number: I)
        requires { length self.old + I.MAX_STR_LEN ≤ MAX_LINE }
        ensures after { self.new ≡ self.old ++ I.text number }
        ensures len { length self.new ≤ length self.old + I.MAX_STR_LEN }
    {
        let mut buffer = Buffer::new();
        self.put(buffer.format(number).as_bytes());
    }

    /// Appends a space, and then `text` right-aligned in a column.
    #[tactic(auto, using(std::proofs::Common::append_assoc), unfolding(crate::specs::Table::column))]
    fn column(&mut self, width: usize, text: &[u8])
        requires width { width ≤ 10 }
        requires room { length self.old + 1 + max width (length text.now) ≤ MAX_LINE }
        ensures after { self.new ≡ self.old ++ column width text.now }
        ensures len { length self.new ≡ length self.old + 1 + max width (length text.now) }
    {
        self.put(b" ");
        self.put(&SPACES[..width.saturating_sub(text.len())]);
        self.put(text);
    }

    /// Appends a space, and then the mode as three octal digits, right-aligned in their column.
    fn mode(&mut self, mode: u16)
        requires { length self.old + 6 ≤ MAX_LINE }
        ensures after { self.new ≡ self.old ++ column 5 (mode_text mode) }
        ensures len { length self.new ≡ length self.old + 6 }
    {
        self.column(5, &octal_digits(mode));
    }
}

impl Line {
    /// Writes the JSON object of a row and an LF on an empty line.
    #[tactic(auto, using(std::proofs::Common::append_assoc), unfolding(crate::specs::Queue::json_line))]
    pub(crate) fn json(&mut self, row: &Row)
        requires { length self.old ≡ 0 }
        ensures { self.new ≡ self.old ++ json_line row.now }
    {
        self.put(b"{\"key\":\"");
        self.key(row.key);
        self.put(b"\",\"msqid\":");
        self.digits(row.id);
        self.json_owner(row);
        self.json_counts(row);
    }

    /// Appends the owner and the mode of a JSON object.
    #[tactic(auto, using(std::proofs::Common::append_assoc), unfolding(crate::specs::Queue::json_owner))]
    fn json_owner(&mut self, row: &Row)
        requires { length self.old + 32 ≤ MAX_LINE }
        ensures after { self.new ≡ self.old ++ json_owner row.now }
        ensures len { length self.new ≤ length self.old + 32 }
    {
        self.put(b",\"owner\":");
        self.digits(row.uid);
        self.put(b",\"perms\":\"");
        self.put(&octal_digits(row.mode));
    }

    /// Appends the counts of a JSON object, its end and an LF.
    #[tactic(auto, using(std::proofs::Common::append_assoc), unfolding(crate::specs::Queue::json_counts))]
    fn json_counts(&mut self, row: &Row)
        requires { length self.old + 44 ≤ MAX_LINE }
        ensures after { self.new ≡ self.old ++ json_counts row.now }
        ensures len { length self.new ≤ length self.old + 44 }
    {
        self.put(b"\",\"bytes\":");
        self.digits(row.cbytes);
        self.put(b",\"messages\":");
        self.digits(row.qnum);
        self.put(b"}\n");
    }

    /// Writes the line of a queue in a file, and an LF, on an empty line.
    #[tactic(auto, using(std::proofs::Common::append_assoc), unfolding(crate::specs::Saved::queue_text))]
    pub(crate) fn saved(&mut self, id: i32, stat: &Stat)
        requires { length self.old ≡ 0 }
        ensures { self.new ≡ self.old ++ queue_text id stat.now }
    {
        self.put(b"{\"key\":\"");
        self.key(stat.key);
        self.put(b"\",\"msqid\":");
        self.digits(id);
        self.saved_perm(&stat.perm);
        self.saved_counts(stat);
    }

    /// Appends the owner, the creator and the mode of a queue in a file.
    #[tactic(auto, using(std::proofs::Common::append_assoc), unfolding(crate::specs::Saved::saved_perm))]
    fn saved_perm(&mut self, perm: &Perm)
        requires { length self.old + 87 ≤ MAX_LINE }
        ensures after { self.new ≡ self.old ++ saved_perm perm.now }
        ensures len { length self.new ≤ length self.old + 87 }
    {
        self.member(b",\"uid\":", perm.uid);
        self.member(b",\"gid\":", perm.gid);
        self.member(b",\"cuid\":", perm.cuid);
        self.member(b",\"cgid\":", perm.cgid);
        self.put(b",\"perms\":\"");
        self.put(&octal_digits(perm.mode));
    }

    /// Appends the limit and the counts of a queue in a file, the end of its object and an LF.
    #[tactic(auto, using(std::proofs::Common::append_assoc), unfolding(crate::specs::Saved::saved_counts))]
    fn saved_counts(&mut self, stat: &Stat)
        requires { length self.old + 66 ≤ MAX_LINE }
        ensures after { self.new ≡ self.old ++ saved_counts stat.now }
        ensures len { length self.new ≤ length self.old + 66 }
    {
        self.member(b"\",\"qbytes\":", stat.qbytes);
        self.member(b",\"bytes\":", stat.cbytes);
        self.member(b",\"messages\":", stat.qnum);
        self.put(b"}\n");
    }

    /// Appends a member whose value is a number, from what is before it on.
    #[tactic(auto, using(std::proofs::Common::append_assoc), unfolding(crate::specs::Saved::number_text))]
    fn member<I: Integer>(&mut self, name: &[u8], number: I)
        requires { length self.old + length name.now + I.MAX_STR_LEN ≤ MAX_LINE }
        ensures after { self.new ≡ self.old ++ number_text name.now (I.text number) }
        ensures len { length self.new ≤ length self.old + length name.now + I.MAX_STR_LEN }
    {
        self.put(name);
        self.digits(number);
    }

    /// Writes an identifier and an LF on an empty line.
    #[tactic(auto, using(std::proofs::Common::append_assoc))]
    pub(crate) fn id(&mut self, id: i32)
        requires { length self.old ≡ 0 }
        ensures { self.new ≡ self.old ++ id_line id }
    {
        self.digits(id);
        self.put(b"\n");
    }
}

impl Line {
    /// Writes all attributes of a queue, one per line, on an empty line.
    #[tactic(auto, using(std::proofs::Common::append_assoc), unfolding(crate::specs::Queue::stat_lines))]
    pub(crate) fn stat(&mut self, stat: &Stat)
        requires { length self.old ≡ 0 }
        ensures { self.new ≡ self.old ++ stat_lines stat.now }
    {
        self.put(b"key ");
        self.key(stat.key);
        self.put(b"\n");
        self.owner(&stat.perm);
        self.counts(stat);
        self.times(stat);
    }

    /// Appends the owner, the creator and the mode.
    #[tactic(auto, using(std::proofs::Common::append_assoc), unfolding(crate::specs::Queue::owner_lines))]
    fn owner(&mut self, perm: &Perm)
        requires { length self.old + 71 ≤ MAX_LINE }
        ensures after { self.new ≡ self.old ++ owner_lines perm.now }
        ensures len { length self.new ≤ length self.old + 71 }
    {
        self.field(b"uid ", perm.uid);
        self.field(b"gid ", perm.gid);
        self.field(b"cuid ", perm.cuid);
        self.field(b"cgid ", perm.cgid);
        self.put(b"mode ");
        self.put(&octal_digits(perm.mode));
        self.put(b"\n");
    }

    /// Appends the counts, the limit and the last callers.
    #[tactic(auto, using(std::proofs::Common::append_assoc), unfolding(crate::specs::Queue::count_lines))]
    fn counts(&mut self, stat: &Stat)
        requires { length self.old + 86 ≤ MAX_LINE }
        ensures after { self.new ≡ self.old ++ count_lines stat.now }
        ensures len { length self.new ≤ length self.old + 86 }
    {
        self.field(b"cbytes ", stat.cbytes);
        self.field(b"qnum ", stat.qnum);
        self.field(b"qbytes ", stat.qbytes);
        self.field(b"lspid ", stat.lspid);
        self.field(b"lrpid ", stat.lrpid);
    }

    /// Appends the times.
    #[tactic(auto, using(std::proofs::Common::append_assoc), unfolding(crate::specs::Queue::time_lines))]
    fn times(&mut self, stat: &Stat)
        requires { length self.old + 81 ≤ MAX_LINE }
        ensures after { self.new ≡ self.old ++ time_lines stat.now }
        ensures len { length self.new ≤ length self.old + 81 }
    {
        self.field(b"stime ", stat.stime);
        self.field(b"rtime ", stat.rtime);
        self.field(b"ctime ", stat.ctime);
    }

    /// Appends a line of a name and a number.
    #[tactic(auto, using(std::proofs::Common::append_assoc), unfolding(crate::specs::Queue::field_line))]
    fn field<I: Integer>(&mut self, name: &[u8], number: I)
        requires { length self.old + length name.now + I.MAX_STR_LEN + 1 ≤ MAX_LINE }
        ensures after { self.new ≡ self.old ++ field_line name.now (I.text number) }
        ensures len { length self.new ≤ length self.old + length name.now + I.MAX_STR_LEN + 1 }
    {
        self.put(name);
        self.digits(number);
        self.put(b"\n");
    }
}

/// Returns the three octal digits of a mode's low nine bits.
fn octal_digits(mode: u16) -> [u8; 3]
    ensures { result ≡ mode_text mode }
{
    [
        b'0' + (mode / 64 % 8) as u8,
        b'0' + (mode / 8 % 8) as u8,
        b'0' + (mode % 8) as u8,
    ]
}

/// Returns the hexadecimal digit of a number below 16.
pub(crate) fn hex_digit(number: u8) -> u8
    requires { number < 16 }
    ensures { result ≡ glyph number }
{
    if number < 10 {
        b'0' + number
    } else {
        b'a' - 10 + number
    }
}
