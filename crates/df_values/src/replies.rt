//! Replies, each written straight to where it stays.
//!
//! The two kinds that most commands answer with are compiled into their callers, which saves a tenth of a GET's
//! instructions (docs/PERFORMANCE.md).

ghost use Rattle.std.specs.Prelude.{◌≡◌, ◌++◌, codes, decimal, pos, length, ◌<◌, OnOk};
ghost use Rattle.std.specs.Bool.{OnTrue, OnFalse};
ghost use Rattle.df_model.specs.Outcomes as outcomes;
ghost use Rattle.df_model.specs.Replies.{encoding_of, crlf};
ghost use Rattle.df_model.specs.declared.reply.Reply.TheVariants.{Simple, Error as ErrorReply, Int, Bulk, NullBulk, NullArray};

use crate::Pieces;
use crate::pieces::{Body, moved};
use crate::short::{ROOM, Short};
use df_model::{ErrorText, NoMemory};
use itoa::Buffer;

/// The bytes of a bulk beside its own and those of its length: a mark and two line ends.
const AROUND_BULK: usize = 5;

/// The bytes of a line beside its text: a mark and the line end.
const AROUND_LINE: usize = 3;

impl Pieces {
    /// Adds a short text that has no line end, such as OK. Where memory runs out, nothing is said of what stands.
    pub fn add_simple(&mut self, text: &[u8]) -> Result<(), NoMemory>
        ensures { OnOk result (self.new ≡ self.old ++ encoding_of (Simple text.now)) }
    {
        self.add_line(b"+", text)
    }

    /// Adds an error.
    pub fn add_error(&mut self, error: &ErrorText) -> Result<(), NoMemory>
        ensures { OnOk result (self.new ≡ self.old ++ encoding_of (ErrorReply error.now)) }
    {
        match &mut self.body {
            Body::Here(short, alloc) => {
                let mut rest = moved(short, *alloc, ROOM)?;
                rest.add_error(error)?;
                self.body = Body::Away(rest);
                Ok(())
            }
            Body::Away(rest) => rest.add_error(error),
        }
    }

    /// Adds a number.
    pub fn add_int(&mut self, n: i64) -> Result<(), NoMemory>
        ensures { OnOk result (self.new ≡ self.old ++ encoding_of (Int n)) }
    {
        let mut buffer = Buffer::new();
        self.add_line(b":", buffer.format(n).as_bytes())
    }

    /// Adds a count, as a number.
    pub fn add_count(&mut self, n: usize) -> Result<(), NoMemory>
        ensures { OnOk result (self.new ≡ self.old ++ encoding_of (outcomes.count n)) }
    {
        let mut buffer = Buffer::new();
        self.add_line(b":", buffer.format(n).as_bytes())
    }

    /// Adds bytes of whatever kind.
    #[inline(always)]
    pub fn add_bulk(&mut self, bytes: &[u8]) -> Result<(), NoMemory>
        ensures { OnOk result (self.new ≡ self.old ++ encoding_of (Bulk bytes.now)) }
    {
        match &mut self.body {
            Body::Here(short, alloc) => {
                if bytes.len() < ROOM && add_in_place(short, bytes) {
                    return Ok(());
                }
                let mut rest = moved(short, *alloc, bytes.len())?;
                rest.add_bulk(bytes)?;
                self.body = Body::Away(rest);
                Ok(())
            }
            Body::Away(rest) => rest.add_bulk(bytes),
        }
    }

    /// Adds what stands for a value that isn't there.
    pub fn add_null(&mut self) -> Result<(), NoMemory>
        ensures { OnOk result (self.new ≡ self.old ++ encoding_of NullBulk) }
    {
        self.add(b"$-1\r\n")
    }

    /// Adds what stands for an array that isn't there.
    pub fn add_null_array(&mut self) -> Result<(), NoMemory>
        ensures { OnOk result (self.new ≡ self.old ++ encoding_of NullArray) }
    {
        self.add(b"*-1\r\n")
    }

    /// Adds the line before the replies of an array, which says how many follow.
    pub fn add_array_head(&mut self, n: usize) -> Result<(), NoMemory>
        ensures { OnOk result (self.new ≡ self.old ++ (codes "*" ++ decimal n ++ crlf)) }
    {
        let mut buffer = Buffer::new();
        self.add_line(b"*", buffer.format(n).as_bytes())
    }

    #[inline(always)]
    fn add_line(&mut self, mark: &[u8], text: &[u8]) -> Result<(), NoMemory>
        requires { length mark.now ≡ 1 }
        ensures { OnOk result (self.new ≡ self.old ++ (mark.now ++ text.now ++ crlf)) }
    {
        match &mut self.body {
            Body::Here(short, alloc) => {
                if text.len() < ROOM && text.len() + AROUND_LINE <= short.room() {
                    short.add_line(mark, text);
                    return Ok(());
                }
                let mut rest = moved(short, *alloc, text.len())?;
                rest.add_line(mark, text)?;
                self.body = Body::Away(rest);
                Ok(())
            }
            Body::Away(rest) => rest.add_line(mark, text),
        }
    }
}

/// Adds a bulk in place, where it finds room there.
fn add_in_place(short: &mut Short, bytes: &[u8]) -> bool
    requires { length bytes.now < 62 }
    ensures there { OnTrue result (short.new ≡ short.old ++ encoding_of (Bulk bytes.now)) }
    ensures not_there { OnFalse result (short.new ≡ short.old) }
{
    let mut buffer = Buffer::new();
    let digits = buffer.format(bytes.len()).as_bytes();
    if digits.len() + bytes.len() + AROUND_BULK > short.room() {
        return false;
    }
    short.add_bulk(digits, bytes);
    true
}

// A reply in place of what stood there.
impl Pieces {
    /// One line of text, as a status. Where memory runs out, here and in all that follow, nothing is said of what stands.
    #[inline(always)]
    pub fn put_simple(&mut self, text: &[u8]) -> Result<(), NoMemory>
        ensures { OnOk result (self.new ≡ encoding_of (Simple text.now)) }
    {
        self.clear();
        self.add_simple(text)
    }

    /// OK.
    pub fn put_ok(&mut self) -> Result<(), NoMemory>
        ensures { OnOk result (self.new ≡ encoding_of outcomes.ok) }
    {
        self.put_simple(b"OK")
    }

    /// An error's line.
    pub fn put_error(&mut self, error: &ErrorText) -> Result<(), NoMemory>
        ensures { OnOk result (self.new ≡ encoding_of (ErrorReply error.now)) }
    {
        self.clear();
        self.add_error(error)
    }

    /// A number.
    pub fn put_int(&mut self, n: i64) -> Result<(), NoMemory>
        ensures { OnOk result (self.new ≡ encoding_of (Int n)) }
    {
        self.clear();
        self.add_int(n)
    }

    /// A count, as a number.
    pub fn put_count(&mut self, n: usize) -> Result<(), NoMemory>
        ensures { OnOk result (self.new ≡ encoding_of (outcomes.count n)) }
    {
        self.clear();
        self.add_count(n)
    }

    /// A count, as a number. It stands in place whatever stood before, and takes no memory.
    pub fn put_count_in_place(&mut self, n: usize)
        ensures { self.new ≡ encoding_of (outcomes.count n) }
    {
        let mut buffer = Buffer::new();
        let mut short = Short::new();
        short.add_line(b":", buffer.format(n).as_bytes());
        self.body = Body::Here(short, self.alloc());
    }

    /// A byte string with its length in front.
    #[inline(always)]
    pub fn put_bulk(&mut self, bytes: &[u8]) -> Result<(), NoMemory>
        ensures { OnOk result (self.new ≡ encoding_of (Bulk bytes.now)) }
    {
        self.clear();
        self.add_bulk(bytes)
    }

    /// What stands for a value that isn't there.
    pub fn put_null(&mut self) -> Result<(), NoMemory>
        ensures { OnOk result (self.new ≡ encoding_of NullBulk) }
    {
        self.clear();
        self.add_null()
    }

    /// What stands for an array that isn't there.
    pub fn put_null_array(&mut self) -> Result<(), NoMemory>
        ensures { OnOk result (self.new ≡ encoding_of NullArray) }
    {
        self.clear();
        self.add_null_array()
    }

    /// The line before the replies of an array, which says how many are to be added behind it.
    pub fn put_array_head(&mut self, n: usize) -> Result<(), NoMemory>
        ensures { OnOk result (self.new ≡ codes "*" ++ decimal n ++ crlf) }
    {
        self.clear();
        self.add_array_head(n)
    }
}
