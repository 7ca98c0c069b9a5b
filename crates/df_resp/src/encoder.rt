//! Replies as bytes, as RESP2 has them.
//!
//! Each call appends a whole reply or nothing. Callers that have a reply's parts give them as they are,
//! so that no `Reply` is made of them.

ghost use Rattle.std.specs.Prelude.{◌≡◌, ◌++◌, ◌≤◌, length, decimal, codes, pos, OnOk, OnErr};
ghost use Rattle.std.specs.Fmt.{signed_decimal};
ghost use Rattle.df_model.specs.Replies.{encoding_of, crlf, text_of, protocol_error};
ghost use Rattle.df_model.specs.declared.reply.Reply.TheVariants.{Simple, Error as ErrorReply, Int, Bulk, NullBulk, NullArray};
ghost use Rattle.df_resp.specs.Appended.{GrowsBy};

use df_model::{BadKind, ErrorText, NoMemory, Reply};
use itoa::Buffer;

/// More bytes than a line's mark, a number and two line ends take together.
const ROOM_AROUND: usize = 32;

/// Appends the bytes of a reply.
pub fn encode(reply: &Reply, to: &mut Vec<u8>) -> Result<(), NoMemory>
    ensures ok { OnOk result (to.new.items ≡ to.old.items ++ encoding_of reply.now) }
    ensures err { OnErr result (to.new.items ≡ to.old.items) }
{
    let len = to.len();
    if let Err(refused) = push_reply(reply, to) {
        to.truncate(len);
        return Err(refused);
    }
    Ok(())
}

/// Appends a short text that has no line end, such as OK.
pub fn encode_simple(text: &[u8], to: &mut Vec<u8>) -> Result<(), NoMemory>
    ensures ok { OnOk result (to.new.items ≡ to.old.items ++ encoding_of (Simple text.now)) }
    ensures err { OnErr result (to.new.items ≡ to.old.items) }
{
    let len = to.len();
    if let Err(refused) = push_line(b"+", text, to) {
        to.truncate(len);
        return Err(refused);
    }
    Ok(())
}

/// Appends an error's text.
pub fn encode_error(error: &ErrorText, to: &mut Vec<u8>) -> Result<(), NoMemory>
    ensures ok { OnOk result (to.new.items ≡ to.old.items ++ encoding_of (ErrorReply error.now)) }
    ensures err { OnErr result (to.new.items ≡ to.old.items) }
{
    let len = to.len();
    if let Err(refused) = push_error(error, to) {
        to.truncate(len);
        return Err(refused);
    }
    Ok(())
}

/// Appends bytes of whatever kind.
pub fn encode_bulk(bytes: &[u8], to: &mut Vec<u8>) -> Result<(), NoMemory>
    ensures ok { OnOk result (to.new.items ≡ to.old.items ++ encoding_of (Bulk bytes.now)) }
    ensures err { OnErr result (to.new.items ≡ to.old.items) }
{
    let len = to.len();
    if let Err(refused) = push_bulk(bytes, to) {
        to.truncate(len);
        return Err(refused);
    }
    Ok(())
}

/// Appends what stands for a value that isn't there.
pub fn encode_null(to: &mut Vec<u8>) -> Result<(), NoMemory>
    ensures ok { OnOk result (to.new.items ≡ to.old.items ++ encoding_of NullBulk) }
    ensures err { OnErr result (to.new.items ≡ to.old.items) }
{
    to.extend_from_slice(b"$-1\r\n")?;
    Ok(())
}

/// Appends what stands for an array that isn't there.
pub fn encode_null_array(to: &mut Vec<u8>) -> Result<(), NoMemory>
    ensures ok { OnOk result (to.new.items ≡ to.old.items ++ encoding_of NullArray) }
    ensures err { OnErr result (to.new.items ≡ to.old.items) }
{
    to.extend_from_slice(b"*-1\r\n")?;
    Ok(())
}

/// Appends a number.
pub fn encode_int(n: i64, to: &mut Vec<u8>) -> Result<(), NoMemory>
    ensures ok { OnOk result (to.new.items ≡ to.old.items ++ encoding_of (Int n)) }
    ensures err { OnErr result (to.new.items ≡ to.old.items) }
{
    let len = to.len();
    if let Err(refused) = push_int(n, to) {
        to.truncate(len);
        return Err(refused);
    }
    Ok(())
}

/// Appends a count, as a number.
pub fn encode_count(n: usize, to: &mut Vec<u8>) -> Result<(), NoMemory>
    ensures ok { OnOk result (to.new.items ≡ to.old.items ++ encoding_of (Int (pos n))) }
    ensures err { OnErr result (to.new.items ≡ to.old.items) }
{
    let len = to.len();
    if let Err(refused) = push_count(b":", n, to) {
        to.truncate(len);
        return Err(refused);
    }
    Ok(())
}

/// Appends the line before the replies of an array, which says how many follow.
pub fn encode_array_head(n: usize, to: &mut Vec<u8>) -> Result<(), NoMemory>
    ensures ok { OnOk result (to.new.items ≡ to.old.items ++ (codes "*" ++ decimal n ++ crlf)) }
    ensures err { OnErr result (to.new.items ≡ to.old.items) }
{
    let len = to.len();
    if let Err(refused) = push_count(b"*", n, to) {
        to.truncate(len);
        return Err(refused);
    }
    Ok(())
}

/// Appends the last line of a session whose input is bad.
pub fn encode_protocol_error(kind: BadKind, to: &mut Vec<u8>) -> Result<(), NoMemory>
    ensures ok { OnOk result (to.new.items ≡ to.old.items ++ protocol_error kind) }
    ensures err { OnErr result (to.new.items ≡ to.old.items) }
{
    to.extend_from_slice(protocol_line(kind))?;
    Ok(())
}

fn protocol_line(kind: BadKind) -> &'static [u8]
    ensures { result.now ≡ protocol_error kind }
{
    match kind {
        BadKind::Start => b"-ERR Protocol error: bad start\r\n",
        BadKind::Count => b"-ERR Protocol error: bad count\r\n",
        BadKind::Length => b"-ERR Protocol error: bad length\r\n",
        BadKind::End => b"-ERR Protocol error: bad end\r\n",
    }
}

fn push_reply(reply: &Reply, to: &mut Vec<u8>) -> Result<(), NoMemory>
    ensures ok { OnOk result (to.new.items ≡ to.old.items ++ encoding_of reply.now) }
    ensures err { OnErr result (GrowsBy to.old.items to.new.items) }
{
    match reply {
        Reply::Simple(text) => push_line(b"+", text.as_slice(), to),
        Reply::Error(error) => push_error(error, to),
        Reply::Int(n) => push_int(*n, to),
        Reply::Bulk(bytes) => push_bulk(bytes.as_slice(), to),
        Reply::NullBulk => push_line(b"$", b"-1", to),
        Reply::NullArray => push_line(b"*", b"-1", to),
        Reply::Array(replies) => {
            push_count(b"*", replies.len(), to)?;
            'inner: for inner in replies.as_slice() {
                push_reply(inner, to)?;
            }
            Ok(())
        }
    }
}

fn push_bulk(bytes: &[u8], to: &mut Vec<u8>) -> Result<(), NoMemory>
    ensures ok { OnOk result (to.new.items ≡ to.old.items ++ (codes "$" ++ decimal (length bytes.now) ++ crlf ++ bytes.now ++ crlf)) }
    ensures err { OnErr result (GrowsBy to.old.items to.new.items) }
{
    // The buffer grows at most once, and before a byte is copied.
    to.reserve(bytes.len() + ROOM_AROUND)?;
    push_count(b"$", bytes.len(), to)?;
    to.extend_from_slice(bytes)?;
    to.extend_from_slice(b"\r\n")?;
    Ok(())
}

fn push_int(n: i64, to: &mut Vec<u8>) -> Result<(), NoMemory>
    ensures ok { OnOk result (to.new.items ≡ to.old.items ++ (codes ":" ++ signed_decimal n ++ crlf)) }
    ensures err { OnErr result (GrowsBy to.old.items to.new.items) }
{
    let mut buffer = Buffer::new();
    push_line(b":", buffer.format(n).as_bytes(), to)
}

fn push_count(mark: &[u8], n: usize, to: &mut Vec<u8>) -> Result<(), NoMemory>
    ensures ok { OnOk result (to.new.items ≡ to.old.items ++ (mark.now ++ decimal n ++ crlf)) }
    ensures err { OnErr result (GrowsBy to.old.items to.new.items) }
{
    let mut buffer = Buffer::new();
    push_line(mark, buffer.format(n).as_bytes(), to)
}

fn push_line(mark: &[u8], text: &[u8], to: &mut Vec<u8>) -> Result<(), NoMemory>
    ensures ok { OnOk result (to.new.items ≡ to.old.items ++ (mark.now ++ text.now ++ crlf)) }
    ensures err { OnErr result (GrowsBy to.old.items to.new.items) }
{
    to.extend_from_slice(mark)?;
    to.extend_from_slice(text)?;
    to.extend_from_slice(b"\r\n")?;
    Ok(())
}

fn push_error(error: &ErrorText, to: &mut Vec<u8>) -> Result<(), NoMemory>
    ensures ok { OnOk result (to.new.items ≡ to.old.items ++ (codes "-" ++ text_of error.now ++ crlf)) }
    ensures err { OnErr result (GrowsBy to.old.items to.new.items) }
{
    match error {
        ErrorText::WrongKind => push_line(
            b"-",
            b"WRONGTYPE Operation against a key holding the wrong kind of value",
            to,
        ),
        ErrorText::NotInteger => push_line(
            b"-",
            b"ERR value is not an integer or out of range",
            to,
        ),
        ErrorText::Overflow => push_line(b"-", b"ERR increment or decrement would overflow", to),
        ErrorText::HashNotInteger => push_line(b"-", b"ERR hash value is not an integer", to),
        ErrorText::NoSuchKey => push_line(b"-", b"ERR no such key", to),
        ErrorText::IndexRange => push_line(b"-", b"ERR index out of range", to),
        ErrorText::OffsetRange => push_line(b"-", b"ERR offset is out of range", to),
        ErrorText::Syntax => push_line(b"-", b"ERR syntax error", to),
        ErrorText::Arity(name) => push_arity(name.as_slice(), to),
        ErrorText::Unknown => push_line(b"-", b"ERR unknown command", to),
        ErrorText::Nested => push_line(b"-", b"ERR MULTI calls can not be nested", to),
        ErrorText::ExecAlone => push_line(b"-", b"ERR EXEC without MULTI", to),
        ErrorText::DiscardAlone => push_line(b"-", b"ERR DISCARD without MULTI", to),
        ErrorText::Aborted => push_line(
            b"-",
            b"EXECABORT Transaction discarded because of previous errors.",
            to,
        ),
        ErrorText::NotInside => push_line(
            b"-",
            b"ERR command not allowed inside a transaction",
            to,
        ),
        ErrorText::TooQueued => push_line(b"-", b"ERR too many queued commands", to),
        ErrorText::TooLong => push_line(b"-", b"ERR string exceeds maximum allowed size", to),
        ErrorText::DbIndex => push_line(b"-", b"ERR DB index is out of range", to),
        ErrorText::SaveFailed => push_line(b"-", b"ERR save failed", to),
        ErrorText::Memory => push_line(b"-", b"OOM out of memory", to),
        ErrorText::TooMany => push_line(b"-", b"ERR max number of clients reached", to),
    }
}

/// The one text that names something: the command.
fn push_arity(name: &[u8], to: &mut Vec<u8>) -> Result<(), NoMemory>
    ensures ok { OnOk result (to.new.items ≡ to.old.items ++ (codes "-" ++ (codes "ERR wrong number of arguments for '" ++ name.now ++ codes "' command") ++ crlf)) }
    ensures err { OnErr result (GrowsBy to.old.items to.new.items) }
{
    to.extend_from_slice(b"-ERR wrong number of arguments for '")?;
    to.extend_from_slice(name)?;
    to.extend_from_slice(b"' command")?;
    to.extend_from_slice(b"\r\n")?;
    Ok(())
}
