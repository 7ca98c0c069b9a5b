//! What no clause says: that the definitions are RESP2's, and that each call can succeed.

use df_model::{BadKind, Bin, ErrorText, NoMemory, Replies, Reply};
use df_resp::{Next, Reader, encode, encode_bulk, encode_error, encode_null, encode_simple};
use std::alloc::Global;
use std::test::Fail;

/// Gives the words of the requests that are whole, a `|` behind each and a `;` behind the last, and the
/// end where the stream is bad.
fn drain(reader: &mut Reader, to: &mut Vec<u8>) -> Result<Option<(BadKind, u64)>, Fail> {
    'requests: for _ in 0..100 {
        match reader.next()? {
            Next::Words(words) => {
                'words: for word in words.as_slice() {
                    to.extend_from_slice(word.as_slice())?;
                    to.push(b'|')?;
                }
                to.push(b';')?;
            }
            Next::NeedMore => return Ok(None),
            Next::Bad { kind, at } => return Ok(Some((kind, at))),
        }
    }
    Ok(None)
}

/// What is drained of a stream that comes in pieces, with a `!` where it is bad.
fn given_in(alloc: Global, pieces: &[&[u8]]) -> Result<Vec<u8>, Fail> {
    let mut reader = Reader::new(alloc);
    let mut given = Vec::new(alloc);
    'pieces: for piece in pieces {
        reader.feed(piece)?;
        if drain(&mut reader, &mut given)?.is_some() {
            given.push(b'!')?;
        }
    }
    Ok(given)
}

fn given_bytewise(alloc: Global, bytes: &[u8]) -> Result<Vec<u8>, Fail> {
    let mut reader = Reader::new(alloc);
    let mut given = Vec::new(alloc);
    'bytes: for byte in bytes {
        reader.feed(&[*byte])?;
        if drain(&mut reader, &mut given)?.is_some() {
            given.push(b'!')?;
        }
    }
    Ok(given)
}

#[test]
fn a_stream_may_be_cut_anywhere(rt: HostRuntime) -> Result<(), Fail> {
    let bytes =
        b"*3\r\n$3\r\nSET\r\n$1\r\na\r\n$4\r\n\r\n*1\r\n*1\r\n$4\r\nPING\r\n*0\r\n*-1\r\n*2\r\n$3\r\nGET\r\n$0\r\n\r\n".as_slice();
    let want = b"SET|a|\r\n*1|;PING|;GET||;".as_slice();
    'cuts: for cut in 0..bytes.len() + 1 {
        let given = given_in(rt.alloc(), &[&bytes[..cut], &bytes[cut..]])?;
        assert_eq!(rt; given.as_slice(), want, "cut at {cut}");
    }
    let given = given_bytewise(rt.alloc(), bytes)?;
    assert_eq!(rt; given.as_slice(), want, "byte by byte");
    Ok(())
}

#[test]
fn bad_input_has_a_kind_and_a_place(rt: HostRuntime) -> Result<(), Fail> {
    let (start, count, length, end) = (
        BadKind::Start,
        BadKind::Count,
        BadKind::Length,
        BadKind::End,
    );
    for (bytes, want) in [
        // The limits, and one more.
        (b"*1048576\r\n".as_slice(), None),
        (b"*1048577\r\n".as_slice(), Some((count, 7))),
        (b"*1\r\n$536870912\r\n".as_slice(), None),
        (b"*1\r\n$536870913\r\n".as_slice(), Some((length, 13))),
        // All whole requests come first.
        (
            b"*1\r\n$4\r\nPING\r\n*1\r\n$536870913\r\n".as_slice(),
            Some((length, 27)),
        ),
        (b"*0\r\n*-1\r\nPING\r\n".as_slice(), Some((start, 9))),
        (b"*1\r\n*1\r\n".as_slice(), Some((start, 4))),
        (b"*\r\n".as_slice(), Some((count, 1))),
        (b"*01\r\n".as_slice(), Some((count, 2))),
        (b"*-2\r\n".as_slice(), Some((count, 2))),
        (b"*1\n".as_slice(), Some((count, 2))),
        (b"*-1\r\r".as_slice(), Some((count, 4))),
        (b"*1\r\n$03".as_slice(), Some((length, 6))),
        (b"*1\r\n$-1\r\n".as_slice(), Some((length, 5))),
        (b"*1\r\n$1\rx".as_slice(), Some((length, 7))),
        (b"*1\r\n$1\r\nab\r\n".as_slice(), Some((end, 9))),
        (b"*1\r\n$1\r\na\rb".as_slice(), Some((end, 10))),
    ] {
        let mut reader = Reader::new(rt.alloc());
        let mut given = Vec::new(rt.alloc());
        reader.feed(bytes)?;
        assert_eq!(rt; drain(&mut reader, &mut given)?, want, "at {bytes:?}");
        reader.feed(b"*1\r\n$4\r\nPING\r\n")?;
        if want.is_some() {
            assert_eq!(rt; drain(&mut reader, &mut given)?, want, "again at {bytes:?}");
        }
    }
    Ok(())
}

/// An array with an array, and nulls of both kinds.
fn nested(alloc: Global) -> Result<Reply, NoMemory> {
    let mut inner = Replies::new(alloc);
    inner.reserve(2)?;
    inner.push(Reply::Bulk(Bin::from_slice(alloc, b"x")?));
    inner.push(Reply::NullBulk);
    let mut outer = Replies::new(alloc);
    outer.reserve(3)?;
    outer.push(Reply::Int(1));
    outer.push(Reply::Array(inner));
    outer.push(Reply::NullArray);
    Ok(Reply::Array(outer))
}

fn reply(alloc: Global, name: &str, text: &[u8]) -> Result<Reply, NoMemory> {
    Ok(match name {
        "simple" => Reply::Simple(Bin::from_slice(alloc, text)?),
        "bulk" => Reply::Bulk(Bin::from_slice(alloc, text)?),
        "least" => Reply::Int(-9223372036854775808),
        "empty" => Reply::Array(Replies::new(alloc)),
        "nested" => nested(alloc)?,
        _ => Reply::Error(ErrorText::Syntax),
    })
}

#[test]
fn replies_are_encoded(rt: HostRuntime) -> Result<(), Fail> {
    let alloc = rt.alloc();
    let cases = [
        ("simple", "OK", "before+OK\r\n"),
        ("error", "", "before-ERR syntax error\r\n"),
        ("least", "", "before:-9223372036854775808\r\n"),
        ("bulk", "a\r\nb", "before$4\r\na\r\nb\r\n"),
        ("bulk", "", "before$0\r\n\r\n"),
        ("empty", "", "before*0\r\n"),
        (
            "nested",
            "",
            "before*3\r\n:1\r\n*2\r\n$1\r\nx\r\n$-1\r\n*-1\r\n",
        ),
    ];
    'cases: for (name, text, want) in cases {
        let mut to = Vec::from_slice(alloc, b"before")?;
        encode(&reply(alloc, name, text.as_bytes())?, &mut to)?;
        assert_eq!(rt; to.as_slice(), want.as_bytes(), "{name}");
    }
    Ok(())
}

fn encode_part(alloc: Global, part: usize, to: &mut Vec<u8>) -> Result<(), NoMemory> {
    match part {
        0 => encode_simple(b"PONG", to),
        1 => encode_error(&ErrorText::Arity(Bin::from_slice(alloc, b"get")?), to),
        2 => encode_error(&ErrorText::WrongKind, to),
        3 => encode_bulk(b"ten bytes.", to),
        _ => encode_null(to),
    }
}

#[test]
fn parts_are_encoded(rt: HostRuntime) -> Result<(), Fail> {
    let wants = [
        "+PONG\r\n",
        "-ERR wrong number of arguments for 'get' command\r\n",
        "-WRONGTYPE Operation against a key holding the wrong kind of value\r\n",
        "$10\r\nten bytes.\r\n",
        "$-1\r\n",
    ];
    'parts: for (part, want) in wants.iter().enumerate() {
        let mut to = Vec::new(rt.alloc());
        encode_part(rt.alloc(), part, &mut to)?;
        assert_eq!(rt; to.as_slice(), want.as_bytes());
    }
    Ok(())
}
