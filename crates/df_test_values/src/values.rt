//! That calls which may find no memory do their work where there is enough, and what a reply is read back as.

use df_model::{Bin, ErrorText, NoMemory};
use df_values::{Pieces, StrVal, Value};
use std::process::Abort;

#[test]
fn replies_go_on_behind_what_stands_in_place(rt: HostRuntime) -> Result<(), NoMemory> {
    let alloc = rt.alloc();
    let mut pieces = Pieces::new(alloc);
    pieces.put_simple(b"PONG")?;
    pieces.add_int(i64::MIN)?;
    pieces.add_null()?;
    pieces.add_bulk(b"abc")?;
    pieces.add_error(&ErrorText::NoSuchKey)?;
    pieces.add_null_array()?;
    pieces.add_array_head(1)?;
    pieces.add_count(7)?;
    let mut to = Vec::from_slice(alloc, b"> ")?;
    pieces.append_to(&mut to)?;
    let text =
        b"> +PONG\r\n:-9223372036854775808\r\n$-1\r\n$3\r\nabc\r\n-ERR no such key\r\n*-1\r\n*1\r\n:7\r\n";
    assert_eq!(rt; to.as_slice(), text.as_slice());
    Ok(())
}

#[test]
fn bulks_stand_in_place_up_to_their_limit(rt: HostRuntime) -> Result<(), NoMemory> {
    let alloc = rt.alloc();
    let text = [b'x'; 60];
    for len in [0, 9, 10, 33, 34, 55, 56, 60] {
        let mut pieces = Pieces::new(alloc);
        pieces.put_bulk(&text[..len])?;
        let head = if len < 10 { 4 } else { 5 };
        assert_eq!(rt; pieces.len(), head + len + 2, "of {len}");
        assert_eq!(rt;
            pieces.run(head).len(),
            len + 2,
            "behind the length of {len}"
        );
        assert!(rt; pieces.run(head).starts_with(&text[..len]), "of {len}");
    }
    Ok(())
}

#[test]
fn a_large_string_is_a_buffer_of_its_own(rt: HostRuntime) -> Result<(), NoMemory> {
    let alloc = rt.alloc();
    let mut pieces = Pieces::new(alloc);
    pieces.put_null()?;
    pieces.push(alloc, Bin::from_slice(alloc, &[b'x'; 2000])?)?;
    pieces.push(alloc, Bin::from_slice(alloc, b"end")?)?;
    assert_eq!(rt; pieces.run(0).len(), 5);
    assert_eq!(rt; pieces.run(5).len(), 2000);
    assert_eq!(rt; pieces.run(2005), b"end".as_slice());
    Ok(())
}

#[test]
fn a_prepared_string_grows_in_place(rt: HostRuntime) -> Result<(), NoMemory> {
    let alloc = rt.alloc();
    let mut text = StrVal::from_bin(Bin::from_slice(alloc, b"ab")?);
    text.reserve(alloc, 4)?;
    let mut value = Value::Str(text).copy(alloc)?;
    if let Value::Str(text) = &mut value {
        text.reserve(alloc, 4)?;
        text.write_at(4, b"cd");
        assert_eq!(rt; text.as_slice(), b"ab\0\0cd".as_slice());
    }
    assert!(rt; matches!(value, Value::Str(_)));
    Ok(())
}

#[test]
fn a_refusal_is_an_error_reply(rt: HostRuntime) -> Result<(), NoMemory> {
    let mut pieces = Pieces::new(rt.alloc());
    pieces.put_error(&ErrorText::Overflow)?;
    assert_eq!(rt;
        pieces.run(0),
        b"-ERR increment or decrement would overflow\r\n".as_slice()
    );
    Ok(())
}

/// The reply of this name, in place of what stands.
fn put(pieces: &mut Pieces, name: &str) -> Result<(), NoMemory> {
    match name {
        "simple" => pieces.put_simple(b"PONG"),
        "ok" => pieces.put_ok(),
        "int" => pieces.put_int(i64::MIN),
        "count" => pieces.put_count(7),
        "bulk" => pieces.put_bulk(b"abc"),
        "null" => pieces.put_null(),
        "null array" => pieces.put_null_array(),
        "array" => pieces.put_array_head(2),
        "error" => pieces.put_error(&ErrorText::NoSuchKey),
        _ => {
            pieces.put_count_in_place(7);
            Ok(())
        }
    }
}

/// Puts each reply over the one before it. An error stands in a buffer, and so do the replies after it, up to a
/// count that is put in place.
fn put_each(rt: &impl Abort, pieces: &mut Pieces) -> Result<(), NoMemory> {
    let table = [
        ("simple", "+PONG\r\n"),
        ("int", ":-9223372036854775808\r\n"),
        ("ok", "+OK\r\n"),
        ("count", ":7\r\n"),
        ("bulk", "$3\r\nabc\r\n"),
        ("null", "$-1\r\n"),
        ("null array", "*-1\r\n"),
        ("array", "*2\r\n"),
        ("error", "-ERR no such key\r\n"),
        ("ok", "+OK\r\n"),
        ("count in place", ":7\r\n"),
        ("null", "$-1\r\n"),
    ];
    for (name, answer) in table {
        put(pieces, name)?;
        assert_eq!(rt; pieces.len(), answer.len(), "{name}");
        assert_eq!(rt; pieces.run(0), answer.as_bytes(), "{name}");
    }
    Ok(())
}

#[test]
fn a_reply_takes_the_place_of_what_stood(rt: HostRuntime) -> Result<(), NoMemory> {
    let mut pieces = Pieces::new(rt.alloc());
    put_each(&rt, &mut pieces)?;
    // in a buffer from the start
    pieces.add_bulk(&[b'x'; 100])?;
    put_each(&rt, &mut pieces)
}

#[test]
fn a_large_reply_is_cleared_and_written_again(rt: HostRuntime) -> Result<(), NoMemory> {
    let alloc = rt.alloc();
    let mut pieces = Pieces::new(alloc);
    for len in [1, 70_000, 100, 65_536, 70_000, 1] {
        let text = Bin::from_vec(vec![in alloc; b'x'; len]?);
        pieces.clear();
        assert_eq!(rt; pieces.len(), 0, "before {len}");
        pieces.add_null()?;
        pieces.add(text.as_slice())?;
        assert_eq!(rt; pieces.len(), 5 + len);
        assert!(rt; pieces.run(5) == text.as_slice(), "of {len}");
        pieces.put_ok()?;
        pieces.push(alloc, Bin::from_slice(alloc, text.as_slice())?)?;
        assert_eq!(rt; pieces.len(), 5 + len);
        assert!(rt; pieces.run(5) == text.as_slice(), "of {len}, moved in");
    }
    Ok(())
}

#[test]
fn a_copy_of_a_reply_is_added(rt: HostRuntime) -> Result<(), NoMemory> {
    let alloc = rt.alloc();
    let text = [b'x'; 2000];
    let mut other = Pieces::new(alloc);
    // in place, in one buffer, and in three
    for len in [0, 40, 60, 2000] {
        other.put_ok()?;
        other.push(alloc, Bin::from_slice(alloc, &text[..len])?)?;
        other.add_int(5)?;
        let mut pieces = Pieces::new(alloc);
        pieces.put_array_head(3)?;
        pieces.add_all(&other)?;
        pieces.add_null()?;
        let mut wanted = Vec::from_slice(alloc, b"*3\r\n")?;
        other.append_to(&mut wanted)?;
        wanted.extend_from_slice(b"$-1\r\n")?;
        let mut whole = Vec::new(alloc);
        pieces.append_to(&mut whole)?;
        assert!(rt; whole.as_slice() == wanted.as_slice(), "of {len}");
        assert_eq!(rt; other.len(), 9 + len, "of {len}");
    }
    Ok(())
}
