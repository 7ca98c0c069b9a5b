//! Values from outside: the limits of 64 bits, the vectors of FNV-1a, and the patterns of Redis's
//! KEYS page; and that calls which may find no memory do their work where there is enough.

use df_model::NoMemory;
use df_text::{fnv64, glob, is_name, parse_i64, parse_u64, push_i64, shard_of};

#[test]
fn numbers_are_read_up_to_their_limits(rt: HostRuntime) {
    let table = [
        ("0", Some(0), Some(0)),
        ("42", Some(42), Some(42)),
        ("-1", Some(-1), None),
        (
            "9223372036854775807",
            Some(i64::MAX),
            Some(9223372036854775807),
        ),
        ("9223372036854775808", None, Some(9223372036854775808)),
        ("-9223372036854775808", Some(i64::MIN), None),
        ("-9223372036854775809", None, None),
        ("18446744073709551615", None, Some(u64::MAX)),
        ("18446744073709551616", None, None),
        ("99999999999999999999", None, None),
        ("", None, None),
        ("-", None, None),
        ("-0", None, None),
        ("+1", None, None),
        ("01", None, None),
        ("-01", None, None),
        (" 1", None, None),
        ("1 ", None, None),
        ("1a", None, None),
    ];
    for (text, signed, unsigned) in table {
        assert_eq!(rt; parse_i64(text.as_bytes()), signed, "signed {text}");
        assert_eq!(rt; parse_u64(text.as_bytes()), unsigned, "unsigned {text}");
    }
}

#[test]
fn numbers_are_appended(rt: HostRuntime) -> Result<(), NoMemory> {
    let mut to = Vec::from_slice(rt.alloc(), b":")?;
    push_i64(&mut to, i64::MIN)?;
    push_i64(&mut to, 0)?;
    assert_eq!(rt; to.as_slice(), b":-92233720368547758080".as_slice());
    Ok(())
}

#[test]
fn hashes_are_those_of_the_outside_vectors(rt: HostRuntime) {
    let table = [
        ("", 0xcbf29ce484222325),
        ("a", 0xaf63dc4c8601ec8c),
        ("foobar", 0x85944171f73967e8),
    ];
    for (key, hash) in table {
        assert_eq!(rt; fnv64(key.as_bytes()), hash, "of {key}");
    }
}

#[test]
fn keys_stand_on_four_shards(rt: HostRuntime) {
    let table = [
        ("a", 0),
        ("b", 1),
        ("c", 2),
        ("d", 3),
        ("x", 3),
        ("y", 0),
        ("z", 1),
    ];
    for (key, shard) in table {
        assert_eq!(rt; shard_of(key.as_bytes(), 4), shard, "of {key}");
    }
}

#[test]
fn names_are_told_without_their_case(rt: HostRuntime) {
    let table = [
        ("get", true),
        ("GET", true),
        ("gEt", true),
        ("gets", false),
        ("ge", false),
        ("", false),
    ];
    for (word, named) in table {
        assert_eq!(rt; is_name(word.as_bytes(), "get"), named, "{word}");
    }
}

#[test]
fn patterns_of_the_keys_page(rt: HostRuntime) {
    let table = [
        ("h?llo", "hello", true),
        ("h?llo", "hxllo", true),
        ("h?llo", "hllo", false),
        ("h*llo", "hllo", true),
        ("h*llo", "heeeello", true),
        ("h*llo", "hell", false),
        ("h[ae]llo", "hello", true),
        ("h[ae]llo", "hallo", true),
        ("h[ae]llo", "hillo", false),
        ("h[^e]llo", "hallo", true),
        ("h[^e]llo", "hbllo", true),
        ("h[^e]llo", "hello", false),
        ("h[a-b]llo", "hallo", true),
        ("h[a-b]llo", "hbllo", true),
        ("h[a-b]llo", "hcllo", false),
        ("h\\?llo", "h?llo", true),
        ("h\\?llo", "hello", false),
        ("h[\\]]llo", "h]llo", true),
    ];
    for (pattern, text, taken) in table {
        assert_eq!(rt;
            glob(pattern.as_bytes(), text.as_bytes()),
            taken,
            "{pattern} on {text}"
        );
    }
}

#[test]
fn corners_of_patterns(rt: HostRuntime) {
    let table = [
        // no pattern, and stars alone
        ("", "", true),
        ("", "a", false),
        ("**", "", true),
        ("**", "ab", true),
        ("?", "", false),
        // a class without its end goes on to the pattern's
        ("[ab", "b", true),
        ("[ab", "[ab", false),
        ("[a-", "-", true),
        ("[", "[", false),
        // a range turned round, and what looks like one
        ("[c-a]", "b", true),
        ("[a-]", "-", true),
        ("[a-]", "b", false),
        ("[-a]", "-", true),
        // a class that holds no byte, and one that holds each
        ("[]", "]", false),
        ("[]a]", "]", false),
        ("[]a", "a", false),
        ("[^]", "a", true),
        // a backslash with nothing to stand before
        ("\\", "\\", true),
        ("a\\", "a\\", true),
        ("[\\", "\\", true),
        // a star before a part that fits more than once
        ("*ab", "aab", true),
        ("*a*b", "xaab", true),
        ("a*b*c", "abcb", false),
    ];
    for (pattern, text, taken) in table {
        assert_eq!(rt;
            glob(pattern.as_bytes(), text.as_bytes()),
            taken,
            "{pattern} on {text}"
        );
    }
}

/// A matcher that goes back to more than the last star doesn't end here.
#[test]
fn many_stars_end_in_time(rt: HostRuntime) {
    let pattern =
        b"*a*a*a*a*a*a*a*a*a*a*a*a*a*a*a*a*a*a*a*a*a*a*a*a*aaaaaaaaaaaaaaaaaaaaaaaaaaaaaaaab";
    let text = [b'a'; 5000];
    assert!(rt; !glob(pattern, &text), "there is no b");
}
