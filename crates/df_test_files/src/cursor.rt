//! That the definitions are those of redis-server: a file that version 7.0.15 saved, with compression off.

use df_rdbcore::Cursor;
use std::alloc::Global;
use std::test::Fail;

/// Keys n, s, a, long, w, m and h: strings, numbers of each width in place of strings, a set and a hash.
const SAVED: &[u8] =
    b"REDIS0010\xfa\x09redis-ver\x067.0.15\xfa\x0aredis-bits\xc0@\xfa\x05ctime\xc2\xafF\x0fk\xfa\x08used-mem\xc2p9\x10\x00\xfa\x08aof-base\xc0\x00\xfe\x00\xfb\x07\x00\x00\x01n\xc0\xff\x02\x01s\x01\x01x\x00\x01a\x05hello\x00\x04long@Fzzzzzzzzzzzzzzzzzzzzzzzzzzzzzzzzzzzzzzzzzzzzzzzzzzzzzzzzzzzzzzzzzzzzzz\x00\x01w\xc1\xd2\x04\x00\x01m\xc2p\x11\x01\x00\x04\x01h\x01\x01f\x01v\xff\xe7\x15\x0e\xa0\xb2\xc8\x89\xd3";

/// What is read of it in turn, up to the sum: `b` a byte, `l` a length, `t` a string.
const FORMS: &[u8] = b"bbbbbbbbbbttbttbttbttbttblbllbttbtltbttbttbttbttbtlttb";

/// The lengths, as digits, and the strings, each with a `|` behind it.
const READ: &[u8] =
    b"redis-ver|7.0.15|redis-bits|64|ctime|1796163247|used-mem|1063280|aof-base|0|0|7|0|n|-1|s|1|x|a|hello|long|zzzzzzzzzzzzzzzzzzzzzzzzzzzzzzzzzzzzzzzzzzzzzzzzzzzzzzzzzzzzzzzzzzzzzz|w|1234|m|70000|h|1|f|v|";

/// Takes one form; false where it isn't whole.
fn take(alloc: Global, form: u8, cursor: &mut Cursor, to: &mut Vec<u8>) -> Result<bool, Fail> {
    if form == b'b' {
        return Ok(cursor.byte().is_some());
    }
    if form == b'l' {
        let Ok(Some(n)) = cursor.len() else {
            return Ok(false);
        };
        to.push(b'0' + (n % 10) as u8)?;
    } else {
        let Ok(Some(text)) = cursor.string(alloc) else {
            return Ok(false);
        };
        to.extend_from_slice(text.as_slice())?;
    }
    to.push(b'|')?;
    Ok(true)
}

#[test]
fn a_file_of_redis_server_is_read_byte_by_byte(rt: HostRuntime) -> Result<(), Fail> {
    let mut cursor = Cursor::new(rt.alloc());
    let mut given = Vec::new(rt.alloc());
    let mut fed = 0;
    'forms: for form in FORMS {
        'feed: for at in fed..SAVED.len() {
            if take(rt.alloc(), *form, &mut cursor, &mut given)? {
                break 'feed;
            }
            cursor.feed(&SAVED[at..at + 1])?;
            fed = at + 1;
        }
    }
    assert_eq!(rt; given.as_slice(), READ);
    assert_eq!(rt; cursor.place(), 206);
    assert_eq!(rt; cursor.sum(), 0xd389_c8b2_a00e_15e7);
    Ok(())
}
