//! Whole runs over streams in memory.

use df_model::{Bin, Bins, NoMemory};
use df_outside::{MemDisk, MemSink, MemSource};
use df_server::offline;
use std::alloc::Global;
use std::test::Fail;

const PING: &[u8] = b"*1\r\n$4\r\nPING\r\n";

const SET_AND_GET: &[u8] =
    b"*3\r\n$3\r\nSET\r\n$1\r\na\r\n$1\r\n1\r\n*2\r\n$3\r\nGET\r\n$1\r\na\r\n";

/// The status, and the sink with all that was written.
pub type Ran = (u8, MemSink);

/// Runs the program by one word or none; reads and writes with these numbers, from 0, fail.
fn run(
    alloc: Global,
    word: Option<&str>,
    input: Bins,
    read_fails: &[u64],
    write_fails: &[u64],
) -> Result<Ran, NoMemory> {
    let mut words = Vec::new(alloc);
    if let Some(word) = word {
        words.push(String::from_str(alloc, word)?)?;
    }
    let source = MemSource::new(input, Vec::from_slice(alloc, read_fails)?);
    let disk = MemDisk::new(alloc, None, Vec::new(alloc));
    let sink = MemSink::new(alloc, Vec::from_slice(alloc, write_fails)?);
    let (status, _, _, sink) = offline(alloc, words.as_slice(), source, disk, sink);
    Ok((status, sink))
}

fn pieces(alloc: Global, texts: &[&[u8]]) -> Result<Bins, NoMemory> {
    let mut pieces = Bins::new(alloc);
    'texts: for text in texts {
        let piece = Bin::from_slice(alloc, text)?;
        pieces.reserve(1)?;
        pieces.push(piece);
    }
    Ok(pieces)
}

/// Runs `pipe` over these pieces of input.
pub fn pipe(alloc: Global, texts: &[&[u8]]) -> Result<Ran, NoMemory> {
    run(alloc, Some("pipe"), pieces(alloc, texts)?, &[], &[])
}

#[test]
fn requests_are_answered_in_order(rt: HostRuntime) -> Result<(), Fail> {
    for (input, want) in [
        (b"".as_slice(), b"".as_slice()),
        (PING, b"+PONG\r\n"),
        (b"*1\r\n$4\r\npiNg\r\n", b"+PONG\r\n"),
        (SET_AND_GET, b"+OK\r\n$1\r\n1\r\n"),
        (
            b"*2\r\n$3\r\nGET\r\n$1\r\nm\r\n*3\r\n$3\r\nSET\r\n$1\r\ne\r\n$0\r\n\r\n*2\r\n$3\r\nGET\r\n$1\r\ne\r\n",
            b"$-1\r\n+OK\r\n$0\r\n\r\n",
        ),
        (b"*0\r\n*-1\r\n*1\r\n$4\r\nPING\r\n", b"+PONG\r\n"),
        (
            b"*4\r\n$3\r\nSET\r\n$1\r\na\r\n$1\r\n1\r\n$2\r\nNO\r\n",
            b"-ERR syntax error\r\n",
        ),
        (
            b"*4\r\n$3\r\nSET\r\n$1\r\nn\r\n$1\r\n1\r\n$2\r\nxx\r\n*4\r\n$3\r\nSET\r\n$1\r\nn\r\n$1\r\n2\r\n$2\r\nNX\r\n*4\r\n$3\r\nSET\r\n$1\r\nn\r\n$1\r\n3\r\n$2\r\nnx\r\n*2\r\n$3\r\nGET\r\n$1\r\nn\r\n",
            b"$-1\r\n+OK\r\n$-1\r\n$1\r\n2\r\n",
        ),
        (
            b"*1\r\n$3\r\nGET\r\n",
            b"-ERR wrong number of arguments for 'get' command\r\n",
        ),
        (b"*1\r\n$4\r\nNOPE\r\n", b"-ERR unknown command\r\n"),
        // The last request is cut off.
        (b"*1\r\n$4\r\nPING\r\n*1\r\n$4\r\nPIN", b"+PONG\r\n"),
    ] {
        let (status, sink) = pipe(rt.alloc(), &[input])?;
        assert_eq!(rt; sink.written(), want, "at {input:?}");
        assert_eq!(rt; status, 0, "at {input:?}");
    }
    Ok(())
}

#[test]
fn cuts_of_the_input_change_nothing(rt: HostRuntime) -> Result<(), Fail> {
    let want = b"+OK\r\n$1\r\n1\r\n".as_slice();
    let mut bytes = Bins::new(rt.alloc());
    for at in 0..SET_AND_GET.len() {
        let (status, sink) = pipe(rt.alloc(), &[&SET_AND_GET[..at], &SET_AND_GET[at..]])?;
        assert_eq!(rt; (status, sink.written()), (0, want), "cut at {at}");
        let byte = Bin::from_slice(rt.alloc(), &SET_AND_GET[at..at + 1])?;
        bytes.reserve(1)?;
        bytes.push(byte);
    }
    let (status, sink) = run(rt.alloc(), Some("pipe"), bytes, &[], &[])?;
    assert_eq!(rt; (status, sink.written()), (0, want));
    Ok(())
}

#[test]
fn what_stands_before_bad_input_is_answered(rt: HostRuntime) -> Result<(), Fail> {
    for (bad, want) in [
        (
            b"*1\r\n$536870913\r\n".as_slice(),
            b"+PONG\r\n-ERR Protocol error: bad length\r\n".as_slice(),
        ),
        (
            b"*1\r\n$03",
            b"+PONG\r\n-ERR Protocol error: bad length\r\n",
        ),
        (b"PING\r\n", b"+PONG\r\n-ERR Protocol error: bad start\r\n"),
        (b"*01\r\n", b"+PONG\r\n-ERR Protocol error: bad count\r\n"),
        (
            b"*1\r\n$4\r\nPINGS",
            b"+PONG\r\n-ERR Protocol error: bad end\r\n",
        ),
    ] {
        let (status, sink) = pipe(rt.alloc(), &[PING, bad])?;
        assert_eq!(rt; (status, sink.written()), (1, want), "at {bad:?}");
    }
    Ok(())
}

#[test]
fn what_stands_before_a_fault_is_answered(rt: HostRuntime) -> Result<(), Fail> {
    for (read_fails, write_fails, want) in [
        ([1].as_slice(), [].as_slice(), 7),
        ([].as_slice(), [1].as_slice(), 8),
    ] {
        let input = pieces(rt.alloc(), &[PING, PING])?;
        let (status, sink) = run(rt.alloc(), Some("pipe"), input, read_fails, write_fails)?;
        assert_eq!(rt; (status, sink.written()), (want, b"+PONG\r\n".as_slice()));
    }
    Ok(())
}

#[test]
fn other_words_get_the_usage_line(rt: HostRuntime) -> Result<(), Fail> {
    let usage = b"usage: dflyd serve, pipe, check FILE or gen SEED COUNT\n".as_slice();
    for word in [None, Some("PIPE"), Some("serve"), Some("")] {
        let input = pieces(rt.alloc(), &[PING])?;
        let (status, sink) = run(rt.alloc(), word, input, &[], &[])?;
        assert_eq!(rt; (status, sink.written()), (2, usage), "at {word:?}");
    }
    Ok(())
}

/// How many replies to SET a 1, SET a 2 and two GET a stand in an output. Each may be answered want of
/// memory in place of its own reply, and then changed nothing. `None`: something else stands there.
fn count_replies(output: &[u8]) -> Option<usize> {
    let mut rest = output;
    let mut held = b"$-1\r\n".as_slice();
    let commands = [
        Some(b"$1\r\n1\r\n".as_slice()),
        Some(b"$1\r\n2\r\n".as_slice()),
        None,
        None,
    ];
    for (count, sets) in commands.iter().enumerate() {
        if rest.is_empty() {
            return Some(count);
        }
        if let Some(behind) = rest.strip_prefix(b"-OOM out of memory\r\n") {
            rest = behind;
        } else if let Some(value) = sets {
            rest = rest.strip_prefix(b"+OK\r\n")?;
            held = value;
        } else {
            rest = rest.strip_prefix(held)?;
        }
    }
    if rest.is_empty() { Some(4) } else { None }
}

/// For runs in which an allocation is refused; refused to the test itself, it shows nothing.
#[test]
fn refused_allocations_never_lie(rt: HostRuntime) -> Result<(), Fail> {
    let first = b"*3\r\n$3\r\nSET\r\n$1\r\na\r\n$1\r\n1\r\n".as_slice();
    let second =
        b"*3\r\n$3\r\nSET\r\n$1\r\na\r\n$1\r\n2\r\n*2\r\n$3\r\nGET\r\n$1\r\na\r\n".as_slice();
    let third = b"*2\r\n$3\r\nGET\r\n$1\r\na\r\n".as_slice();
    let Ok((status, sink)) = pipe(rt.alloc(), &[first, second, third]) else {
        return Ok(());
    };
    let replies = count_replies(sink.written());
    assert!(rt;
        (status == 0 && replies == Some(4)) || (status == 4 && replies.is_some()),
        "status {status}, wrote {:?}",
        sink.written()
    );
    Ok(())
}
