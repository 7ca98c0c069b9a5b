//! The calls of the program that wait for nobody.

ghost use Rattle.std.specs.Prelude.{◌≡◌, map, string_bytes, IsTrue, ◌↔◌};
ghost use Rattle.df_model.specs.Values.{Bytes};
ghost use Rattle.df_print.specs.Writes.{LineStatus};
ghost use Rattle.df_check.specs.Lines.{IsCheck};
ghost use Rattle.df_check.specs.Check.{CheckPromise};
ghost use Rattle.df_server.specs.Promise.{Run, IsPipe, UsageGiven, PipePromise, usage};

use crate::pipe;
use df_check::{check, file_named};
use df_outside::{Disk, Sink, Source};
use df_print::{Written, write_all};
use std::alloc::Global;

/// What is written where the words are no command.
const USAGE: &[u8] = b"usage: dflyd serve, pipe, check FILE or gen SEED COUNT\n";

/// Runs the program by the words behind its name, over a source, a disk and a sink, which it hands
/// back beside the status. It waits for nobody and returns.
///
/// Status 0: the input ended, or the file was loaded. 1: the input is bad. 2: the words are no command. 3: the file is
/// refused, or there is none. 4: memory ran out outside a reply. 5: the disk failed. 7: a read failed. 8: a write failed.
/// 9: the limit of input was reached.
pub fn offline<S: Source + Send, K: Disk, O: Sink + Send>(
    alloc: Global,
    words: &[String],
    input: S,
    disk: K,
    out: O,
) -> (u8, S, K, O)
    ensures pipe { IsPipe (map string_bytes words.now) →
        PipePromise (record { status = result.0; input_before = S.inflow input; input = S.inflow result.1; output_before = O.outflow out; output = O.outflow result.3 }) }
    ensures check { (name : Bytes) → IsCheck (map string_bytes words.now) name →
        CheckPromise (record { status = result.0; output_before = O.outflow out; output = O.outflow result.3; stored_before = K.stored disk; stored = K.stored result.2; faults_before = K.faults disk; faults = K.faults result.2 }) }
    ensures usage { ¬ (IsPipe (map string_bytes words.now)) → ((name : Bytes) → ¬ (IsCheck (map string_bytes words.now) name)) →
        UsageGiven (record { status = result.0; input_before = S.inflow input; input = S.inflow result.1; output_before = O.outflow out; output = O.outflow result.3 }) }
    // Only `pipe` takes input, and only `check` asks the disk.
    ensures input { ¬ (IsPipe (map string_bytes words.now)) → result.1 ≡ input }
    ensures disk { ((name : Bytes) → ¬ (IsCheck (map string_bytes words.now) name)) → result.2 ≡ disk }
{
    if is_pipe(words) {
        let (status, input, out) = pipe::run(alloc, input, out);
        return (status, input, disk, out);
    }
    let mut out = out;
    match file_named(words) {
        Some(name) => {
            let mut disk = disk;
            let status = check(alloc, name, &mut disk, &mut out);
            (status, input, disk, out)
        }
        None => {
            let status = refuse(&mut out);
            (status, input, disk, out)
        }
    }
}

/// Whether the words are the one word `pipe`.
fn is_pipe(words: &[String]) -> bool
    ensures { IsTrue result ↔ IsPipe (map string_bytes words.now) }
{
    match words {
        [word] => word.as_str() == "pipe",
        _ => false,
    }
}

/// Writes the usage line; answers the status.
pub(crate) fn refuse<O: Sink>(out: &mut O) -> u8
    ensures { LineStatus usage 2 result (O.outflow out.old) (O.outflow out.new) }
{
    match write_all(USAGE, out) {
        Written::Whole | Written::Failed => 2,
        Written::NoMemory => 4,
    }
}
