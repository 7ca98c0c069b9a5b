//! One file: it is chosen, loaded, and told of.

ghost use Rattle.df_print.specs.Writes.{LineStatus};
ghost use Rattle.df_check.specs.Lines.{refused_line as line_of};
ghost use Rattle.df_check.specs.Check.{CheckPromise, FaultTold, KeysStatus, KeysTold};

use crate::fault_text::refused_line;
use df_outside::{Disk, Done, Sink};
use df_print::{Written, write_all};
use df_rdbcore::LoadFault;
use df_rdbload::{Loaded, load};
use std::alloc::Global;

/// What is printed where there is no file.
const NO_FILE: &[u8] = b"no file\n";

/// What is printed where the disk failed.
const DISK_FAULT: &[u8] = b"disk fault\n";

/// The status of a file that is refused or isn't there.
const REFUSED: u8 = 3;

/// The status for want of memory.
const NO_MEMORY: u8 = 4;

/// The status of a disk that failed.
const FAILED: u8 = 5;

/// Loads the file of this name, and prints `keys N`, or why it can't be loaded. Answers the status: 0 with the count of
/// keys; 3 for a file that is refused or isn't there; 4 where memory ran out; 5 where the disk failed; 8 where the count
/// couldn't be written.
pub fn check<K: Disk, O: Sink>(alloc: Global, name: &str, disk: &mut K, out: &mut O) -> u8
    ensures { CheckPromise (record { status = result; output_before = O.outflow out.old; output = O.outflow out.new; stored_before = K.stored disk.old; stored = K.stored disk.new; faults_before = K.faults disk.old; faults = K.faults disk.new }) }
{
    match disk.choose(name) {
        Done::Ok => print_loaded(alloc, disk, out),
        Done::Failed => tell(DISK_FAULT, FAILED, out),
        Done::NoMemory => NO_MEMORY,
    }
}

/// Loads the chosen file.
fn print_loaded<K: Disk, O: Sink>(alloc: Global, disk: &mut K, out: &mut O) -> u8
    ensures { CheckPromise (record { status = result; output_before = O.outflow out.old; output = O.outflow out.new; stored_before = K.stored disk.old; stored = K.stored disk.new; faults_before = K.faults disk.old; faults = K.faults disk.new }) }
{
    match load(alloc, disk) {
        Ok(loaded) => tell_loaded(alloc, loaded, out),
        Err(fault) => tell_fault(alloc, fault, out),
    }
}

/// Tells what was loaded.
fn tell_loaded<O: Sink>(alloc: Global, loaded: Loaded, out: &mut O) -> u8
    ensures { KeysTold loaded result (O.outflow out.old) (O.outflow out.new) }
{
    match loaded {
        Loaded::NoFile => tell(NO_FILE, REFUSED, out),
        Loaded::Keys(keys) => tell_keys(alloc, keys.len(), out),
    }
}

/// Tells how many keys there are.
fn tell_keys<O: Sink>(alloc: Global, count: usize, out: &mut O) -> u8
    ensures { KeysStatus count result (O.outflow out.old) (O.outflow out.new) }
{
    let Ok(line) = format!(in alloc; "keys {}\n", count) else {
        return NO_MEMORY;
    };
    match write_all(line.as_bytes(), out) {
        Written::Whole => 0,
        Written::Failed => 8,
        Written::NoMemory => NO_MEMORY,
    }
}

/// Tells why nothing was loaded.
fn tell_fault<O: Sink>(alloc: Global, fault: LoadFault, out: &mut O) -> u8
    ensures { FaultTold fault result (O.outflow out.old) (O.outflow out.new) }
{
    match fault {
        LoadFault::ReadFault { at: _ } => tell(DISK_FAULT, FAILED, out),
        LoadFault::NoMemory => NO_MEMORY,
        LoadFault::BadMagic
        | LoadFault::BadVersion
        | LoadFault::Truncated { at: _ }
        | LoadFault::BadLength { at: _ }
        | LoadFault::Unsupported { code: _, at: _ }
        | LoadFault::UnknownType { code: _, at: _ }
        | LoadFault::BadPart { kind: _, at: _ }
        | LoadFault::Duplicate { kind: _, at: _ }
        | LoadFault::BadChecksum {
            stored: _,
            computed: _,
            at: _,
        } => tell_refused(alloc, fault, out),
    }
}

/// Tells the first fault of a file.
fn tell_refused<O: Sink>(alloc: Global, fault: LoadFault, out: &mut O) -> u8
    ensures { LineStatus (line_of fault) 3 result (O.outflow out.old) (O.outflow out.new) }
{
    match refused_line(alloc, fault) {
        Ok(line) => tell(line.as_bytes(), REFUSED, out),
        Err(_) => NO_MEMORY,
    }
}

/// Says a line, and answers the status that goes with it.
fn tell<O: Sink>(line: &[u8], status: u8, out: &mut O) -> u8
    ensures { LineStatus line.now status result (O.outflow out.old) (O.outflow out.new) }
{
    match write_all(line, out) {
        Written::Whole | Written::Failed => status,
        Written::NoMemory => NO_MEMORY,
    }
}
