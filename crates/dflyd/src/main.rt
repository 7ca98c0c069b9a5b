//! The program: the real streams, the door and the words of the command line, handed to the server's calls.
#![tactic(auto)]

use df_real::{FileDisk, MioDoor, StdSink, StdSource};
use df_server::{offline, serve};
use std::alloc::AllocError;
use std::env::{Env, VarError};
use std::io::ErrorKind;
use std::net::{IpAddr, Ipv4Addr, SocketAddr};
use std::process::ExitCode;
use std::{env, io};

/// The variable that names the address to listen on, in place of 127.0.0.1.
const BIND: &str = "DFLYD_BIND";

/// An address that can't be read.
const WRONG: u8 = 2;

/// Want of memory before the run.
const NO_MEMORY: u8 = 4;

/// The system has no sockets for the door.
const NO_DOOR: u8 = 6;

fn main(rt: HostRuntime) -> ExitCode {
    let alloc = rt.alloc();
    let Ok(words) = words_given(&rt) else {
        return ExitCode::from(NO_MEMORY);
    };
    let disk = FileDisk::new(rt, alloc);
    let out = StdSink::new(rt.stdout());
    if !asks_to_serve(words.as_slice()) {
        let input = StdSource::new(rt.stdin());
        let (status, _, disk, _) = offline(alloc, words.as_slice(), input, disk, out);
        if let Some(reason) = disk.reason() {
            tell_disk(&rt, reason);
        }
        return ExitCode::from(status);
    }
    let address = match address_given(&rt) {
        Ok(address) => address,
        Err(status) => return ExitCode::from(status),
    };
    let door = match MioDoor::new(rt, alloc, address) {
        Ok(door) => door,
        Err(fault) => return ExitCode::from(tell_no_door(&rt, &fault)),
    };
    let ended = serve(&rt, alloc, words.as_slice(), door, disk, out);
    if ended.status == NO_DOOR
        && let Some(reason) = ended.door.reason()
    {
        tell_fault(&rt, ended.bound, ended.door.address(), reason);
    }
    ExitCode::from(ended.status)
}

/// The words after the program's name. Where one isn't UTF-8 there are none, so that the answer is the
/// one for wrong words.
fn words_given(rt: &(impl Env + AllocGlobal)) -> Result<Vec<String>, AllocError> {
    match env::args(rt) {
        Ok(words) => words.skip(1).collect(rt.alloc()),
        Err(fault) if fault.kind() == ErrorKind::OutOfMemory => Err(AllocError),
        Err(_) => Ok(Vec::new(rt.alloc())),
    }
}

/// Whether the first word is `serve`. All others go to `offline`, which has the usage line.
fn asks_to_serve(words: &[String]) -> bool {
    match words.first() {
        Some(word) => word.as_str() == "serve",
        None => false,
    }
}

/// The address to listen on, or the status where it can't be read.
fn address_given(rt: &(impl Env + Eprint + AllocGlobal)) -> Result<IpAddr, u8> {
    let text = match env::var(rt, BIND) {
        Ok(text) => text,
        Err(VarError::NotPresent) => return Ok(IpAddr::V4(Ipv4Addr::LOCALHOST)),
        Err(VarError::NotUnicode) => String::new(rt.alloc()),
        Err(VarError::OutOfMemory) => return Err(NO_MEMORY),
    };
    match text.as_str().parse::<IpAddr>() {
        Ok(address) => Ok(address),
        Err(_) => {
            let _ = eprintln!(rt; "dflyd: {BIND} is no IPv4 or IPv6 address");
            Err(WRONG)
        }
    }
}

/// Says that there are no sockets; answers the status. A line that can't be written is left out.
fn tell_no_door(rt: &impl Eprint, fault: &io::Error) -> u8 {
    if fault.kind() == ErrorKind::OutOfMemory {
        return NO_MEMORY;
    }
    let _ = eprintln!(rt; "dflyd: no sockets: {}", fault.kind());
    NO_DOOR
}

/// Says why the disk failed.
fn tell_disk(rt: &impl Eprint, reason: ErrorKind) {
    let _ = eprintln!(rt; "dflyd: can't read the file: {reason}");
}

/// Says why the door failed, before it was bound or later.
fn tell_fault(rt: &impl Eprint, bound: bool, address: SocketAddr, reason: ErrorKind) {
    let what = if bound { "accept on" } else { "listen on" };
    let _ = eprintln!(rt; "dflyd: can't {what} {address}: {reason}");
}
