//! What is loaded of small files, made by hand, and where reading them stops.

use df_model::{Bin, NoMemory};
use df_outside::MemDisk;
use df_rdbcore::{LoadFault, PartFault, Twice};
use df_rdbload::{Loaded, load};
use df_values::Value;
use std::alloc::Global;
use std::test::Fail;

/// The key a with the string 1, as it is written.
const FILE: [u8; 25] = *b"REDIS0009\xfe\x00\x00\x01a\x011\xff\x99\x25\xeb\xa9\xca\xbd\xe0\x7c";

/// Where the sum of `FILE` stands.
const SUM: usize = 17;

/// What stands behind the head, with which fault, or none where only the sum is missing.
const BODIES: &[(&[u8], LoadFault)] = &[
    (b"\x00\x01a\x011\xff", LoadFault::Truncated { at: 15 }),
    (
        b"\xfa\x01a\xc0\x01\xfb\x01\x00\x01\x01l\x02\x01x\x01x\xff",
        LoadFault::Truncated { at: 26 },
    ),
    (
        b"\x00\x01a\x011\x00\x01a\x011\xff",
        LoadFault::Duplicate {
            kind: Twice::Key,
            at: 15,
        },
    ),
    (
        b"\x02\x01s\x02\x01x\x01x\xff",
        LoadFault::Duplicate {
            kind: Twice::Member,
            at: 9,
        },
    ),
    (
        b"\x04\x01h\x02\x01f\x01v\x01f\xff",
        LoadFault::Duplicate {
            kind: Twice::Field,
            at: 9,
        },
    ),
    (
        b"\x01\x01l\x00\xff",
        LoadFault::BadPart {
            kind: PartFault::Empty,
            at: 9,
        },
    ),
    (
        b"\x01\x01l\x81\x00\x00\x01\x00\x00\x00\x00\x00\x01x",
        LoadFault::Truncated { at: 23 },
    ),
    (b"\x00\x82", LoadFault::BadLength { at: 10 }),
    (b"\xfb\xc0", LoadFault::BadLength { at: 10 }),
    (
        b"\xfa\x01a\xc3",
        LoadFault::Unsupported { code: 0xc3, at: 12 },
    ),
    (b"\xfe\x01", LoadFault::Unsupported { code: 0xfe, at: 9 }),
    (b"\xfe\x00\x0e", LoadFault::Unsupported { code: 14, at: 11 }),
    (b"\xfe\x00\x08", LoadFault::UnknownType { code: 8, at: 11 }),
    (
        b"\xff\x00\x00\x00\x00\x00\x00\x00\x00\x00",
        LoadFault::BadPart {
            kind: PartFault::After,
            at: 18,
        },
    ),
];

/// Whole files with their faults: heads that are wrong or cut, and a file whose list is in a compact form.
const FILES: &[(&[u8], LoadFault)] = &[
    (b"REDIT", LoadFault::BadMagic),
    (b"X", LoadFault::BadMagic),
    (b"REDIS1", LoadFault::BadVersion),
    (b"REDIS0004", LoadFault::BadVersion),
    (b"REDIS0013", LoadFault::BadVersion),
    (b"REDIS001", LoadFault::Truncated { at: 8 }),
    (b"REDIS0012", LoadFault::Truncated { at: 9 }),
    (
        b"REDIS0011\xfa\x09redis-ver\x057.2.4\xfa\x0aredis-bits\xc0\x40\xfe\x00\xfb\x04\x00\x00\x01a\xc0\x01\x12\x01l\x01\x02\x0c",
        LoadFault::Unsupported { code: 18, at: 50 },
    ),
];

/// How many keys a file with these bytes has, or its fault.
fn keys_of(alloc: Global, bytes: &[u8]) -> Result<Result<usize, LoadFault>, NoMemory> {
    let mut disk = MemDisk::new(alloc, Some(Bin::from_slice(alloc, bytes)?), Vec::new(alloc));
    match load(alloc, &mut disk) {
        Ok(Loaded::NoFile) => Ok(Err(LoadFault::NoMemory)),
        Ok(Loaded::Keys(keys)) => Ok(Ok(keys.len())),
        Err(fault) => Ok(Err(fault)),
    }
}

#[test]
fn a_file_loads_up_to_its_sum(rt: HostRuntime) -> Result<(), Fail> {
    let mut file = FILE;
    assert_eq!(rt; keys_of(rt.alloc(), &file)?, Ok(1));
    file[15] = b'2';
    assert!(rt;
        matches!(
            keys_of(rt.alloc(), &file)?,
            Err(LoadFault::BadChecksum { at: 17, .. })
        )
    );
    for at in SUM..25 {
        file[at] = 0;
    }
    assert_eq!(rt; keys_of(rt.alloc(), &file)?, Ok(1));
    Ok(())
}

#[test]
fn a_file_that_is_cut_ends_too_early(rt: HostRuntime) -> Result<(), Fail> {
    for len in 0..25 {
        let fault = LoadFault::Truncated { at: len as u64 };
        assert_eq!(rt;
            keys_of(rt.alloc(), &FILE[..len])?,
            Err(fault),
            "cut at {len}"
        );
    }
    Ok(())
}

#[test]
fn the_first_fault_is_told(rt: HostRuntime) -> Result<(), Fail> {
    for (file, fault) in FILES {
        assert_eq!(rt; keys_of(rt.alloc(), file)?, Err(*fault));
    }
    for (body, fault) in BODIES {
        let mut file = Vec::from_slice(rt.alloc(), b"REDIS0009")?;
        file.extend_from_slice(body)?;
        assert_eq!(rt; keys_of(rt.alloc(), file.as_slice())?, Err(*fault));
    }
    Ok(())
}

#[test]
fn a_disk_may_have_no_file_or_fail(rt: HostRuntime) -> Result<(), Fail> {
    let alloc = rt.alloc();
    let mut disk = MemDisk::new(alloc, None, Vec::new(alloc));
    assert!(rt; matches!(load(alloc, &mut disk), Ok(Loaded::NoFile)));
    let file = Bin::from_slice(alloc, &FILE)?;
    let mut disk = MemDisk::new(alloc, Some(file), Vec::from_slice(alloc, &[1])?);
    assert!(rt; matches!(load(alloc, &mut disk), Err(LoadFault::ReadFault { at: 25 })));
    let Ok(Loaded::Keys(keys)) = load(alloc, &mut disk) else {
        return Err(Fail::from("no keys"));
    };
    let key = Bin::from_slice(alloc, b"a")?;
    let Some(Value::Str(text)) = keys.get(&key) else {
        return Err(Fail::from("no string"));
    };
    assert_eq!(rt; text.as_slice(), b"1".as_slice());
    Ok(())
}
