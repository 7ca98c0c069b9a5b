//! That what is written is a file of redis-server: these bytes pass redis-check-rdb and load in redis-server 7.0.15.

use df_colls::{HashVal, SetVal};
use df_list::ListVal;
use df_model::{Bin, NoMemory};
use df_rdbwrite::{Writer, plain_entry};
use df_values::{StrVal, Value};
use std::alloc::Global;
use std::test::Fail;

const FILE: &[u8] =
    b"REDIS0009\xfe\x00\x00\x01a\x05hello\x01\x01l\x02\x011\x012\x02\x01s\x02\x01x\x01y\x04\x01h\x01\x01f\x01v\xffs2\x14E\x86\x88\xf7\xe2";

fn list(alloc: Global) -> Result<Value, NoMemory> {
    let mut list = ListVal::new(alloc);
    list.reserve(2)?;
    list.push_back(Bin::from_slice(alloc, b"1")?);
    list.push_back(Bin::from_slice(alloc, b"2")?);
    Ok(Value::List(list))
}

fn set(alloc: Global) -> Result<Value, NoMemory> {
    let mut set = SetVal::new(alloc);
    set.reserve(2)?;
    let _new = set.add(Bin::from_slice(alloc, b"y")?);
    let _new = set.add(Bin::from_slice(alloc, b"x")?);
    Ok(Value::Set(set))
}

fn hash(alloc: Global) -> Result<Value, NoMemory> {
    let mut hash = HashVal::new(alloc);
    hash.reserve(1)?;
    let _old = hash.put(Bin::from_slice(alloc, b"f")?, Bin::from_slice(alloc, b"v")?);
    Ok(Value::Hash(hash))
}

#[test]
fn each_kind_of_value_is_written(rt: HostRuntime) -> Result<(), Fail> {
    let alloc = rt.alloc();
    let text = Value::Str(StrVal::from_bin(Bin::from_slice(alloc, b"hello")?));
    let mut file = Vec::new(alloc);
    let mut writer = Writer::start(&mut file)?;
    writer.entry(b"a", &text, &mut file)?;
    writer.entry(b"l", &list(alloc)?, &mut file)?;
    let from = file.len();
    plain_entry(b"s", &set(alloc)?, &mut file)?;
    writer.add_sum(&file.as_slice()[from..]);
    writer.entry(b"h", &hash(alloc)?, &mut file)?;
    assert!(rt; writer.finish(&mut file).is_ok());
    assert_eq!(rt; file.as_slice(), FILE);
    Ok(())
}
