//! Bytes with room for more: a few in place, with no memory of their own.

ghost use Rattle.std.specs.Prelude.{◌≡◌, ◌+◌, ◌-◌, ◌≤◌, ◌++◌, [], length, take, drop, replicate, vec_len, vec_capacity, IfOk, IsTrue, ◌↔◌, OnOk};
ghost use Rattle.df_model.specs.Meaning.Strings.{overwritten};

use crate::NoMemory;
use std::alloc::Global;
use std::marker::Model;
use std::mem;

/// How many bytes find room in place: so many that a text is as wide as a vector and a word.
pub const IN_PLACE: usize = 30;

/// Up to `IN_PLACE` bytes, seen as their list.
#[derive(Debug, Drop)]
struct Short {
    len: u8,
    bytes: [u8; IN_PLACE],
}

impl Model for Short {
    ghost use Rattle.std.specs.Prelude.{List, ℕ, take, ◌≤◌};

    ghost Value = { List ℕ };

    ghost view = { λ s. take s.len s.bytes };

    ghost invariant = { λ s. s.len ≤ 30 };
}

impl Short {
    fn new() -> Short
        ensures { result ≡ [] }
    {
        Short {
            len: 0,
            bytes: [0; IN_PLACE],
        }
    }

    fn from_slice(bytes: &[u8]) -> Short
        requires { length bytes.now ≤ 30 }
        ensures { result ≡ bytes.now }
    {
        let mut short = Short::new();
        short.add(bytes);
        short
    }

    fn len(&self) -> usize
        ensures len { result ≡ length self.now }
        ensures bound { result ≤ 30 }
    {
        usize::from(self.len)
    }

    fn as_slice(&self) -> &[u8]
        ensures bytes { result.now ≡ self.now }
        ensures bound { length self.now ≤ 30 }
    {
        &self.bytes[..usize::from(self.len)]
    }

    /// Adds bytes at the end.
    fn add(&mut self, more: &[u8])
        requires { length more.now ≤ 30 - length self.old }
        ensures { self.new ≡ self.old ++ more.now }
    {
        let from = usize::from(self.len);
        let end = from + more.len();
        self.bytes[from..end].copy_from_slice(more);
        self.len = end as u8;
    }

    /// Adds zero bytes up to this place.
    fn fill_to(&mut self, at: usize)
        requires { at ≤ 30 }
        ensures { self.new ≡ self.old ++ replicate (at - length self.old) 0 }
    {
        let missing = at.saturating_sub(self.len());
        self.add(&[0; IN_PLACE][..missing]);
    }

    /// Writes bytes over those from this place on; zero bytes fill up to it.
    fn write_at(&mut self, at: usize, new: &[u8])
        requires { at + length new.now ≤ length self.old + (30 - length self.old) }
        ensures { self.new ≡ overwritten at new.now self.old }
    {
        let after = over(self.as_slice(), at, new);
        *self = after;
    }
}

/// The bytes, and new ones over those from this place on.
fn over(old: &[u8], at: usize, new: &[u8]) -> Short
    requires room { at + length new.now ≤ 30 }
    requires short { length old.now ≤ 30 }
    ensures { result ≡ overwritten at new.now old.now }
{
    let mut after = Short::from_slice(front(old, at));
    after.fill_to(at);
    after.add(new);
    after.add(behind(old, at + new.len()));
    after
}

fn front(bytes: &[u8], count: usize) -> &[u8]
    ensures { result.now ≡ take count bytes.now }
{
    &bytes[..count.min(bytes.len())]
}

fn behind(bytes: &[u8], count: usize) -> &[u8]
    ensures { result.now ≡ drop count bytes.now }
{
    &bytes[count.min(bytes.len())..]
}

#[derive(Debug, Drop)]
enum Body {
    Short(Short),
    Long(Vec<u8>),
}

/// A byte string, and room for further bytes. Contracts see the bytes and for how many more there is room.
#[derive(Debug)]
pub struct Text {
    body: Body,
}

/// A call of its own, so that whoever drops a text has one way on and not two.
impl Drop for Text {
    fn drop(self) {
        let Text { body } = self;
        match body {
            Body::Short(_) => {}
            Body::Long(_) => {}
        }
    }
}

/// No wider than a vector and a word.
const _: () = prove!(mem::size_of::<Text>() <= 32);

impl Model for Text {
    ghost use Rattle.std.specs.Prelude.{ℕ};
    ghost use Rattle.std.specs.Coded.{coded_ℕ};
    ghost use Rattle.df_model.specs.Spared.{Spared, spared_code};
    ghost use Rattle.df_model.specs.Bodies.{bytes_of, room_of};

    ghost Value = { Spared ℕ };

    ghost coded = { spared_code coded_ℕ };

    ghost view = { λ t. record { items = bytes_of t.body; spare = room_of t.body } };
}

impl Text {
    /// The empty string. Takes no memory.
    pub fn new() -> Text
        ensures { result.items ≡ [] }
    {
        Text {
            body: Body::Short(Short::new()),
        }
    }

    /// A copy of the bytes.
    pub fn from_slice(alloc: Global, bytes: &[u8]) -> Result<Text, NoMemory>
        ensures { IfOk result (λ text. text.items ≡ bytes.now) }
    {
        if bytes.len() <= IN_PLACE {
            return Ok(Text {
                body: Body::Short(Short::from_slice(bytes)),
            });
        }
        let bytes = Vec::from_slice(alloc, bytes)?;
        Ok(Text {
            body: Body::Long(bytes),
        })
    }

    /// The vector's bytes. Where they fit in place, its memory is freed. Takes no memory.
    pub fn from_vec(bytes: Vec<u8>) -> Text
        ensures { result.items ≡ bytes.items }
    {
        if bytes.len() <= IN_PLACE {
            return Text {
                body: Body::Short(Short::from_slice(bytes.as_slice())),
            };
        }
        Text {
            body: Body::Long(bytes),
        }
    }

    /// The bytes, lent.
    pub fn as_slice(&self) -> &[u8]
        ensures { result.now ≡ self.now.items }
    {
        match &self.body {
            Body::Short(short) => short.as_slice(),
            Body::Long(bytes) => bytes.as_slice(),
        }
    }

    /// How many bytes there are.
    pub fn len(&self) -> usize
        ensures { result ≡ length self.now.items }
    {
        match &self.body {
            Body::Short(short) => short.len(),
            Body::Long(bytes) => bytes.len(),
        }
    }

    /// Whether there are none.
    pub fn is_empty(&self) -> bool
        ensures { IsTrue result ↔ (self.now.items ≡ []) }
    {
        self.len() == 0
    }

    /// The same bytes in memory of their own.
    pub fn copy(&self, alloc: Global) -> Result<Text, NoMemory>
        ensures { IfOk result (λ copy. copy.items ≡ self.now.items) }
    {
        Text::from_slice(alloc, self.as_slice())
    }

    /// Makes room for `count` bytes more, and for some beyond, so that a string which grows byte by byte is
    /// seldom moved.
    pub fn reserve(&mut self, alloc: Global, count: usize) -> Result<(), NoMemory>
        ensures items { self.new.items ≡ self.old.items }
        ensures spare { self.old.spare ≤ self.new.spare }
        ensures ok { OnOk result (count ≤ self.new.spare) }
    {
        match &mut self.body {
            Body::Short(short) => {
                if count <= IN_PLACE - short.len() {
                    return Ok(());
                }
                let bytes = moved(alloc, short.as_slice(), count)?;
                self.body = Body::Long(bytes);
                Ok(())
            }
            Body::Long(bytes) => {
                bytes.reserve(count)?;
                Ok(())
            }
        }
    }

    /// Adds bytes at the end. Takes no memory.
    pub fn append(&mut self, more: &[u8])
        requires { length more.now ≤ self.old.spare }
        ensures items { self.new.items ≡ self.old.items ++ more.now }
        ensures spare { self.old.spare ≤ self.new.spare + length more.now }
    {
        match &mut self.body {
            Body::Short(short) => short.add(more),
            Body::Long(bytes) => match bytes.extend_from_slice(more) {
                Ok(()) => {}
                Err(_) => unreachable!(),
            },
        }
    }

    /// Writes bytes over those from this place on; zero bytes fill up to it. Takes no memory.
    pub fn write_at(&mut self, at: usize, new: &[u8])
        requires { at + length new.now ≤ length self.old.items + self.old.spare }
        ensures { self.new.items ≡ overwritten at new.now self.old.items }
    {
        match &mut self.body {
            Body::Short(short) => short.write_at(at, new),
            Body::Long(bytes) => {
                let len = bytes.len();
                if at <= len && new.len() <= len - at {
                    write_within(bytes, at, new);
                } else {
                    write_past(bytes, at, new);
                }
            }
        }
    }
}

/// The bytes in memory of their own, with room for `count` more.
fn moved(alloc: Global, bytes: &[u8], count: usize) -> Result<Vec<u8>, NoMemory>
    requires { length bytes.now ≤ 30 }
    ensures items { IfOk result (λ vec. vec.items ≡ bytes.now) }
    ensures room { IfOk result (λ vec. vec_len vec + count ≤ vec_capacity vec) }
{
    let mut vec = Vec::from_slice(alloc, bytes)?;
    vec.reserve(count)?;
    Ok(vec)
}

/// Over bytes that are there.
fn write_within(bytes: &mut [u8], at: usize, new: &[u8])
    requires { at + length new.now ≤ length bytes.old }
    ensures { bytes.new ≡ overwritten at new.now bytes.old }
{
    let end = at + new.len();
    bytes[at..end].copy_from_slice(new);
}

/// To the end, and past it.
fn write_past(bytes: &mut Vec<u8>, at: usize, new: &[u8])
    requires past { vec_len bytes.old ≤ at + length new.now }
    requires room { at + length new.now ≤ vec_capacity bytes.old }
    ensures { bytes.new.items ≡ overwritten at new.now bytes.old.items }
{
    match bytes.resize(at, 0) {
        Ok(()) => {}
        Err(_) => unreachable!(),
    }
    match bytes.extend_from_slice(new) {
        Ok(()) => {}
        Err(_) => unreachable!(),
    }
}
