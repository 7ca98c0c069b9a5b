//! A file from its head to its end, with the sum of what stands in it.

ghost use Rattle.std.specs.Prelude.{◌≡◌, ◌+◌, ◌≤◌, ◌∷◌, ◌++◌, vec_len, vec_capacity, IfOk, IfErr, OnOk, OnErr};
ghost use Rattle.std.specs.Int.{w64, to_le_bytes};
ghost use Rattle.df_rdbcore.specs.Crc.{crc, crc_from};
ghost use Rattle.df_rdbcore.specs.Written.{IsCounted, written_head, written_entry, written_end};
ghost use Rattle.df_values.specs.Seen.{seen};

use crate::plain_entry;
use df_model::NoMemory;
use df_rdbcore::Crc;
use df_values::Value;
use std::marker::Model;

/// Version 9, and database 0.
const HEAD: [u8; 11] = *b"REDIS0009\xfe\x00";

/// Bytes of the end: FF and the sum.
const END: usize = 9;

/// A file that is being written. Contracts see the sum of what stands in it so far.
#[derive(Debug, Drop)]
pub struct Writer {
    crc: Crc,
}

impl Model for Writer {
    ghost use Rattle.std.specs.Prelude.{ℕ};

    ghost Value = { ℕ };

    ghost view = { λ w. w.crc };
}

impl Writer {
    /// Appends a file's head, or nothing.
    pub fn start(to: &mut Vec<u8>) -> Result<Writer, NoMemory>
        ensures sum { IfOk result (λ writer. writer ≡ crc written_head) }
        ensures ok { OnOk result (to.new.items ≡ to.old.items ++ written_head) }
        ensures err { OnErr result (to.new.items ≡ to.old.items) }
    {
        to.extend_from_slice(&HEAD)?;
        let mut crc = Crc::new();
        crc.add(&HEAD);
        Ok(Writer { crc })
    }

    /// Appends a key and what it holds, or nothing. A key is to be given once.
    #[tactic(auto, using(crate::proofs::RunLaws::drop_behind))]
    pub fn entry(&mut self, key: &[u8], value: &Value, to: &mut Vec<u8>) -> Result<(), NoMemory>
        ensures counted { IsCounted (seen value.now) }
        ensures ok { OnOk result (to.new.items ≡ to.old.items ++ written_entry key.now (seen value.now)) }
        ensures sum { OnOk result (self.new ≡ crc_from self.old (written_entry key.now (seen value.now))) }
        ensures err { OnErr result (to.new.items ≡ to.old.items) }
        ensures same { OnErr result (self.new ≡ self.old) }
    {
        let from = to.len();
        plain_entry(key, value, to)?;
        self.crc.add(&to.as_slice()[from..]);
        Ok(())
    }

    /// Takes bytes of `plain_entry` into the sum, where they stand next in the file.
    pub fn add_sum(&mut self, piece: &[u8])
        ensures { self.new ≡ crc_from self.old piece.now }
    {
        self.crc.add(piece);
    }

    /// Appends the file's end with the sum, or at want of memory nothing, and hands the writer back.
    pub fn finish(self, to: &mut Vec<u8>) -> Result<(), Writer>
        ensures ok { OnOk result (to.new.items ≡ to.old.items ++ written_end self) }
        ensures err { OnErr result (to.new.items ≡ to.old.items) }
        ensures back { IfErr result (λ writer. writer ≡ self) }
    {
        if to.reserve(END).is_err() {
            return Err(self);
        }
        let Writer { mut crc } = self;
        crc.add(&[0xff]);
        push_end(crc.sum(), to);
        Ok(())
    }
}

/// Takes no memory.
fn push_end(sum: u64, to: &mut Vec<u8>)
    requires { vec_len to.old + 9 ≤ vec_capacity to.old }
    ensures { to.new.items ≡ to.old.items ++ 0xFF ∷ to_le_bytes w64 sum }
{
    let [a, b, c, d, e, f, g, h] = sum.to_le_bytes();
    match to.extend_from_slice(&[0xff, a, b, c, d, e, f, g, h]) {
        Ok(()) => {}
        Err(_) => unreachable!(),
    }
}
