//! Lengths and strings as they are written: each length in its shortest form.

ghost use Rattle.std.specs.Prelude.{◌≡◌, ◌++◌, OnOk, OnErr};
ghost use Rattle.df_rdbcore.specs.Written.{short, written_text};

use df_model::NoMemory;

/// Appends a length in the shortest of its forms, or nothing.
pub fn push_len(to: &mut Vec<u8>, n: u64) -> Result<(), NoMemory>
    ensures ok { OnOk result (to.new.items ≡ to.old.items ++ short n) }
    ensures err { OnErr result (to.new.items ≡ to.old.items) }
{
    if n < 1 << 6 {
        to.extend_from_slice(&[n as u8])?;
    } else if n < 1 << 14 {
        to.extend_from_slice(&[64 + (n / 256) as u8, (n % 256) as u8])?;
    } else if n < 1 << 32 {
        let [a, b, c, d] = (n as u32).to_be_bytes();
        to.extend_from_slice(&[0x80, a, b, c, d])?;
    } else {
        let [a, b, c, d, e, f, g, h] = n.to_be_bytes();
        to.extend_from_slice(&[0x81, a, b, c, d, e, f, g, h])?;
    }
    Ok(())
}

/// Appends a string behind its length, or nothing.
pub fn push_string(to: &mut Vec<u8>, text: &[u8]) -> Result<(), NoMemory>
    ensures ok { OnOk result (to.new.items ≡ to.old.items ++ written_text text.now) }
    ensures err { OnErr result (to.new.items ≡ to.old.items) }
{
    let before = to.len();
    push_len(to, text.len() as u64)?;
    if let Err(refused) = to.extend_from_slice(text) {
        to.truncate(before);
        return Err(NoMemory::from(refused));
    }
    Ok(())
}
