//! What becomes of a key.

ghost use Rattle.std.specs.Prelude.{◌≡◌, ◌≢◌, IsTrue, ◌↔◌, Some};
ghost use Rattle.std.specs.Option.{option_copied};
ghost use Rattle.df_values.specs.Seen.{seen, seen_held};
ghost use Rattle.df_values.specs.Edits.{applied, Alters};

use crate::{Edit, Value};

/// What becomes of a key. All memory that the change takes is in it, or is room of the value that the key holds.
#[derive(Debug, Drop)]
pub enum Change {
    Keep,
    /// Whatever the key held is replaced.
    Put(Value),
    Delete,
    /// For a key that holds a value of the edit's kind.
    Edit(Edit),
}

impl Change {
    /// Whether the key holds another value once the change was made. Bytes are compared only where a string is
    /// put over a string.
    pub fn alters(&self, value: Option<&Value>) -> bool
        requires { Alters self.now (seen_held (option_copied value)) }
        ensures { IsTrue result
            ↔ (applied self.now (seen_held (option_copied value.entry)) ≢ seen_held (option_copied value.entry)) }
    {
        match self {
            Change::Keep => false,
            Change::Put(new) => puts_another(new, value),
            Change::Delete => true,
            Change::Edit(_) => true,
        }
    }
}

/// Whether the new value differs from the one that is there.
fn puts_another(new: &Value, value: Option<&Value>) -> bool
    requires { Alters (Change.Put new.now) (seen_held (option_copied value)) }
    ensures { IsTrue result ↔ (Some (seen new.now) ≢ seen_held (option_copied value.entry)) }
{
    match value {
        None => true,
        Some(old) => differs(new, old),
    }
}

fn differs(new: &Value, old: &Value) -> bool
    requires { Alters (Change.Put new.now) (Some (seen old.now)) }
    ensures { IsTrue result ↔ (seen new.now ≢ seen old.now) }
{
    match (new, old) {
        (Value::Str(new), Value::Str(old)) => new.as_slice() != old.as_slice(),
        _ => true,
    }
}
