//! Why words are no command.

ghost use Rattle.std.specs.Prelude.{◌≡◌};
ghost use Rattle.df_model.specs.Reads.{Reading};
ghost use Rattle.df_parse.specs.Reading.{CommandRead, Refuses};
ghost use Rattle.df_parse.specs.declared.refusal.Refusal.TheVariants as refusals;

use df_model::{Bin, Command, ErrorText, NoMemory};
use std::alloc::Global;

/// Why words are no command. A word that is no number or no option, where one is wanted, is none of
/// these: such words are the command `Wrong`, which a transaction queues.
#[derive(Debug, Drop)]
pub enum Refusal {
    /// No row has this name, or there is no word at all.
    Unknown,
    /// The command of this name has another count of words.
    Arity(ErrorText),
    NoMemory,
}

impl From<NoMemory> for Refusal {
    ghost from_gives = { λ _ refusal. refusal ≡ refusals.NoMemory };

    fn from(_: NoMemory) -> Self {
        Refusal::NoMemory
    }
}

/// Refuses the count of words of the command with this name.
pub fn arity(alloc: Global, name: &str) -> Refusal
    ensures { Refuses (Reading.Arity name.now) result }
{
    match Bin::from_slice(alloc, name.as_bytes()) {
        Ok(name) => Refusal::Arity(ErrorText::Arity(name)),
        Err(_) => Refusal::NoMemory,
    }
}

/// The command that answers a word without its partner. A transaction queues it, so this is no refusal.
pub fn unpaired(alloc: Global, name: &str, command: &mut Command) -> Result<(), Refusal>
    ensures { CommandRead (Command.Wrong (ErrorText.Arity name.now)) result command.new }
{
    let name = Bin::from_slice(alloc, name.as_bytes())?;
    *command = Command::Wrong(ErrorText::Arity(name));
    Ok(())
}
