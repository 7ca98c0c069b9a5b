//! How many asks there are, told apart by what they let others do.

ghost use Rattle.std.specs.Prelude.{◌≡◌, ◌+◌, ◌-◌, ◌<◌, ◌^◌};
ghost use Rattle.df_intents.specs.Counting.{none};
ghost use Rattle.df_intents.specs.Counting as counting;

use df_model::Mode;

/// How many asks in any mode, and how many to write.
#[derive(Clone, Copy, Debug, PartialEq, Eq)]
pub(crate) struct Count {
    any: usize,
    exclusive: usize,
}

impl Count {
    pub(crate) fn none() -> Count
        ensures { result ≡ none }
    {
        Count {
            any: 0,
            exclusive: 0,
        }
    }

    /// How many of the asks don't go together with an ask in this mode for what they ask for.
    pub(crate) fn against(self, mode: Mode) -> usize
        ensures { result ≡ counting.against mode self }
    {
        match mode {
            Mode::Shared => self.exclusive,
            Mode::Exclusive => self.any,
        }
    }

    /// With a further ask. Nothing counts more asks than are held, and those are fewer than a number can tell.
    pub(crate) fn with(self, mode: Mode) -> Count
        ensures shared { self.exclusive + 1 < 2 ^ 64 → result.exclusive ≡ counting.weight Mode.Shared mode + self.exclusive }
        ensures any { self.any + 1 < 2 ^ 64 → result.any ≡ 1 + self.any }
    {
        Count {
            any: self.any.saturating_add(1),
            exclusive: match mode {
                Mode::Shared => self.exclusive,
                Mode::Exclusive => self.exclusive.saturating_add(1),
            },
        }
    }

    /// Without an ask in this mode, of those that it counts.
    pub(crate) fn without(self, mode: Mode) -> Count
        ensures shared { result.exclusive ≡ self.exclusive - counting.weight Mode.Shared mode }
        ensures any { result.any ≡ self.any - 1 }
    {
        Count {
            any: self.any.saturating_sub(1),
            exclusive: match mode {
                Mode::Shared => self.exclusive,
                Mode::Exclusive => self.exclusive.saturating_sub(1),
            },
        }
    }
}
