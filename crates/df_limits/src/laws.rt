//! Laws of the definitions, each the contract of a function that does nothing.

ghost use Rattle.df_limits.specs.Laws.{CommandsKeepLimits, CallsKeepLimits, NoKeysKeepLimits};

/// What a command means keeps the limits of the keyspace, and so does whatever outcome a call may have.
/// The empty keyspace keeps them.
pub fn commands_keep_the_limits()
    ensures commands { CommandsKeepLimits }
    ensures calls { CallsKeepLimits }
    ensures no_keys { NoKeysKeepLimits }
{}
