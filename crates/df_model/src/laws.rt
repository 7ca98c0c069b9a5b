//! Laws of the definitions, each the contract of a function that does nothing.

ghost use Rattle.df_model.specs.Laws.{IsLocal, SessionsCall};

/// A command that names keys sees the keyspace at these keys alone and changes no key but those that
/// it writes; a key that it only reads stays.
pub fn meaning_is_local()
    ensures { IsLocal }
{}

/// What the requests of a session call keeps to the limits of a call.
pub fn sessions_call()
    ensures { SessionsCall }
{}
