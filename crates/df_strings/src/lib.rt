//! The commands of one key that are about strings, and TYPE.
//!
//! `prepare_into` asks first what the key holds, and then which command it is: `on_missing`, `on_text` and
//! `on_other` have a line for each command. What a command is to answer stands in df_model, specs/Meaning/Strings.
#![tactic(auto)]

mod counter;
mod dispatch;
mod part;
mod set;

pub use dispatch::prepare_into;
