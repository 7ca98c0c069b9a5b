//! The tests of df_model, df_text, df_resp and df_parse, through their public calls.
#![tactic(auto)]

#[cfg(test)]
mod model;
#[cfg(test)]
mod parse;
#[cfg(test)]
mod resp;
#[cfg(test)]
mod text;
