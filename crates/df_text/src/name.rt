//! Names of commands and options.

ghost use Rattle.std.specs.Prelude.{◌≡◌};
ghost use Rattle.df_model.specs.Words;

/// Whether the word is this name, upper and lower case of ASCII letters alike. Compares in place.
pub fn is_name(word: &[u8], name: &str) -> bool
    ensures { result ≡ Words.is_name word.now name.now }
{
    word.eq_ignore_ascii_case(name.as_bytes())
}
