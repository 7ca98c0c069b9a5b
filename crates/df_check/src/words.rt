//! The words of `check`.

ghost use Rattle.std.specs.Prelude.{◌≡◌, map, string_bytes, MatchOption};
ghost use Rattle.df_model.specs.Values.{Bytes};
ghost use Rattle.df_check.specs.Lines.{IsCheck, IsFileName, NamesFile};

/// The file that `check FILE` names; `--` may stand before it.
pub fn file_named(words: &[String]) -> Option<&str>
    ensures { MatchOption result ((name : Bytes) → ¬ (IsCheck (map string_bytes words.now) name)) (λ name. IsCheck (map string_bytes words.now) name.now) }
{
    match words {
        [] => None,
        [command, behind @ ..] => {
            if command.as_str() == "check" {
                file_behind(behind)
            } else {
                None
            }
        }
    }
}

fn file_behind(words: &[String]) -> Option<&str>
    ensures { MatchOption result ((name : Bytes) → ¬ (NamesFile (map string_bytes words.now) name)) (λ name. NamesFile (map string_bytes words.now) name.now) }
{
    match words {
        [name] => file_name(name.as_str()),
        [end, name] => {
            if end.as_str() == "--" {
                file_name(name.as_str())
            } else {
                None
            }
        }
        _ => None,
    }
}

/// A name of a file is not empty, and begins as no option does.
fn file_name(name: &str) -> Option<&str>
    ensures { MatchOption result (¬ (IsFileName name.now)) (λ same. IsFileName name.now × (same.now ≡ name.now)) }
{
    match name.as_bytes() {
        [] => None,
        [first, ..] => { if *first == b'-' { None } else { Some(name) } }
    }
}
