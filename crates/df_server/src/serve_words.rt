//! The words of `serve`.

ghost use Rattle.std.specs.Prelude.{◌≡◌, ◌++◌, ℕ, List, map, string_bytes, codes, MatchOption};
ghost use Rattle.df_server.specs.Serve.{IsPort, IsServe, NamesPort};

use df_text::parse_u64;

/// The port of Redis.
const DEFAULT_PORT: u16 = 6379;

/// The port that `serve` and the words behind it name: none, `--port N` or `--port=N`.
pub fn read_port(words: &[String]) -> Option<u16>
    ensures { MatchOption result ((port : ℕ) → ¬ (IsServe (map string_bytes words.now) port)) (λ port. IsServe (map string_bytes words.now) port) }
{
    match words {
        [] => None,
        [name, behind @ ..] => {
            if name.as_str() == "serve" {
                port_behind(behind)
            } else {
                None
            }
        }
    }
}

fn port_behind(words: &[String]) -> Option<u16>
    ensures { MatchOption result ((port : ℕ) → ¬ (NamesPort (map string_bytes words.now) port)) (λ port. NamesPort (map string_bytes words.now) port) }
{
    match words {
        [] => Some(DEFAULT_PORT),
        [joined] => joined_port(joined.as_bytes()),
        [name, digits] => {
            if name.as_str() == "--port" {
                port_of(digits.as_bytes())
            } else {
                None
            }
        }
        _ => None,
    }
}

/// `--port=N`.
fn joined_port(word: &[u8]) -> Option<u16>
    ensures { MatchOption result ((digits : List ℕ) (port : ℕ) → word.now ≡ codes "--port=" ++ digits → ¬ (IsPort digits port)) (λ port. (digits : List ℕ) × (word.now ≡ codes "--port=" ++ digits) × IsPort digits port) }
{
    match word.strip_prefix(b"--port=") {
        Some(digits) => port_of(digits),
        None => None,
    }
}

/// A canonical decimal from 1 to 65535.
fn port_of(digits: &[u8]) -> Option<u16>
    ensures { MatchOption result ((port : ℕ) → ¬ (IsPort digits.now port)) (λ port. IsPort digits.now port) }
{
    match parse_u64(digits) {
        Some(port) if port > 0 && port < 65536 => Some(port as u16),
        _ => None,
    }
}
