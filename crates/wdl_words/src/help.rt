//! The words that ask for help or for the version.

ghost use Rattle.std.specs.Prelude.{◌≡◌, map, string_bytes};
ghost use Rattle.wdl_words.specs.Help as spec;

use crate::wants::{Command, Wants};

/// The command of that name.
fn command_named(word: &str) -> Option<Command>
    ensures { result ≡ spec.command_named word.now }
{
    match word {
        "run" => Some(Command::Run),
        "check" => Some(Command::Check),
        "inputs" => Some(Command::Inputs),
        "cwl" => Some(Command::Cwl),
        "load" => Some(Command::Load),
        "bundle" => Some(Command::Bundle),
        "explain" => Some(Command::Explain),
        "help" => Some(Command::Help),
        _ => None,
    }
}

/// What one word asks for, of help and the version.
fn by_one(word: &str) -> Option<Wants>
    ensures { result ≡ spec.by_one word.now }
{
    match word {
        "help" | "--help" | "-h" => Some(Wants::Help { about: None }),
        "version" | "--version" | "-V" => Some(Wants::Version),
        _ => None,
    }
}

/// The command whose help two words ask for.
fn by_two(first: &str, second: &str) -> Option<Command>
    ensures { result ≡ spec.by_two first.now second.now }
{
    match second {
        "--help" | "-h" => command_named(first),
        _ if first == "help" => command_named(second),
        _ => None,
    }
}

/// What words ask for, of help and the version.
pub fn explained(words: &[String]) -> Option<Wants>
    ensures { result ≡ spec.explained (map string_bytes words.now) }
{
    match words {
        [word] => by_one(word.as_str()),
        [first, second] => {
            let command = by_two(first.as_str(), second.as_str())?;
            Some(Wants::Help {
                about: Some(command),
            })
        }
        _ => None,
    }
}
