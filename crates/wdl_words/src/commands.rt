ghost use Rattle.std.specs.Prelude.{◌≡◌, true, false, map, option_map, string_bytes, IfOk};
ghost use Rattle.clap.specs.Words.{
  app_of,
  first_of,
  found_of,
  is_simple_and_free,
  rows_of,
  rule_of,
};
ghost use Rattle.wdl_words.specs.Commands.{
  cwl_app,
  operand_app,
  operand_rule,
  option_rule,
  run_app,
};
ghost use Rattle.wdl_words.specs.Faults.{FindsIn, ReadsText};
ghost use Rattle.wdl_words.specs.Words.{operand_in};

use crate::error::WordFault;
use clap::{Arg, ArgMatches, Command};
use std::alloc::{AllocError, Global};

fn option<'a>(alloc: Global, name: &'a str) -> Arg<'a>
    ensures rule { rule_of result ≡ option_rule name.now }
    ensures local { result.global ≡ false }
{
    Arg::new(alloc, name).long(name)
}

fn operand<'a>(alloc: Global, name: &'a str) -> Arg<'a>
    ensures rule { rule_of result ≡ operand_rule name.now }
    ensures local { result.global ≡ false }
{
    Arg::new(alloc, name).required(true)
}

fn run_command<'a>(alloc: Global) -> Result<Command<'a>, AllocError>
    ensures { IfOk result (λ command. app_of command ≡ run_app) }
{
    Command::new(alloc, "run")
        .arg(option(alloc, "inputs"))?
        .arg(option(alloc, "workers"))?
        .arg(option(alloc, "root"))?
        .arg(option(alloc, "journal"))?
        .arg(operand(alloc, "file"))
}

fn cwl_command<'a>(alloc: Global) -> Result<Command<'a>, AllocError>
    ensures { IfOk result (λ command. app_of command ≡ cwl_app) }
{
    Command::new(alloc, "cwl")
        .arg(option(alloc, "inputs"))?
        .arg(operand(alloc, "file"))
}

fn operand_command<'a>(
    alloc: Global,
    name: &'a str,
    word: &'a str,
) -> Result<Command<'a>, AllocError>
    ensures { IfOk result (λ command. app_of command ≡ operand_app name.now word.now) }
{
    Command::new(alloc, name).arg(operand(alloc, word))
}

/// What clap finds of a simple command in the words, the first of which is the program's name.
fn matches_in<'a>(command: Command<'a>, words: &'a [String]) -> Result<ArgMatches<'a>, WordFault>
    requires { is_simple_and_free (app_of command) ≡ true }
    ensures { FindsIn (app_of command.entry) (map string_bytes words.now) result }
{
    Ok(command.try_get_matches_from(words)?)
}

/// The value that was found for an argument.
pub fn value_of<'a>(matches: &ArgMatches<'a>, id: &str) -> Option<&'a str>
    ensures { option_map (λ s. s.now) result ≡ first_of id.now (rows_of (found_of matches.now)) }
{
    matches.get_str(id)
}

/// What clap finds in the words of `run`.
pub fn run_matches<'a>(alloc: Global, words: &'a [String]) -> Result<ArgMatches<'a>, WordFault>
    ensures { FindsIn run_app (map string_bytes words.now) result }
{
    matches_in(run_command(alloc)?, words)
}

/// What clap finds in the words of `cwl`.
pub fn cwl_matches<'a>(alloc: Global, words: &'a [String]) -> Result<ArgMatches<'a>, WordFault>
    ensures { FindsIn cwl_app (map string_bytes words.now) result }
{
    matches_in(cwl_command(alloc)?, words)
}

/// The one word of a command that has no option.
pub fn operand_in<'a>(
    alloc: Global,
    name: &'a str,
    word: &'a str,
    words: &'a [String],
) -> Result<&'a str, WordFault>
    ensures { ReadsText (operand_in name.now word.now (map string_bytes words.now)) result }
{
    let matches = matches_in(operand_command(alloc, name, word)?, words)?;
    value_of(&matches, word).ok_or(WordFault::Usage)
}
