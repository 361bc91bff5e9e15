ghost use Rattle.std.specs.Prelude.{◌≡◌, map, string_bytes, Some, None, IfOk, IsErrOf};
ghost use Rattle.clap.specs.Words.{found_of, rows_of};
ghost use Rattle.wdl_words.specs.Words as spec;
ghost use Rattle.wdl_words.specs.Faults.{Reads};
ghost use Rattle.wdl_words.specs.declared.error.WordFault.TheVariants.{Usage};

use crate::commands::{cwl_matches, operand_in, run_matches, value_of};
use crate::error::WordFault;
use crate::help::explained;
use crate::values::{code_of, file_of, number_within, optional_file, root_of, workers_of};
use crate::wants::Wants;
use clap::ArgMatches;
use std::alloc::Global;
use wdl_value::{Text, holds_nul};

fn run_of<'a>(alloc: Global, matches: &ArgMatches<'a>) -> Result<Wants, WordFault>
    ensures { Reads (spec.run_of (rows_of (found_of matches.now))) result }
{
    let file = value_of(matches, "file").ok_or(WordFault::Usage)?;
    Ok(Wants::Run {
        file: file_of(alloc, file)?,
        inputs: optional_file(alloc, value_of(matches, "inputs"))?,
        workers: workers_of(value_of(matches, "workers"))?,
        root: root_of(alloc, value_of(matches, "root"))?,
        journal: optional_file(alloc, value_of(matches, "journal"))?,
    })
}

#[tactic(auto, unfolding(crate::specs::Words::run_in))]
fn run_in(alloc: Global, words: &[String]) -> Result<Wants, WordFault>
    ensures { Reads (spec.run_in (map string_bytes words.now)) result }
{
    let matches = run_matches(alloc, words)?;
    run_of(alloc, &matches)
}

fn cwl_of<'a>(alloc: Global, matches: &ArgMatches<'a>) -> Result<Wants, WordFault>
    ensures { Reads (spec.cwl_of (rows_of (found_of matches.now))) result }
{
    let file = value_of(matches, "file").ok_or(WordFault::Usage)?;
    Ok(Wants::Cwl {
        file: file_of(alloc, file)?,
        inputs: optional_file(alloc, value_of(matches, "inputs"))?,
    })
}

#[tactic(auto, unfolding(crate::specs::Words::cwl_in))]
fn cwl_in(alloc: Global, words: &[String]) -> Result<Wants, WordFault>
    ensures { Reads (spec.cwl_in (map string_bytes words.now)) result }
{
    let matches = cwl_matches(alloc, words)?;
    cwl_of(alloc, &matches)
}

fn file_in(alloc: Global, command: &str, words: &[String]) -> Result<Text, WordFault>
    ensures { Reads (spec.file_in command.now (map string_bytes words.now)) result }
{
    file_of(alloc, operand_in(alloc, command, "file", words)?)
}

fn load_in(alloc: Global, words: &[String]) -> Result<u32, WordFault>
    ensures { Reads (spec.load_in (map string_bytes words.now)) result }
{
    number_within(1, 10_000, operand_in(alloc, "load", "number", words)?).ok_or(WordFault::Usage)
}

fn code_in(alloc: Global, words: &[String]) -> Result<u32, WordFault>
    ensures { Reads (spec.code_in (map string_bytes words.now)) result }
{
    code_of(operand_in(alloc, "explain", "code", words)?).ok_or(WordFault::Usage)
}

fn wants_by(alloc: Global, command: &str, words: &[String]) -> Result<Wants, WordFault>
    ensures { Reads (spec.wants_by command.now (map string_bytes words.now)) result }
{
    match command {
        "run" => run_in(alloc, words),
        "check" => Ok(Wants::Check {
            file: file_in(alloc, command, words)?,
        }),
        "inputs" => Ok(Wants::Inputs {
            file: file_in(alloc, command, words)?,
        }),
        "cwl" => cwl_in(alloc, words),
        "load" => Ok(Wants::Load {
            number: load_in(alloc, words)?,
        }),
        "bundle" => Ok(Wants::Bundle {
            file: file_in(alloc, command, words)?,
        }),
        "explain" => Ok(Wants::Explain {
            code: code_in(alloc, words)?,
        }),
        _ => Err(WordFault::Usage),
    }
}

fn some_nul(words: &[String]) -> bool
    ensures { result ≡ spec.some_nul (map string_bytes words.now) }
{
    for word in words {
        if holds_nul(word.as_bytes()) {
            return true;
        }
    }
    false
}

#[tactic(auto, unfolding(crate::specs::Words::wants_of_plain))]
fn wants_of_plain(alloc: Global, words: &[String]) -> Result<Wants, WordFault>
    ensures { Reads (spec.wants_of_plain (map string_bytes words.now)) result }
{
    if let Some(wants) = explained(words) {
        return Ok(wants);
    }
    match words {
        [command, ..] => wants_by(alloc, command.as_str(), words),
        [] => Err(WordFault::Usage),
    }
}

/// What the words of the command line, after the program's own name, ask for: `Usage` exactly where
/// they have no reading.
///
/// The words are `run [--inputs FILE] [--workers N] [--root DIR] [--journal FILE] FILE`,
/// `check FILE`, `inputs FILE`, `cwl [--inputs FILE] FILE`, `load N`, `bundle FILE` or
/// `explain CODE`. Each option takes one value, as a word of its own or after `=`, and stands at
/// most once. N is one or more decimal digits, for 1 to 64 workers (4 where it is left out) or 1 to
/// 10,000 calls. DIR begins with `/`, has at most 512 bytes as it is given, and is `/tmp/wdl-run`
/// where it is left out; the slashes at its end are cut, and something is left. CODE is one or more
/// decimal digits, for a status (0 to 11), a code (101 to 107, 110 to 112, 120 to 123, 201 to 207,
/// 301 to 312, 320 to 330, 401 to 407, 501 to 516) or a rule (601 to 613, 620 to 622). No word
/// holds NUL, and no FILE is empty.
///
/// Help is asked for by `help`, `--help` or `-h` alone, and that of a command by `help COMMAND`,
/// `COMMAND --help` or `COMMAND -h` alone, where COMMAND is `run`, `check`, `inputs`, `cwl`,
/// `load`, `bundle`, `explain` or `help`; the version by `version`, `--version` or `-V` alone. Among other
/// words `--help`, `-h`, `--version` and `-V` have no reading.
#[tactic(auto, using(crate::proofs::ReadLaws::read_value, crate::proofs::ReadLaws::within, crate::proofs::ReadLaws::read_usage))]
pub fn read_words(alloc: Global, words: &[String]) -> Result<Wants, WordFault>
    ensures value { IfOk result (λ asked. spec.wants (map string_bytes words.now) ≡ Some asked) }
    ensures limits { IfOk result spec.IsWithinLimits }
    ensures usage { IsErrOf result Usage → spec.wants (map string_bytes words.now) ≡ None }
{
    if some_nul(words) {
        return Err(WordFault::Usage);
    }
    wants_of_plain(alloc, words)
}
