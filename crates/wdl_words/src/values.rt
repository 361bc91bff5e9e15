ghost use Rattle.std.specs.Prelude.{◌≡◌, option_map};
ghost use Rattle.std.specs.Str.{all_ascii_digits};
ghost use Rattle.wdl_words.specs.Words as spec;
ghost use Rattle.wdl_words.specs.Faults.{Reads};

use crate::error::WordFault;
use std::alloc::Global;
use wdl_value::{Text, holds_nul};

/// The directory below which jobs run, where `--root` is left out.
const DEFAULT_ROOT: &str = "/tmp/wdl-run";

/// How many jobs may run at once, where `--workers` is left out.
const DEFAULT_WORKERS: u32 = 4;

/// The most bytes of the value of `--root`, with the slashes at its end.
const ROOT_LIMIT: usize = 512;

fn are_digits(bytes: &[u8]) -> bool
    ensures { result ≡ all_ascii_digits bytes.now }
{
    for byte in bytes {
        if !byte.is_ascii_digit() {
            return false;
        }
    }
    true
}

/// The number that decimal digits without a sign write, where it lies between the two.
pub fn number_within(low: u32, high: u32, text: &str) -> Option<u32>
    ensures { result ≡ spec.number_within low high text.now }
{
    if !are_digits(text.as_bytes()) {
        return None;
    }
    let number = text.parse::<u32>().ok()?;
    if number < low || high < number {
        return None;
    }
    Some(number)
}

fn is_between(low: u32, high: u32, number: u32) -> bool
    ensures { result ≡ spec.is_between low high number }
{
    low <= number && number <= high
}

/// Whether a code of texts, imports or checks has that number.
fn is_text_code(number: u32) -> bool
    ensures { result ≡ spec.is_text_code number }
{
    is_between(101, 107, number)
        || is_between(110, 112, number)
        || is_between(120, 123, number)
        || is_between(201, 207, number)
        || is_between(301, 312, number)
        || is_between(320, 330, number)
}

/// Whether a code of inputs or of values, or a rule, has that number.
fn is_later_code(number: u32) -> bool
    ensures { result ≡ spec.is_later_code number }
{
    is_between(401, 407, number)
        || is_between(501, 516, number)
        || is_between(601, 613, number)
        || is_between(620, 622, number)
}

/// Whether a status, a code or a rule has that number.
fn is_code(number: u32) -> bool
    ensures { result ≡ spec.is_code number }
{
    is_between(0, 11, number) || is_text_code(number) || is_later_code(number)
}

/// The number of a status, a code or a rule.
pub fn code_of(text: &str) -> Option<u32>
    ensures { result ≡ spec.code_of text.now }
{
    let number = number_within(0, 622, text)?;
    if is_code(number) { Some(number) } else { None }
}

/// The path of a file, which is not empty.
pub fn file_of(alloc: Global, text: &str) -> Result<Text, WordFault>
    ensures { Reads (spec.file_of text.now) result }
{
    if text.is_empty() || holds_nul(text.as_bytes()) {
        return Err(WordFault::Usage);
    }
    Ok(Text::from_plain(alloc, text)?)
}

/// The path of a file that may be left out.
pub fn optional_file(alloc: Global, text: Option<&str>) -> Result<Option<Text>, WordFault>
    ensures { Reads (spec.optional_file (option_map (λ s. s.now) text.entry)) result }
{
    match text {
        Some(text) => Ok(Some(file_of(alloc, text)?)),
        None => Ok(None),
    }
}

/// How many jobs may run at once: 1 to 64.
pub fn workers_of(text: Option<&str>) -> Result<u32, WordFault>
    ensures { Reads (spec.workers_of (option_map (λ s. s.now) text.entry)) result }
{
    match text {
        Some(text) => number_within(1, 64, text).ok_or(WordFault::Usage),
        None => Ok(DEFAULT_WORKERS),
    }
}

fn begins_with_slash(bytes: &[u8]) -> bool
    ensures { result ≡ spec.begins_with_slash bytes.now }
{
    match bytes {
        [first, ..] => *first == b'/',
        [] => false,
    }
}

fn is_directory(text: &str) -> bool
    ensures { result ≡ spec.is_directory text.now }
{
    begins_with_slash(text.as_bytes()) && text.len() <= ROOT_LIMIT && !holds_nul(text.as_bytes())
}

/// The text without the slashes at its end.
fn without_slashes(text: &str) -> &str
    ensures { result.now ≡ spec.without_slashes text.now }
{
    let mut rest = text;
    while let Some(front) = rest.strip_suffix('/') {
        rest = front;
    }
    rest
}

/// The path of a directory, without the slashes at its end.
fn directory_of(alloc: Global, text: &str) -> Result<Text, WordFault>
    ensures { Reads (spec.directory_of text.now) result }
{
    if !is_directory(text) {
        return Err(WordFault::Usage);
    }
    let root = without_slashes(text);
    if root.is_empty() {
        return Err(WordFault::Usage);
    }
    Ok(Text::from_plain(alloc, root)?)
}

/// The directory below which jobs get their own: its path begins with `/` and has at most 512 bytes
/// as it is given. The slashes at its end go, and something is left.
pub fn root_of(alloc: Global, text: Option<&str>) -> Result<Text, WordFault>
    ensures { Reads (spec.root_of (option_map (λ s. s.now) text.entry)) result }
{
    match text {
        Some(text) => directory_of(alloc, text),
        None => Ok(Text::from_plain(alloc, DEFAULT_ROOT)?),
    }
}
