//! `glob`: which files of a job a pattern matches.

ghost use Rattle.std.specs.Prelude.{
  ◌≡◌,
  ◌+◌,
  ◌<◌,
  ◌∷◌,
  [],
  Some,
  None,
  length,
  IfOk,
  IfSome,
  MatchOption,
  false,
  ◌==◌,
  if◌then◌else◌,
};
ghost use Rattle.std.specs.Option.{option_copied};
ghost use Rattle.std.specs.Str.{chars as chars_in};
ghost use Rattle.wdl_value.specs.Paths as spec;
ghost use Rattle.wdl_value.specs.Paths.{parts_of};
ghost use Rattle.wdl_stdlib.specs.Glob as rows;
ghost use Rattle.wdl_stdlib.specs.Gives.{Gives};

use crate::fault::EvalFault;
use crate::parts::text_in;
use crate::paths::in_directory;
use std::alloc::Global;
use wdl_value::{Answer, EvalCode, Items, NoMemory, Seen, Text, Value};

/// Whether a pattern's character is this one, or stands for any.
fn takes(p: char, c: char) -> bool
    ensures { result ≡ spec.takes p c }
{
    p == '?' || p == c
}

fn first_row(alloc: Global, name: &[char]) -> Result<Vec<bool>, NoMemory>
    ensures { IfOk result (λ row. row.items ≡ rows.first_row name.now) }
{
    let mut row = Vec::new(alloc);
    row.push(true)?;
    for _c in name {
        row.push(false)?;
    }
    Ok(row)
}

/// The ends of the name after one character.
fn moved(alloc: Global, p: char, row: &[bool], name: &[char]) -> Result<Vec<bool>, NoMemory>
    ensures { IfOk result (λ next. next.items ≡ false ∷ rows.moved p row.now name.now) }
{
    let mut next = Vec::new(alloc);
    next.push(false)?;
    let mut left = row;
    for c in name {
        let [b, rest @ ..] = left else {
            return Ok(next);
        };
        next.push(*b && takes(p, *c))?;
        left = rest;
    }
    Ok(next)
}

/// The ends of the name after any run.
fn spread(alloc: Global, row: &[bool]) -> Result<Vec<bool>, NoMemory>
    ensures { IfOk result (λ next. next.items ≡ rows.spread false row.now) }
{
    let mut next = Vec::new(alloc);
    let mut seen = false;
    for b in row {
        seen |= *b;
        next.push(seen)?;
    }
    Ok(next)
}

fn next_row(alloc: Global, p: char, row: &[bool], name: &[char]) -> Result<Vec<bool>, NoMemory>
    ensures { IfOk result (λ next. next.items ≡ (if p == 42 then rows.spread false row.now else false ∷ rows.moved p row.now name.now)) }
{
    if p == '*' {
        return spread(alloc, row);
    }
    moved(alloc, p, row, name)
}

/// Whether a pattern matches all of a name, in time of the product of their lengths.
fn wild(alloc: Global, pattern: &[char], name: &[char]) -> Result<bool, NoMemory>
    ensures { IfOk result (λ b. b ≡ spec.wild pattern.now name.now) }
{
    let mut row = first_row(alloc, name)?;
    for p in pattern {
        row = next_row(alloc, *p, row.as_slice(), name)?;
    }
    Ok(row[name.len()])
}

fn without_stars(pattern: &[char]) -> &[char]
    ensures { result.now ≡ spec.without_stars pattern.now }
{
    let mut rest = pattern;
    while let [p, more @ ..] = rest {
        if *p != '*' {
            return rest;
        }
        rest = more;
    }
    rest
}

fn after_point(alloc: Global, pattern: &[char], name: &[char]) -> Result<bool, NoMemory>
    ensures { IfOk result (λ b. b ≡ spec.after_point pattern.now name.now) }
{
    match pattern {
        ['.', rest @ ..] => wild(alloc, rest, name),
        _ => Ok(false),
    }
}

/// A point that begins a part is matched by a point alone.
fn part_matches(alloc: Global, pattern: &[char], name: &[char]) -> Result<bool, NoMemory>
    ensures { IfOk result (λ b. b ≡ spec.part_matches pattern.now name.now) }
{
    match name {
        ['.', rest @ ..] => after_point(alloc, without_stars(pattern), rest),
        _ => wild(alloc, pattern, name),
    }
}

/// The first part between slashes, and what follows its slash.
fn first_part(chars: &[char]) -> (&[char], Option<&[char]>)
    ensures parts { MatchOption result.1 (parts_of chars.now ≡ result.0.now ∷ []) (λ rest. parts_of chars.now ≡ result.0.now ∷ parts_of rest.now) }
    ensures shorter { IfSome result.1 (λ rest. length rest.now < length chars.now) }
{
    for (k, c) in chars.iter().enumerate() {
        if *c == '/' {
            return (&chars[..k], Some(&chars[k + 1..]));
        }
    }
    (chars, None)
}

/// Part by part between slashes.
fn path_matches(alloc: Global, pattern: &[char], name: &[char]) -> Result<bool, NoMemory>
    ensures { IfOk result (λ b. b ≡ spec.path_matches pattern.now name.now) }
{
    let mut pattern = pattern;
    let mut name = name;
    loop {
        let (part, parts) = first_part(pattern);
        let (piece, pieces) = first_part(name);
        if !part_matches(alloc, part, piece)? {
            return Ok(false);
        }
        match (parts, pieces) {
            (Some(more), Some(rest)) => {
                pattern = more;
                name = rest;
            }
            (None, None) => return Ok(true),
            (Some(_), None) | (None, Some(_)) => return Ok(false),
        }
    }
}

fn chars_of(alloc: Global, text: &str) -> Result<Vec<char>, NoMemory>
    ensures { IfOk result (λ chars. chars.items ≡ chars_in text.now) }
{
    Ok(text.chars().collect(alloc)?)
}

fn matching(
    alloc: Global,
    dir: &Text,
    pattern: &[char],
    files: &[Seen],
) -> Result<Items<Value>, NoMemory>
    ensures { IfOk result (λ found. found ≡ spec.matching dir.now pattern.now files.now) }
{
    let mut found = Items::new(alloc);
    for file in files {
        let name = chars_of(alloc, file.name.as_str())?;
        if path_matches(alloc, pattern, name.as_slice())? {
            found.push(in_directory(alloc, dir, file.name.as_str())?)?;
        }
    }
    Ok(found)
}

/// The files of an answer that a pattern matches part by part, in the order of their bytes, as
/// paths in the directory of the job; 516 where not all names were kept. Its time is the length of
/// the pattern times that of the names.
pub fn glob(
    alloc: Global,
    dir: &Text,
    answer: Option<&Answer>,
    pattern: &Value,
) -> Result<Value, EvalFault>
    ensures { Gives (spec.glob_of dir.now (option_copied answer.entry) pattern.now) result }
{
    let text = text_in(alloc, pattern)?;
    let pattern = chars_of(alloc, text.as_str())?;
    match answer {
        Some(answer) if answer.is_cut() => Err(EvalFault::Code(EvalCode::BodyLong)),
        Some(answer) => Ok(Value::List(matching(
            alloc,
            dir,
            pattern.as_slice(),
            answer.files.as_slice(),
        )?)),
        None => Ok(Value::List(Items::new(alloc))),
    }
}
