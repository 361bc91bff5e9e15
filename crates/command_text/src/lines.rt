ghost use Rattle.std.specs.Prelude.{
  ◌≡◌,
  ◌++◌,
  length,
  map,
  string_bytes,
  if◌then◌else◌,
  IfOk,
  OnOk,
};
ghost use Rattle.std.specs.List.{All, filter, fold, join_with_byte};
ghost use Rattle.wdl_base.specs.Templates as spec;
ghost use Rattle.command_text.specs.Marks.{Fits, led};

use std::alloc::Global;
use wdl_value::NoMemory;

fn is_indent(byte: u8) -> bool
    ensures { result ≡ spec.is_indent byte }
{
    byte == b' ' || byte == b'\t'
}

fn is_blank(byte: u8) -> bool
    ensures { result ≡ spec.is_blank byte }
{
    is_indent(byte) || byte == b'\r'
}

fn is_blank_line(line: &str) -> bool
    ensures { result ≡ spec.is_blank_line line.now }
{
    for byte in line.as_bytes() {
        if !is_blank(*byte) {
            return false;
        }
    }
    true
}

/// The blanks and tabs that a line begins with.
fn indent<'a>(line: &'a str) -> &'a [u8]
    ensures { result.now ≡ spec.indent line.now }
{
    let bytes = line.as_bytes();
    for (at, byte) in bytes.iter().enumerate() {
        if !is_indent(*byte) {
            return &bytes[..at];
        }
    }
    bytes
}

/// The longest common prefix.
fn common<'a>(left: &'a [u8], right: &[u8]) -> &'a [u8]
    ensures { result.now ≡ spec.common left.now right.now }
{
    let most = left.len().min(right.len());
    for at in 0..most {
        if left[at] != right[at] {
            return &left[..at];
        }
    }
    &left[..most]
}

/// What a prefix has in common with the indent of a line, unless the line is blank.
fn narrow<'a>(prefix: &'a [u8], line: &str) -> &'a [u8]
    ensures { result.now ≡ (if spec.is_written line.now then spec.common prefix.now (spec.indent line.now) else prefix.now) }
{
    if is_blank_line(line) {
        return prefix;
    }
    common(prefix, indent(line))
}

/// The length of what a prefix and the indents of the lines that are not blank have in common.
fn narrowed(mut prefix: &[u8], lines: &[&str]) -> usize
    ensures { result ≡ length (fold spec.common prefix.entry.now
        (map spec.indent (filter spec.is_written (map (λ l. l.now) lines.now)))) }
{
    for line in lines {
        prefix = narrow(prefix, line);
    }
    prefix.len()
}

/// The length of the longest common prefix of blanks and tabs of the lines that are not blank.
pub fn common_indent(mut lines: &[&str]) -> usize
    ensures { result ≡ length (spec.common_indent (map (λ l. l.now) lines.entry.now)) }
{
    while let [line, rest @ ..] = lines {
        if !is_blank_line(line) {
            return narrowed(indent(line), rest);
        }
        lines = rest;
    }
    0
}

/// The lines without the first one, where there are two or more and it is blank.
pub fn without_first<'a, 'b>(lines: &'a [&'b str]) -> &'a [&'b str]
    ensures { map (λ l. l.now) result.now ≡ spec.without_first (map (λ l. l.now) lines.now) }
{
    match lines {
        [first, rest @ ..] if !rest.is_empty() && is_blank_line(first) => rest,
        _ => lines,
    }
}

/// The lines without the last one, where there are two or more and it is blank.
pub fn without_last<'a, 'b>(lines: &'a [&'b str]) -> &'a [&'b str]
    ensures { map (λ l. l.now) result.now ≡ spec.without_last (map (λ l. l.now) lines.now) }
{
    match lines {
        [rest @ .., last] if !rest.is_empty() && is_blank_line(last) => rest,
        _ => lines,
    }
}

/// A line without so many blanks and tabs, and a blank line without any character.
fn cut<'a>(line: &'a str, width: usize) -> &'a str
    requires { Fits width line.now }
    ensures { result.now ≡ spec.cut width line.now }
{
    if is_blank_line(line) {
        return "";
    }
    &line[width..]
}

/// Appends the cut lines, a newline before each of them.
fn append_cut(text: &mut String, lines: &[&str], width: usize) -> Result<(), NoMemory>
    requires { All (Fits width) (map (λ l. l.now) lines.now) }
    ensures { OnOk result (string_bytes text.new
        ≡ string_bytes text.old ++ led (map (spec.cut width) (map (λ l. l.now) lines.now))) }
{
    for line in lines {
        text.push('\n')?;
        text.push_str(cut(line, width))?;
    }
    Ok(())
}

/// The cut lines, joined by newlines.
pub fn join_cut(alloc: Global, lines: &[&str], width: usize) -> Result<String, NoMemory>
    requires { All (Fits width) (map (λ l. l.now) lines.now) }
    ensures { IfOk result (λ text. string_bytes text
        ≡ join_with_byte 10 (map (spec.cut width) (map (λ l. l.now) lines.now))) }
{
    match lines {
        [] => Ok(String::new(alloc)),
        [first, rest @ ..] => {
            let mut text = String::from_str(alloc, cut(first, width))?;
            append_cut(&mut text, rest, width)?;
            Ok(text)
        }
    }
}
