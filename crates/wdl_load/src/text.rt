ghost use Rattle.std.specs.Prelude.{◌≡◌, ◌≤◌, ◌++◌, ◌-◌, map, IfOk, OnOk};
ghost use Rattle.std.specs.List.{concat, range_with_len};
ghost use Rattle.wdl_load.specs.Loads as spec;

use std::alloc::Global;
use wdl_value::{NoMemory, Text};

/// The lines in front of the calls but the first.
const HEAD: &str = "version 1.1
task step {
  input { Int a Int b }
  command <<<
    echo $(( (~{a} + ~{b}) % 1000 ))
  >>>
  output { Int r = read_int(stdout()) }
}
workflow load {
  call step as c0 { input: a = 1, b = 1 }
";

/// The first words of the line of a call.
#[tactic(auto, using(crate::proofs::Plain::plain), unfolding(crate::specs::Loads::call_words))]
fn call_words(alloc: Global, number: u32) -> Result<Text, NoMemory>
    ensures { IfOk result (λ t. t ≡ spec.call_words number) }
{
    Ok(Text::from_string(format!(in alloc; "  call step as c{number} {{ input: ")?))
}

/// The arguments of a call: the output of the call before it, and its number.
#[tactic(auto, using(crate::proofs::Plain::plain), unfolding(crate::specs::Loads::argument_words))]
fn argument_words(alloc: Global, before: u32, number: u32) -> Result<Text, NoMemory>
    ensures { IfOk result (λ t. t ≡ spec.argument_words before number) }
{
    Ok(Text::from_string(format!(in alloc; "a = c{before}.r, b = {number} }}\n")?))
}

/// Appends the line of a call that is not the first.
fn push_call(alloc: Global, text: &mut Text, number: u32) -> Result<(), NoMemory>
    requires { 1 ≤ number }
    ensures { OnOk result (text.new ≡ text.old ++ spec.call_line number) }
{
    let call = call_words(alloc, number)?;
    let arguments = argument_words(alloc, (number - 1) / 2, number)?;
    text.push_str(call.as_str())?;
    text.push_str(arguments.as_str())
}

/// Appends the lines behind the calls, of which this is the last.
#[tactic(auto, using(crate::proofs::Plain::plain))]
fn push_tail(alloc: Global, text: &mut Text, last: u32) -> Result<(), NoMemory>
    ensures { OnOk result (text.new ≡ text.old ++ spec.tail_lines last) }
{
    let lines = format!(in alloc; "  output {{ Int last = c{last}.r }}\n}}\n")?;
    text.push_str(lines.as_str())
}

/// Appends the lines of the calls but the first, of so many calls.
fn push_calls(alloc: Global, text: &mut Text, count: u32) -> Result<(), NoMemory>
    requires { 1 ≤ count }
    ensures { OnOk result (text.new ≡ text.old ++ concat (map spec.call_line (range_with_len 1 (count - 1)))) }
{
    for number in 1..count {
        push_call(alloc, text, number)?;
    }
    Ok(())
}

/// The document of a workflow of so many calls. Its output is that of the last one.
#[tactic(auto, unfolding(crate::specs::Loads::load_text))]
pub fn load_text(alloc: Global, count: u32) -> Result<Text, NoMemory>
    requires some { 1 ≤ count }
    requires few { count ≤ 10000 }
    ensures value { IfOk result (λ t. t ≡ spec.load_text count) }
{
    let mut text = Text::from_plain(alloc, HEAD)?;
    push_calls(alloc, &mut text, count)?;
    push_tail(alloc, &mut text, count - 1)?;
    Ok(text)
}
