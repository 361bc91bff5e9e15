//! Inputs of a workflow that no document declares: their order is not that of the text, or their
//! type names no struct; and texts of inputs at their limits.

use std::alloc::Global;
use std::test::Fail;
use wdl_json::{InputFault, flow_inputs, outputs_text};
use wdl_typed::{FlowDef, TInput};
use wdl_value::{Boxed, Items, Name, Span, Ty};

fn named(alloc: Global, word: &str) -> Result<Ty, Fail> {
    match word {
        "Bool" => Ok(Ty::Bool),
        "Int" => Ok(Ty::Int),
        "Str" => Ok(Ty::Str),
        _ => Ok(Ty::Struct(Name::new(alloc, word)?)),
    }
}

/// `T`, `T?` or `T[]`, which is `Array[T]`.
fn type_of(alloc: Global, text: &str) -> Result<Ty, Fail> {
    if let Some(word) = text.strip_suffix('?') {
        let inner = named(alloc, word)?;
        return Ok(Ty::Opt(Boxed::new(alloc, inner)?));
    }
    match text.strip_suffix("[]") {
        Some(word) => {
            let item = named(alloc, word)?;
            Ok(Ty::Array {
                item: Boxed::new(alloc, item)?,
                some: false,
            })
        }
        None => named(alloc, text),
    }
}

/// An input by its name, where it begins in the text, and its type.
fn input(alloc: Global, text: &str) -> Result<TInput, Fail> {
    let (name, rest) = text.split_once(' ').ok_or("an input")?;
    let (start, ty) = rest.split_once(' ').ok_or("a type")?;
    let start = start.parse::<u32>()?;
    Ok(TInput {
        name: Name::new(alloc, name)?,
        ty: type_of(alloc, ty)?,
        value: None,
        span: Span {
            doc: 0,
            start,
            end: start,
        },
    })
}

/// The workflow `w` of the inputs between semicolons.
fn flow(alloc: Global, text: &str) -> Result<FlowDef, Fail> {
    let mut inputs = Items::new(alloc);
    for part in text.split(';') {
        inputs.push(input(alloc, part)?)?;
    }
    Ok(FlowDef {
        name: Name::new(alloc, "w")?,
        inputs,
        body: Items::new(alloc),
        outputs: Items::new(alloc),
        span: Span {
            doc: 0,
            start: 0,
            end: 0,
        },
    })
}

/// The inputs that a text gives as JSON, or the code and the name of the fault.
fn answer(alloc: Global, inputs: &str, text: &str) -> Result<String, Fail> {
    let flow = flow(alloc, inputs)?;
    match flow_inputs(alloc, text.as_bytes(), &flow, &[]) {
        Ok(env) => {
            let text = outputs_text(alloc, &flow.name, env.as_slice())?;
            Ok(String::from_str(alloc, text.as_str())?)
        }
        Err(
            InputFault::Bad {
                code,
                name: Some(name),
            },
        ) => Ok(format!(in alloc; "{} {}", code, name.as_str())?),
        Err(InputFault::Bad { code, name: None }) => Ok(format!(in alloc; "{}", code)?),
        Err(InputFault::NoMemory) => Ok(String::from_str(alloc, "no memory")?),
    }
}

/// Inputs, a text and the answer, one case a line.
const CASES: &str = "\
xs 40 Str[];c 30 Bool|{}|404 w.c
xs 30 Str[];c 30 Bool|{}|404 w.xs
s 1 Other|{\"w.s\":{}}|405 w.s";

/// The first case that is answered otherwise, or nothing.
fn first_other<'a>(alloc: Global, cases: &'a str) -> Result<&'a str, Fail> {
    for case in cases.split('\n') {
        let (inputs, rest) = case.split_once('|').ok_or("a text")?;
        let (text, expected) = rest.split_once('|').ok_or("an answer")?;
        if answer(alloc, inputs, text)?.as_str() != expected {
            return Ok(case);
        }
    }
    Ok("")
}

#[test]
fn the_first_fault_in_the_text_is_answered(rt: HostRuntime) -> Result<(), Fail> {
    assert_eq!(rt; first_other(rt.alloc(), CASES)?, "");
    Ok(())
}

/// A text, and another one so many times behind it.
fn repeated(alloc: Global, first: &str, more: &str, count: usize) -> Result<String, Fail> {
    let mut text = String::from_str(alloc, first)?;
    text.push_str(more.repeat(alloc, count)?.as_str())?;
    Ok(text)
}

#[test]
fn a_text_past_its_limit_is_refused_before_it_is_read(rt: HostRuntime) -> Result<(), Fail> {
    let alloc = rt.alloc();
    let whole = repeated(alloc, "{}", " ", 1_048_574)?;
    assert_eq!(rt; answer(alloc, "o 1 Int?", whole.as_str())?.as_str(), "{}");
    let longer = repeated(alloc, "{}", " ", 1_048_575)?;
    assert_eq!(rt; answer(alloc, "o 1 Int?", longer.as_str())?.as_str(), "407");
    let deep = repeated(alloc, "", "[", 1_000)?;
    assert_eq!(rt; answer(alloc, "o 1 Int?", deep.as_str())?.as_str(), "401");
    Ok(())
}

#[test]
fn a_list_past_the_limit_of_items_does_not_fit(rt: HostRuntime) -> Result<(), Fail> {
    let alloc = rt.alloc();
    let mut most = repeated(alloc, "{\"w.xs\":[1", ",1", 99_999)?;
    most.push_str("]}")?;
    assert!(rt; answer(alloc, "xs 1 Int[]", most.as_str())?.as_str() == most.as_str());
    let mut more = repeated(alloc, "{\"w.xs\":[1", ",1", 100_000)?;
    more.push_str("]}")?;
    assert!(rt; answer(alloc, "xs 1 Int[]", more.as_str())?.as_str() == "405 w.xs");
    Ok(())
}
