//! Members as the tests write them, in words between blanks: `b=a,c` declares `b` by `a` and `c`,
//! `c!x.out;d` calls `c` with `x.out` after the call `d`, `[ .. ]i=xs` is a scatter over `xs` with
//! the item `i`, and `[ .. ]?a` a condition on `a`. An input without `=` has no default.

use std::alloc::Global;
use std::test::Fail;
use wdl_typed::{Statement, TCall, TDecl, TExpr, TField, TIf, TInput, TScatter, Target};
use wdl_value::{Items, Key, Name, Span, Ty};

/// The span of a member: it starts at the member's number.
fn span(at: usize) -> Span {
    Span {
        doc: 0,
        start: u32::try_from(at).unwrap_or(0),
        end: 0,
    }
}

/// Appends an item: no `?` stands behind it where it is made, so that it is dropped here alone.
fn put<T: Drop>(items: &mut Items<T>, item: T) -> Result<(), Fail> {
    items.push(item)?;
    Ok(())
}

fn key(alloc: Global, text: &str) -> Result<Key, Fail> {
    let (first, second) = match text.split_once('.') {
        Some((first, output)) => (first, Some(Name::new(alloc, output)?)),
        None => (text, None),
    };
    Ok(Key {
        first: Name::new(alloc, first)?,
        second,
    })
}

/// References to these names, of which the tests make array literals.
fn references(alloc: Global, names: &str) -> Result<Items<TExpr>, Fail> {
    let mut items = Items::new(alloc);
    for name in names.split(',') {
        if !name.is_empty() {
            put(&mut items, TExpr::Get(key(alloc, name)?))?;
        }
    }
    Ok(items)
}

/// Appends the declaration that a word stands for.
pub fn push_declaration(
    alloc: Global,
    word: &str,
    list: &mut Items<Statement>,
) -> Result<(), Fail> {
    let (name, names) = word.split_once('=').unwrap_or((word, ""));
    let name = Name::new(alloc, name)?;
    let value = references(alloc, names)?;
    let span = span(list.len());
    put(
        list,
        Statement::Decl(TDecl {
            name,
            ty: Ty::Int,
            value: TExpr::ListOf(value),
            span,
        }),
    )
}

fn argument(alloc: Global, names: &str) -> Result<Items<TField<TExpr>>, Fail> {
    let name = Name::new(alloc, "x")?;
    let value = references(alloc, names)?;
    let mut args = Items::new(alloc);
    put(
        &mut args,
        TField {
            name,
            value: TExpr::ListOf(value),
        },
    )?;
    Ok(args)
}

fn call_names(alloc: Global, after: &str) -> Result<Items<Name>, Fail> {
    let mut names = Items::new(alloc);
    if !after.is_empty() {
        names.push(Name::new(alloc, after)?)?;
    }
    Ok(names)
}

fn push_call(
    alloc: Global,
    name: &str,
    uses: &str,
    list: &mut Items<Statement>,
) -> Result<(), Fail> {
    let (names, after) = uses.split_once(';').unwrap_or((uses, ""));
    let name = Name::new(alloc, name)?;
    let args = argument(alloc, names)?;
    let after = call_names(alloc, after)?;
    let span = span(list.len());
    put(
        list,
        Statement::Call(TCall {
            name,
            target: Target::Task(0),
            args,
            after,
            span,
        }),
    )
}

fn push_scatter(
    alloc: Global,
    body: Items<Statement>,
    item: &str,
    over: &str,
    list: &mut Items<Statement>,
) -> Result<(), Fail> {
    let item = Name::new(alloc, item)?;
    let over = references(alloc, over)?;
    let span = span(list.len());
    put(
        list,
        Statement::Scatter(TScatter {
            number: 0,
            item,
            over: TExpr::ListOf(over),
            body,
            span,
        }),
    )
}

fn push_condition(
    alloc: Global,
    body: Items<Statement>,
    cond: &str,
    list: &mut Items<Statement>,
) -> Result<(), Fail> {
    let cond = references(alloc, cond)?;
    let span = span(list.len());
    put(
        list,
        Statement::If(TIf {
            number: 0,
            cond: TExpr::ListOf(cond),
            body,
            span,
        }),
    )
}

/// Appends the block that ends by that word, around this body.
fn push_block(
    alloc: Global,
    body: Items<Statement>,
    word: &str,
    list: &mut Items<Statement>,
) -> Result<(), Fail> {
    match word.split_once('=') {
        Some((item, over)) => push_scatter(alloc, body, item, over, list),
        None => push_condition(alloc, body, word.strip_prefix('?').unwrap_or(word), list),
    }
}

fn push_simple(alloc: Global, word: &str, list: &mut Items<Statement>) -> Result<(), Fail> {
    match word.split_once('!') {
        Some((name, uses)) => push_call(alloc, name, uses, list),
        None => push_declaration(alloc, word, list),
    }
}

fn top(alloc: Global, open: &mut Vec<Items<Statement>>) -> Items<Statement> {
    open.pop().unwrap_or(Items::new(alloc))
}

/// Adds what a word stands for to the list that is open.
fn push_word(alloc: Global, word: &str, open: &mut Vec<Items<Statement>>) -> Result<(), Fail> {
    match word.strip_prefix(']') {
        Some(head) => {
            let body = top(alloc, open);
            let mut list = top(alloc, open);
            push_block(alloc, body, head, &mut list)?;
            open.push(list)?;
        }
        None => {
            let mut list = top(alloc, open);
            push_simple(alloc, word, &mut list)?;
            open.push(list)?;
        }
    }
    Ok(())
}

/// The statements that a text stands for.
pub fn statements(alloc: Global, text: &str) -> Result<Items<Statement>, Fail> {
    let mut open = Vec::new(alloc);
    for word in text.split(' ') {
        if word == "[" {
            open.push(Items::new(alloc))?;
        } else {
            push_word(alloc, word, &mut open)?;
        }
    }
    Ok(top(alloc, &mut open))
}

fn push_input(alloc: Global, word: &str, list: &mut Items<TInput>) -> Result<(), Fail> {
    let (name, names) = word.split_once('=').unwrap_or((word, ""));
    let has_default = word.contains('=');
    let name = Name::new(alloc, name)?;
    let value = references(alloc, names)?;
    let span = span(list.len());
    put(
        list,
        TInput {
            name,
            ty: Ty::Int,
            value: has_default.then_some(TExpr::ListOf(value)),
            span,
        },
    )
}

/// The inputs that a text stands for.
pub fn inputs(alloc: Global, text: &str) -> Result<Items<TInput>, Fail> {
    let mut list = Items::new(alloc);
    for word in text.split(' ') {
        push_input(alloc, word, &mut list)?;
    }
    Ok(list)
}
