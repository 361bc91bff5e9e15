//! Values that no document has: a map with a key twice, an undefined value at the type String, and
//! a list past its limit; and what functions on files give without an answer.

use std::alloc::Global;
use std::test::Fail;
use wdl_eval::{Bindings, NodeFault, Setting, evaluate};
use wdl_stdlib::{EvalFault, apply};
use wdl_typed::TExpr;
use wdl_value::{
    Bind, Boxed, EvalCode, Func, Items, Key, MapRow, Name, NoMemory, Text, Ty, Value, cast, fits,
    same_value, size,
};

/// A map of two keys to undefined values.
fn map_of(alloc: Global, first: i64, second: i64) -> Result<Value, NoMemory> {
    let mut rows = Items::new(alloc);
    rows.push(MapRow {
        key: Value::Int(first),
        value: Value::Absent,
    })?;
    rows.push(MapRow {
        key: Value::Int(second),
        value: Value::Absent,
    })?;
    Ok(Value::Map(rows))
}

/// Whether a map of these keys fits `Map[Int, String?]`.
fn map_fits(alloc: Global, first: i64, second: i64) -> Result<bool, NoMemory> {
    let value = Ty::Opt(Boxed::new(alloc, Ty::Str)?);
    let ty = Ty::Map {
        key: Boxed::new(alloc, Ty::Int)?,
        value: Boxed::new(alloc, value)?,
    };
    Ok(fits(&map_of(alloc, first, second)?, &ty, &Items::new(alloc)))
}

#[test]
fn a_map_that_fits_has_distinct_keys(rt: HostRuntime) -> Result<(), Fail> {
    let alloc = rt.alloc();
    assert!(rt; map_fits(alloc, 1, 2)?);
    assert!(rt; !map_fits(alloc, 1, 1)?);
    Ok(())
}

/// A pair of a map and a list.
fn pair_of(alloc: Global) -> Result<Value, NoMemory> {
    let mut items = Items::new(alloc);
    items.push(Value::Bool(true))?;
    let left = map_of(alloc, 1, 2)?;
    Ok(Value::Pair(
        Boxed::new(alloc, left)?,
        Boxed::new(alloc, Value::List(items))?,
    ))
}

#[test]
fn a_copied_value_is_the_same(rt: HostRuntime) -> Result<(), Fail> {
    let alloc = rt.alloc();
    let pair = pair_of(alloc)?;
    let copy = pair.copy(alloc)?;
    assert!(rt; same_value(&copy, &pair));
    assert!(rt; !same_value(&copy, &Value::Absent));
    assert!(rt; size(&pair) == 8);
    Ok(())
}

#[test]
fn an_undefined_value_is_no_text(rt: HostRuntime) -> Result<(), Fail> {
    let value = cast(rt.alloc(), &Value::Absent, &Ty::Str);
    assert!(rt; !matches!(&value, Ok(Value::Str(_))));
    Ok(())
}

// ---- functions on files without an answer

fn finds_nothing(alloc: Global, pattern: &str) -> Result<bool, Fail> {
    let dir = Text::new(alloc, "/d/say")?;
    let pattern = Value::Str(Text::new(alloc, pattern)?);
    let found = apply(alloc, Func::Glob, &[pattern], &dir, None)?;
    Ok(same_value(&found, &Value::List(Items::new(alloc))))
}

fn is_missing(alloc: Global, path: &str) -> Result<bool, Fail> {
    let dir = Text::new(alloc, "/d/say")?;
    let path = Value::File(Text::new(alloc, path)?);
    let read = apply(alloc, Func::ReadLines, &[path], &dir, None);
    Ok(matches!(&read, Err(EvalFault::Code(EvalCode::FileMissing))))
}

#[test]
fn without_an_answer_there_are_no_files(rt: HostRuntime) -> Result<(), Fail> {
    let alloc = rt.alloc();
    assert!(rt; finds_nothing(alloc, "*")?);
    assert!(rt; is_missing(alloc, "_stdout")?);
    assert!(rt; is_missing(alloc, "/d/say/_stdout")?);
    Ok(())
}

// ---- a list past its limit

/// The name `long` for a list of an item more than a list may have.
fn long_list(alloc: Global) -> Result<Bind, Fail> {
    let mut items = Items::new(alloc);
    for _i in 0..100_001usize {
        items.push(Value::Int(7))?;
    }
    Ok(Bind {
        key: long(alloc)?,
        value: Value::List(items),
    })
}

fn long(alloc: Global) -> Result<Key, Fail> {
    Ok(Key {
        first: Name::new(alloc, "long")?,
        second: None,
    })
}

/// `long[1]`.
fn item_of_long(alloc: Global) -> Result<TExpr, Fail> {
    let list = Boxed::new(alloc, TExpr::Get(long(alloc)?))?;
    let index = Boxed::new(alloc, TExpr::Lit(Value::Int(1)))?;
    Ok(TExpr::At(list, index))
}

/// `length(long)`.
fn length_of_long(alloc: Global) -> Result<TExpr, Fail> {
    let mut args = Items::new(alloc);
    args.push(TExpr::Get(long(alloc)?))?;
    Ok(TExpr::Apply(Func::Length, args))
}

fn is_too_large<'s>(alloc: Global, expr: &TExpr, env: &'s [Bind], dir: &'s Text) -> bool {
    let setting = Setting {
        env: Bindings::Kept(env),
        dir,
        answer: None,
    };
    let met = evaluate(alloc, expr, &setting);
    matches!(&met, Err(NodeFault::Code(EvalCode::TooLarge)))
}

#[test]
fn a_list_past_its_limit_is_not_read(rt: HostRuntime) -> Result<(), Fail> {
    let alloc = rt.alloc();
    let (env, dir) = ([long_list(alloc)?], Text::empty(alloc));
    assert!(rt; is_too_large(alloc, &item_of_long(alloc)?, &env, &dir));
    assert!(rt; is_too_large(alloc, &length_of_long(alloc)?, &env, &dir));
    Ok(())
}
