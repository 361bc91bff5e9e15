//! The value of an expression, by recursion on it.

ghost use Rattle.std.specs.Prelude.{◌≡◌, ◌+◌, [], None};
ghost use Rattle.std.specs.Option.{option_copied};
ghost use Rattle.wdl_stdlib.specs.Gives.{Gives};
ghost use Rattle.wdl_typed.specs.Evaluation as spec;
ghost use Rattle.wdl_eval.specs.Found.{Finds};
ghost use Rattle.wdl_eval.specs.Meets.{Meets};
ghost use Rattle.wdl_eval.specs.Nodes as nodes;
ghost use Rattle.wdl_eval.specs.Nodes.{setting_of};
ghost use Rattle.wdl_eval.specs.Ready.{IsReady};

use crate::bindings::{Bindings, LentBind};
use crate::fault::NodeFault;
use crate::forms::{
    applied, cast_to, item_of, map_of, member_of, neg_of, not_of, only_bool, operated, pair_of,
    struct_of, value_of,
};
use crate::lent::{Found, lent};
use crate::outcome::{copied, limited};
use crate::placeholder::{with_chars, with_hole};
use crate::setting::Setting;
use std::alloc::Global;
use std::slice::from_ref;
use std::sync::ledger::Ledger;
use wdl_names::Index;
use wdl_stdlib::EvalFault;
use wdl_typed::{TExpr, TField, TPair, TPart};
use wdl_value::{Answer, Env, Field, Func, Items, MapRow, Op, Steps, Text, Value};

/// The value of an expression over a setting, or its code. One step is counted.
fn value_at<'s, 'a, L: Ledger>(
    alloc: Global,
    e: &'s TExpr,
    setting: &'s Setting<'s, 'a>,
    steps: &mut Steps<L>,
) -> Result<Value, EvalFault>
    requires ready { IsReady e.now (setting_of setting.now).env }
    ensures value { Gives (spec.value_of (setting_of setting.now) e.now) result }
    ensures steps { steps.new ≡ steps.old + 1 }
{
    steps.tick();
    match evaluate(alloc, e, setting) {
        Ok(value) => Ok(value),
        Err(NodeFault::Code(code)) => Err(EvalFault::Code(code)),
        Err(NodeFault::NoMemory) => Err(EvalFault::NoMemory),
        Err(NodeFault::Wrong) => unreachable!(),
    }
}

/// The value of an expression, or the first code from 501 to 516 that its parts meet from left to
/// right; `&&`, `||` and `if` evaluate only what they need, and a value past a limit is 510 at each
/// node. `dir` is the directory of the job and `answer` what its command left. One step is counted,
/// however deep the expression.
pub fn eval<L: Ledger>(
    alloc: Global,
    e: &TExpr,
    env: &Env,
    dir: &Text,
    answer: Option<&Answer>,
    steps: &mut Steps<L>,
) -> Result<Value, EvalFault>
    requires ready { IsReady e.now env.now }
    ensures value { Gives (spec.value_of (record { env = env.now; dir = dir.now; answer = option_copied answer.entry }) e.now) result }
    ensures steps { steps.new ≡ steps.old + 1 }
{
    let setting = Setting {
        env: Bindings::Kept(env.as_slice()),
        dir,
        answer,
    };
    value_at(alloc, e, &setting, steps)
}

/// Names that are lent, where no command left anything.
fn lent_setting<'s, 'a>(env: &'s Index<LentBind<'a>>, dir: &'s Text) -> Setting<'s, 'a>
    ensures { setting_of result ≡ record { env = env.now; dir = dir.now; answer = None } }
{
    Setting {
        env: Bindings::Lent(env),
        dir,
        answer: None,
    }
}

/// The same over names that are lent, outside of jobs. A name is found in logarithmic time, and its
/// value is not measured again. It is copied where it becomes the result or a part of it, and where
/// it is one of several arguments of a function.
pub fn eval_lent<'a, L: Ledger>(
    alloc: Global,
    e: &TExpr,
    env: &Index<LentBind<'a>>,
    steps: &mut Steps<L>,
) -> Result<Value, EvalFault>
    requires ready { IsReady e.now env.now }
    ensures value { Gives (spec.value_of (record { env = env.now; dir = []; answer = None }) e.now) result }
    ensures steps { steps.new ≡ steps.old + 1 }
{
    let dir = Text::empty(alloc);
    let setting = lent_setting(env, &dir);
    value_at(alloc, e, &setting, steps)
}

/// The value of any expression, well typed or not, or its code; no step is counted. It is `Wrong`
/// where a part is of a kind that no well-typed expression has there.
#[cycle(evaluate)]
#[tactic(auto, using(crate::proofs::Limited::limited_once))]
pub fn evaluate<'s, 'a>(
    alloc: Global,
    e: &'s TExpr,
    setting: &'s Setting<'s, 'a>,
) -> Result<Value, NodeFault>
    ensures { Meets (spec.value_met (setting_of setting.now) e.now) result }
{
    match e {
        TExpr::Lit(value) => copied(alloc, value),
        TExpr::Get(key) => value_of(alloc, key, setting),
        TExpr::Member(a, name) => member_of(alloc, found(alloc, a.get(), setting)?.get(), name),
        TExpr::At(a, b) => {
            let value = found(alloc, a.get(), setting)?;
            at(alloc, b.get(), value.get(), setting)
        }
        TExpr::Not(a) => not_of(&evaluate(alloc, a.get(), setting)?),
        TExpr::Neg(a) => neg_of(&evaluate(alloc, a.get(), setting)?),
        TExpr::Binary(op, a, b) => {
            let left = found(alloc, a.get(), setting)?;
            after_left(alloc, b.get(), *op, left.get(), setting)
        }
        TExpr::Choose(c, a, b) => {
            match evaluate(alloc, c.get(), setting)? {
                Value::Bool(true) => return evaluate(alloc, a.get(), setting),
                Value::Bool(false) => return evaluate(alloc, b.get(), setting),
                _ => {}
            }
            Err(NodeFault::Wrong)
        }
        TExpr::ListOf(es) => limited(Value::List(values(alloc, es.as_slice(), setting)?)),
        TExpr::MapOf(pairs) => map_of(alloc, rows(alloc, pairs.as_slice(), setting)?),
        TExpr::PairOf(a, b) => {
            let first = evaluate(alloc, a.get(), setting)?;
            paired(alloc, b.get(), first, setting)
        }
        TExpr::StructOf(name, members) => {
            struct_of(alloc, name, fields(alloc, members.as_slice(), setting)?)
        }
        TExpr::Apply(f, args) => called(alloc, *f, args.as_slice(), setting),
        TExpr::Strung(parts) => limited(Value::Str(text(alloc, parts.as_slice(), setting)?)),
        TExpr::Cast(a, t) => cast_to(alloc, found(alloc, a.get(), setting)?.get(), t),
    }
}

/// The value of an expression, lent where it can be.
#[cycle(evaluate)]
fn found<'s, 'a>(
    alloc: Global,
    e: &'s TExpr,
    setting: &'s Setting<'s, 'a>,
) -> Result<Found<'s>, NodeFault>
    ensures { Finds (spec.value_met (setting_of setting.now) e.now) result }
{
    if let Some(value) = lent(e, setting)? {
        return Ok(Found::Lent(value));
    }
    Ok(Found::Made(evaluate(alloc, e, setting)?))
}

/// `left[right]`, once the left side has a value.
#[cycle(evaluate)]
fn at<'s, 'a>(
    alloc: Global,
    right: &'s TExpr,
    left: &Value,
    setting: &'s Setting<'s, 'a>,
) -> Result<Value, NodeFault>
    ensures { Meets (nodes.within (nodes.at_met left.now (spec.value_met (setting_of setting.now) right.now))) result }
{
    item_of(alloc, left, &evaluate(alloc, right, setting)?)
}

/// An operator, once its left side has a value.
#[cycle(evaluate)]
fn after_left<'s, 'a>(
    alloc: Global,
    right: &'s TExpr,
    op: Op,
    left: &Value,
    setting: &'s Setting<'s, 'a>,
) -> Result<Value, NodeFault>
    ensures { Meets (nodes.within (spec.after_left op left.now (spec.value_met (setting_of setting.now) right.now))) result }
{
    match op {
        Op::And => match left {
            Value::Bool(true) => only_bool(&evaluate(alloc, right, setting)?),
            Value::Bool(false) => limited(Value::Bool(false)),
            _ => Err(NodeFault::Wrong),
        },
        Op::Or => match left {
            Value::Bool(true) => limited(Value::Bool(true)),
            Value::Bool(false) => only_bool(&evaluate(alloc, right, setting)?),
            _ => Err(NodeFault::Wrong),
        },
        _ => operated(alloc, op, left, found(alloc, right, setting)?.get()),
    }
}

/// `(left, right)`, once the left side has a value.
#[cycle(evaluate)]
fn paired<'s, 'a>(
    alloc: Global,
    right: &'s TExpr,
    left: Value,
    setting: &'s Setting<'s, 'a>,
) -> Result<Value, NodeFault>
    ensures { Meets (nodes.within (nodes.pair_met left (spec.value_met (setting_of setting.now) right.now))) result }
{
    pair_of(alloc, left, evaluate(alloc, right, setting)?)
}

/// The value of a function. A single argument is lent where it can be.
#[cycle(evaluate)]
fn called<'s, 'a>(
    alloc: Global,
    f: Func,
    args: &'s [TExpr],
    setting: &'s Setting<'s, 'a>,
) -> Result<Value, NodeFault>
    ensures { Meets (nodes.within (nodes.called (setting_of setting.now) f (nodes.values_met (setting_of setting.now) args.now))) result }
{
    if let [arg] = args {
        return applied(
            alloc,
            f,
            from_ref(found(alloc, arg, setting)?.get()),
            setting,
        );
    }
    applied(alloc, f, values(alloc, args, setting)?.as_slice(), setting)
}

#[cycle(evaluate)]
fn values<'s, 'a>(
    alloc: Global,
    es: &'s [TExpr],
    setting: &'s Setting<'s, 'a>,
) -> Result<Items<Value>, NodeFault>
    ensures { Meets (nodes.values_met (setting_of setting.now) es.now) result }
{
    let mut values = Items::new(alloc);
    for e in es {
        values.push(evaluate(alloc, e, setting)?)?;
    }
    Ok(values)
}

#[cycle(evaluate)]
fn rows<'s, 'a>(
    alloc: Global,
    pairs: &'s [TPair<TExpr>],
    setting: &'s Setting<'s, 'a>,
) -> Result<Items<MapRow<Value>>, NodeFault>
    ensures { Meets (nodes.rows_met (setting_of setting.now) pairs.now) result }
{
    let mut rows = Items::new(alloc);
    for pair in pairs {
        let key = evaluate(alloc, &pair.key, setting)?;
        let value = evaluate(alloc, &pair.value, setting)?;
        rows.push(MapRow { key, value })?;
    }
    Ok(rows)
}

#[cycle(evaluate)]
fn fields<'s, 'a>(
    alloc: Global,
    members: &'s [TField<TExpr>],
    setting: &'s Setting<'s, 'a>,
) -> Result<Items<Field<Value>>, NodeFault>
    ensures { Meets (nodes.fields_met (setting_of setting.now) members.now) result }
{
    let mut fields = Items::new(alloc);
    for member in members {
        let name = member.name.copy(alloc)?;
        let value = evaluate(alloc, &member.value, setting)?;
        fields.push(Field { name, value })?;
    }
    Ok(fields)
}

#[cycle(evaluate)]
fn text<'s, 'a>(
    alloc: Global,
    parts: &'s [TPart<TExpr>],
    setting: &'s Setting<'s, 'a>,
) -> Result<Text, NodeFault>
    ensures { Meets (nodes.text_met (setting_of setting.now) parts.now) result }
{
    let mut text = Text::empty(alloc);
    for part in parts {
        text = match part {
            TPart::Chars(chars) => with_chars(text, chars)?,
            TPart::Hole(hole) => {
                let value = found(alloc, &hole.expr, setting)?;
                with_hole(alloc, text, &hole.choice, value.get())?
            }
        };
    }
    Ok(text)
}
