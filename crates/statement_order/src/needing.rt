ghost use Rattle.std.specs.Prelude.{◌≡◌, [], ◌∷◌, ◌++◌, map, IfOk, OnOk};
ghost use Rattle.wdl_typed.specs.Order as orders;
ghost use Rattle.wdl_typed.specs.Order.{
  all_given,
  all_referred,
  default_referred,
  input_needing,
  statement_needing,
};
ghost use Rattle.wdl_order.specs.Names.{as_needing};

use references::{argument_names, expression_names};
use std::alloc::Global;
use wdl_order::{Uses, condition_uses, one_name, push_copy, scatter_uses};
use wdl_typed::{Statement, TCall, TDecl, TExpr, TField, TInput};
use wdl_value::{Items, Key, Name, NoMemory};

/// The first words of these keys.
fn first_words(alloc: Global, keys: &[&Key]) -> Result<Items<Name>, NoMemory>
    ensures { IfOk result (λ names. names ≡ map (λ k. k.first) (map (λ k. k.now) keys.now)) }
{
    let mut names = Items::new(alloc);
    for key in keys {
        push_copy(alloc, &key.first, &mut names)?;
    }
    Ok(names)
}

/// The names to which an expression refers: `call.output` refers to the call.
fn referred(alloc: Global, e: &TExpr) -> Result<Items<Name>, NoMemory>
    ensures { IfOk result (λ names. names ≡ orders.referred e.now) }
{
    let keys = expression_names(alloc, e)?;
    first_words(alloc, keys.as_slice())
}

fn declaration_uses(alloc: Global, decl: &TDecl) -> Result<Uses, NoMemory>
    ensures { IfOk result (λ u. as_needing u ≡ record { gives = decl.now.name ∷ []; refers = orders.referred decl.now.value }) }
{
    let gives = one_name(alloc, &decl.name)?;
    let refers = referred(alloc, &decl.value)?;
    Ok(Uses { gives, refers })
}

fn default_names(alloc: Global, value: &Option<TExpr>) -> Result<Items<Name>, NoMemory>
    ensures { IfOk result (λ names. names ≡ default_referred value.now) }
{
    match value {
        Some(e) => referred(alloc, e),
        None => Ok(Items::new(alloc)),
    }
}

/// What an input gives and refers to: nothing where it has no default.
pub fn input_uses(alloc: Global, input: &TInput) -> Result<Uses, NoMemory>
    ensures { IfOk result (λ u. as_needing u ≡ input_needing input.now) }
{
    let gives = one_name(alloc, &input.name)?;
    let refers = default_names(alloc, &input.value)?;
    Ok(Uses { gives, refers })
}

#[tactic(auto, using(crate::proofs::Arguments::args_are))]
fn args_referred(alloc: Global, args: &[TField<TExpr>]) -> Result<Items<Name>, NoMemory>
    ensures { IfOk result (λ names. names ≡ orders.args_referred args.now) }
{
    let keys = argument_names(alloc, args)?;
    first_words(alloc, keys.as_slice())
}

fn push_copies(alloc: Global, more: &[Name], names: &mut Items<Name>) -> Result<(), NoMemory>
    ensures { OnOk result (names.new ≡ names.old ++ more.now) }
{
    for name in more {
        push_copy(alloc, name, names)?;
    }
    Ok(())
}

fn call_uses(alloc: Global, call: &TCall) -> Result<Uses, NoMemory>
    ensures { IfOk result (λ u. as_needing u ≡ record { gives = call.now.name ∷ []; refers = orders.args_referred call.now.args ++ call.now.after }) }
{
    let gives = one_name(alloc, &call.name)?;
    let mut refers = args_referred(alloc, call.args.as_slice())?;
    push_copies(alloc, call.after.as_slice(), &mut refers)?;
    Ok(Uses { gives, refers })
}

#[cycle(needing)]
fn body_uses(alloc: Global, body: &[Statement]) -> Result<Uses, NoMemory>
    ensures { IfOk result (λ u. as_needing u ≡ record { gives = all_given (map statement_needing body.now); refers = all_referred (map statement_needing body.now) }) }
{
    let mut gives = Items::new(alloc);
    let mut refers = Items::new(alloc);
    for statement in body {
        let uses = statement_uses(alloc, statement)?;
        gives.append(uses.gives)?;
        refers.append(uses.refers)?;
    }
    Ok(Uses { gives, refers })
}

/// What a statement gives and refers to. A block gives what its body gives, and refers to what its
/// body refers to and does not give.
#[cycle(needing)]
pub fn statement_uses(alloc: Global, statement: &Statement) -> Result<Uses, NoMemory>
    ensures { IfOk result (λ u. as_needing u ≡ statement_needing statement.now) }
{
    match statement {
        Statement::Decl(decl) => declaration_uses(alloc, decl),
        Statement::Call(call) => call_uses(alloc, call),
        Statement::Scatter(scatter) => {
            let body = body_uses(alloc, scatter.body.as_slice())?;
            scatter_uses(alloc, body, &scatter.item, referred(alloc, &scatter.over)?)
        }
        Statement::If(condition) => {
            let body = body_uses(alloc, condition.body.as_slice())?;
            condition_uses(alloc, body, referred(alloc, &condition.cond)?)
        }
    }
}
