//! The bodies of workflows, one after another: those of blocks before the body that they stand in.

ghost use Rattle.std.specs.Prelude.{◌≡◌, ◌+◌, ◌++◌, ◌∷◌, [], length, IfOk, OnOk};
ghost use Rattle.wdl_typed.specs.declared.flow.Statement.TheVariants as stmt;
ghost use Rattle.wdl_typed.specs.Scope.{names_of};
ghost use Rattle.wdl_flow.specs.Views.{given_of};
ghost use Rattle.net_laws.specs.Growing.{body_given};
ghost use Rattle.net_laws.specs.Planned.{call_names};
ghost use Rattle.plan_layout.specs.Laid.{item_spot, one_name};
ghost use Rattle.plan_layout.specs.Spots.{needs_of};
ghost use Rattle.plan_layout.specs.Steps.{LaysBody, LaysOne, Settles, lib_of, scope_behind};

use crate::layout::{BodyLayout, Need, StatementLayout};
use crate::needs::{arg_needs, call_needs, expr_needs};
use crate::scope::{CellScope, Next, Origin, Runs, given_in};
use std::alloc::Global;
use wdl_flow::Yielded;
use wdl_typed::{Statement, TCall, TDecl, TExpr};
use wdl_value::{Items, Key, Name, NoMemory};

/// What is known of a statement before its slots.
#[derive(Drop)]
struct Wanted {
    needs: Items<Need>,
    after: Items<Need>,
    inner: usize,
    done: usize,
}

/// Gives a statement the next slots, and what it gives out is seen.
fn settle(
    alloc: Global,
    wanted: Wanted,
    given: &Yielded,
    blocks: usize,
    next: &mut Next,
    scope: &mut CellScope,
) -> Result<StatementLayout, NoMemory>
    ensures { IfOk result (λ l. Settles wanted.needs wanted.after wanted.inner wanted.done blocks (given_of given.now) scope.old next.old scope.new next.new l) }
{
    let first = *next;
    let Wanted {
        needs,
        after,
        inner,
        done,
    } = wanted;
    scope.give(alloc, given, first)?;
    next.pass(given, blocks)?;
    Ok(StatementLayout {
        needs,
        after,
        first_name: first.name,
        names: given.keys.len(),
        first_call: first.call,
        calls: given.calls.len(),
        done,
        inner,
    })
}

/// The name that a declaration gives out.
fn declared(alloc: Global, name: &Name) -> Result<Yielded, NoMemory>
    ensures { IfOk result (λ g. given_of g ≡ one_name name.now) }
{
    let mut given = Yielded::empty(alloc);
    given.keys.push(Key::plain(alloc, name)?)?;
    Ok(given)
}

/// The names and the call that a call gives out.
fn called<'a>(alloc: Global, call: &TCall, origin: &Origin<'a>) -> Result<Yielded, NoMemory>
    ensures { IfOk result (λ g. given_of g ≡ call_names (lib_of origin.now) call.now) }
{
    let mut given = Yielded::empty(alloc);
    given.add_call(alloc, call, origin.checked)?;
    Ok(given)
}

fn lay_decl<'a>(
    alloc: Global,
    decl: &TDecl,
    index: usize,
    origin: &Origin<'a>,
    next: &mut Next,
    scope: &mut CellScope,
    bodies: &Items<BodyLayout>,
) -> Result<StatementLayout, NoMemory>
    ensures { IfOk result (λ l. LaysOne origin.now (stmt.Decl decl.now) index scope.old next.old bodies.now scope.new next.new bodies.now l) }
{
    let needs = expr_needs(alloc, &decl.value, &scope.names)?;
    let wanted = Wanted {
        needs,
        after: Items::new(alloc),
        inner: 0,
        done: next.name,
    };
    let given = declared(alloc, &decl.name)?;
    settle(alloc, wanted, &given, 0, next, scope)
}

fn lay_call<'a>(
    alloc: Global,
    call: &TCall,
    index: usize,
    origin: &Origin<'a>,
    next: &mut Next,
    scope: &mut CellScope,
    bodies: &Items<BodyLayout>,
) -> Result<StatementLayout, NoMemory>
    ensures { IfOk result (λ l. LaysOne origin.now (stmt.Call call.now) index scope.old next.old bodies.now scope.new next.new bodies.now l) }
{
    let needs = arg_needs(alloc, call.args.as_slice(), &scope.names)?;
    let after = call_needs(alloc, call.after.as_slice(), &scope.calls)?;
    let wanted = Wanted {
        needs,
        after,
        inner: 0,
        done: next.call,
    };
    let given = called(alloc, call, origin)?;
    settle(alloc, wanted, &given, 0, next, scope)
}

/// Gives a block the next slots, whose collection or condition this is, and whose body has that
/// number.
fn settle_block<'a>(
    alloc: Global,
    head: &TExpr,
    body: &[Statement],
    inner: usize,
    origin: &Origin<'a>,
    next: &mut Next,
    scope: &mut CellScope,
) -> Result<StatementLayout, NoMemory>
    ensures { IfOk result (λ l. Settles (needs_of scope.old.names (names_of head.now)) [] inner next.old.done 1 (body_given (lib_of origin.now) body.now) scope.old next.old scope.new next.new l) }
{
    let needs = expr_needs(alloc, head, &scope.names)?;
    let wanted = Wanted {
        needs,
        after: Items::new(alloc),
        inner,
        done: next.done,
    };
    let given = given_in(alloc, body, origin)?;
    settle(alloc, wanted, &given, 1, next, scope)
}

/// Lays out the body of a scatter, which sees the item.
#[cycle(laying)]
fn lay_items<'a>(
    alloc: Global,
    body: &[Statement],
    item: &Name,
    index: usize,
    origin: &Origin<'a>,
    scope: &mut CellScope,
    bodies: &mut Items<BodyLayout>,
) -> Result<usize, NoMemory>
    ensures laid { IfOk result (LaysBody origin.now body.now (scope.old.names ++ item_spot (scope.old.path ++ index ∷ []) item.now ∷ []) scope.old.calls (scope.old.path ++ index ∷ []) 1 0 bodies.old bodies.new) }
    ensures same { OnOk result (scope.new ≡ scope.old) }
{
    let names = scope.names.len();
    let calls = scope.calls.len();
    scope.enter(index)?;
    scope.add_name(alloc, item, 0)?;
    let number = lay_body(alloc, body, 1, 0, origin, scope, bodies)?;
    scope.leave(names, calls);
    Ok(number)
}

/// Lays out the body of a condition.
#[cycle(laying)]
fn lay_choice<'a>(
    alloc: Global,
    body: &[Statement],
    index: usize,
    origin: &Origin<'a>,
    scope: &mut CellScope,
    bodies: &mut Items<BodyLayout>,
) -> Result<usize, NoMemory>
    ensures laid { IfOk result (LaysBody origin.now body.now scope.old.names scope.old.calls (scope.old.path ++ index ∷ []) 0 0 bodies.old bodies.new) }
    ensures same { OnOk result (scope.new ≡ scope.old) }
{
    let names = scope.names.len();
    let calls = scope.calls.len();
    scope.enter(index)?;
    let number = lay_body(alloc, body, 0, 0, origin, scope, bodies)?;
    scope.leave(names, calls);
    Ok(number)
}

/// Lays out a statement, and what it gives out is seen then.
#[cycle(laying)]
fn lay_statement<'a>(
    alloc: Global,
    statement: &Statement,
    index: usize,
    origin: &Origin<'a>,
    next: &mut Next,
    scope: &mut CellScope,
    bodies: &mut Items<BodyLayout>,
) -> Result<StatementLayout, NoMemory>
    ensures { IfOk result (λ l. LaysOne origin.now statement.now index scope.old next.old bodies.old scope.new next.new bodies.new l) }
{
    match statement {
        Statement::Decl(decl) => lay_decl(alloc, decl, index, origin, next, scope, bodies),
        Statement::Call(call) => lay_call(alloc, call, index, origin, next, scope, bodies),
        Statement::Scatter(block) => {
            let body = block.body.as_slice();
            let inner = lay_items(alloc, body, &block.item, index, origin, scope, bodies)?;
            settle_block(alloc, &block.over, body, inner, origin, next, scope)
        }
        Statement::If(block) => {
            let body = block.body.as_slice();
            let inner = lay_choice(alloc, body, index, origin, scope, bodies)?;
            settle_block(alloc, &block.cond, body, inner, origin, next, scope)
        }
    }
}

/// Lays out a body with so many names before those of its statements, and after them. The answer is
/// its number.
#[cycle(laying)]
pub fn lay_body<'a>(
    alloc: Global,
    body: &[Statement],
    before: usize,
    after: usize,
    origin: &Origin<'a>,
    scope: &mut CellScope,
    bodies: &mut Items<BodyLayout>,
) -> Result<usize, NoMemory>
    ensures laid { IfOk result (LaysBody origin.now body.now scope.old.names scope.old.calls scope.old.path before after bodies.old bodies.new) }
    ensures behind { OnOk result (scope.new ≡ scope_behind origin.now body.now scope.old before after) }
{
    let runs = Runs::of(alloc, body, before, after, origin)?;
    let mut next = runs.first()?;
    let mut statements = Items::new(alloc);
    for index in 0..body.len() {
        let statement = &body[index];
        let layout = lay_statement(alloc, statement, index, origin, &mut next, scope, bodies)?;
        statements.push(layout)?;
    }
    put_body(alloc, &runs, next.done, statements, origin, scope, bodies)
}

/// Adds the layout of a body.
fn put_body<'a>(
    alloc: Global,
    runs: &Runs,
    cells: usize,
    statements: Items<StatementLayout>,
    origin: &Origin<'a>,
    scope: &CellScope,
    bodies: &mut Items<BodyLayout>,
) -> Result<usize, NoMemory>
    ensures number { IfOk result (λ n. n ≡ length bodies.old) }
    ensures put { OnOk result (bodies.new ≡ bodies.old ++ record { flow = origin.now.flow; path = scope.now.path; level = length scope.now.path; cells = cells; first_name = runs.now.first_name; names = runs.now.names; first_call = runs.now.first_call; calls = runs.now.calls; statements = statements } ∷ []) }
{
    let number = bodies.len();
    let path = Items::from_slice(alloc, scope.path.as_slice())?;
    bodies.push(BodyLayout {
        flow: origin.flow,
        path,
        level: scope.path.len(),
        cells,
        first_name: runs.first_name,
        names: runs.names,
        first_call: runs.first_call,
        calls: runs.calls,
        statements,
    })?;
    Ok(number)
}
