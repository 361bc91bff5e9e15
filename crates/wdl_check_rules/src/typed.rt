ghost use Rattle.std.specs.Prelude.{◌≡◌, IfOk};
ghost use Rattle.wdl_check_rules.specs.Checked as checked;
ghost use Rattle.wdl_check_rules.specs.Rules as spec;

use crate::fault::CheckFault;
use sqlite_items::Boxed;
use std::alloc::Global;
use wdl_typed::TExpr;
use wdl_types::coerces;
use wdl_value::{NoMemory, Span, Ty, Value};

/// A typed expression with its type.
pub struct Typed {
    pub expr: TExpr,
    pub ty: Ty,
}

impl Drop for Typed {
    fn drop(self) {
        let Typed { expr, ty } = self;
        let_go(expr);
        let_go(ty);
    }
}

/// Drops a value by a call.
pub fn let_go<T: Drop>(_value: T) {}

impl Typed {
    /// The expression alone.
    pub fn into_expr(self) -> TExpr
        ensures { result ≡ self.expr }
    {
        let Typed { expr, ty } = self;
        let_go(ty);
        expr
    }

    /// The expression in a box, and the type.
    pub fn into_parts(self, alloc: Global) -> Result<(Boxed<TExpr>, Ty), NoMemory>
        ensures { IfOk result (λ parts. parts ≡ (self.expr, self.ty)) }
    {
        let Typed { expr, ty } = self;
        Ok((Boxed::new(alloc, expr)?, ty))
    }
}

/// A literal of that type.
pub fn literal(value: Value, ty: Ty) -> Typed
    ensures { result ≡ spec.literal value ty }
{
    Typed {
        expr: TExpr::Lit(value),
        ty,
    }
}

/// A number, which has 64 bits.
pub fn int_literal(value: i64, span: Span) -> Result<Typed, CheckFault>
    ensures { result ≡ checked.or_bad 106 span (spec.int_literal value) }
{
    let _ = span;
    Ok(literal(Value::Int(value), Ty::Int))
}

/// The expression, under a cast where its type is another one.
pub fn cast_to(alloc: Global, x: Typed, t: &Ty) -> Result<TExpr, NoMemory>
    ensures { IfOk result (λ e. e ≡ spec.cast_to x t.now) }
{
    if x.ty.same(t) {
        return Ok(x.into_expr());
    }
    let expr = Boxed::new(alloc, x.into_expr())?;
    Ok(TExpr::Cast(expr, t.copy(alloc)?))
}

fn boxed(alloc: Global, expr: TExpr) -> Result<Boxed<TExpr>, NoMemory>
    ensures { IfOk result (λ e. e ≡ expr) }
{
    Ok(Boxed::new(alloc, expr)?)
}

/// The expression in a box, under a cast where its type is another one.
pub fn boxed_cast(alloc: Global, x: Typed, t: &Ty) -> Result<Boxed<TExpr>, NoMemory>
    ensures { IfOk result (λ e. e ≡ spec.cast_to x t.now) }
{
    boxed(alloc, cast_to(alloc, x, t)?)
}

/// The expression under a cast to a type, where its own type coerces to that.
pub fn coerced(alloc: Global, x: Typed, t: &Ty) -> Result<Option<TExpr>, NoMemory>
    ensures { IfOk result (λ e. e ≡ spec.coerced x t.now) }
{
    if !coerces(&x.ty, t) {
        return Ok(None);
    }
    Ok(Some(cast_to(alloc, x, t)?))
}
