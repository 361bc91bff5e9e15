//! Struct literals: their members, put into the order of the struct.

ghost use Rattle.std.specs.Prelude.{◌≡◌, ℕ, List, [], Some, IfOk, OnOk, cond};
ghost use Rattle.std.specs.Str.{bytes_eq};
ghost use Rattle.std.specs.BTreeMap.{get_by_text};
ghost use Rattle.std.specs.BTreeSet.{contains_text};
ghost use Rattle.wdl_check_rules.specs.Members as spec;
ghost use Rattle.wdl_check_rules.specs.Spans as place;
ghost use Rattle.wdl_check_rules.specs.Typed as typing;
ghost use Rattle.wdl_check_rules.specs.Typed.{idents};
ghost use Rattle.wdl_check_rules.specs.Checked as checked;

use crate::fault::CheckFault;
use crate::parts::Parts;
use crate::span::span_of;
use crate::typed::{Typed, cast_to, coerced, literal};
use sqlite_items::Items;
use std::alloc::Global;
use std::collections::{BTreeMap, BTreeSet};
use wdl_ast::{Expr, ListItem, MemberEntry};
use wdl_typed::{TExpr, TField};
use wdl_value::{Member, Name, NoMemory, Span, StructDef, Ty, Value, is_optional};

/// A member's value of a struct literal, which stands at `place`.
#[derive(Drop)]
pub struct MemberValue {
    pub name: Name,
    pub place: Span,
    pub value: Typed,
}

/// A member's value, with its name and where it stands.
pub fn given_value(
    alloc: Global,
    entry: &MemberEntry<Expr>,
    value: Typed,
) -> Result<MemberValue, NoMemory>
    ensures { IfOk result (λ g. g ≡ typing.given entry.now.name.name (place.span_of entry.now.value) value) }
{
    let name = entry.name.name.copy(alloc)?;
    Ok(MemberValue {
        name,
        place: span_of(&entry.value),
        value,
    })
}

/// The names of the members.
fn member_names(alloc: Global, members: &[Member]) -> Result<BTreeSet<String>, NoMemory>
    ensures { IfOk result (λ names. (q : List ℕ) → contains_text names q ≡ spec.is_member members.now q) }
{
    let mut names = BTreeSet::new(alloc);
    for member in members {
        names.insert(String::from_str(alloc, member.name.as_str())?)?;
    }
    Ok(names)
}

/// Where the first name stands that the struct lacks, or that stands before: each entry takes its
/// name from those left.
pub fn first_stray(
    alloc: Global,
    members: &[Member],
    entries: &[ListItem<MemberEntry<Expr>>],
) -> Result<Option<Span>, NoMemory>
    ensures { IfOk result (λ span. span ≡ checked.first_stray members.now [] (idents entries.now)) }
{
    let mut left = member_names(alloc, members)?;
    for entry in entries {
        if !left.remove(entry.item.name.name.as_str()) {
            return Ok(Some(entry.item.name.span));
        }
    }
    Ok(None)
}

/// The value of a member that a literal leaves out: undefined, where its type is optional.
fn left_out(alloc: Global, t: &Ty) -> Result<Option<TExpr>, NoMemory>
    ensures { IfOk result (λ e. e ≡ spec.left_out t.now) }
{
    if !is_optional(t) {
        return Ok(None);
    }
    Ok(Some(cast_to(alloc, literal(Value::Absent, Ty::Absent), t)?))
}

/// Lets what stood under a name go.
fn discard(_old: Option<MemberValue>) {}

/// Puts a value under its name, in the place of what stood there.
fn put(
    alloc: Global,
    names: &mut BTreeMap<String, MemberValue>,
    given: MemberValue,
) -> Result<(), NoMemory>
    ensures { OnOk result ((q : List ℕ) → get_by_text names.new q ≡ cond (bytes_eq given.name q) (Some given) (get_by_text names.old q)) }
{
    let name = String::from_str(alloc, given.name.as_str())?;
    discard(names.insert(name, given)?);
    Ok(())
}

/// What is given first under each name.
fn by_name(
    alloc: Global,
    given: Parts<MemberValue>,
) -> Result<BTreeMap<String, MemberValue>, NoMemory>
    ensures { IfOk result (λ names. (q : List ℕ) → get_by_text names q ≡ spec.given_of given q) }
{
    let mut rest = given.into_deque();
    let mut names = BTreeMap::new(alloc);
    while let Some(last) = rest.pop_back() {
        put(alloc, &mut names, last)?;
    }
    Ok(names)
}

/// The value of a member: 303 where the given one has another type, 310 where none is given and it
/// is not optional.
fn member_value(
    alloc: Global,
    span: Span,
    t: &Ty,
    given: Option<MemberValue>,
) -> Result<TExpr, CheckFault>
    ensures { checked.Gives (checked.value_checked span t.now given) result }
{
    match given {
        None => match left_out(alloc, t)? {
            Some(expr) => Ok(expr),
            None => Err(CheckFault::Bad { code: 310, span }),
        },
        Some(MemberValue { place, value, .. }) => match coerced(alloc, value, t)? {
            Some(expr) => Ok(expr),
            None => Err(CheckFault::Bad {
                code: 303,
                span: place,
            }),
        },
    }
}

/// The value of each member, in the order of the struct.
fn member_values(
    alloc: Global,
    span: Span,
    members: &[Member],
    given: Parts<MemberValue>,
) -> Result<Items<TField<TExpr>>, CheckFault>
    ensures { checked.Gives (checked.fields_checked span members.now (spec.given_of given)) result }
{
    let mut rest = by_name(alloc, given)?;
    let mut done = Items::new(alloc);
    for member in members {
        let name = member.name.copy(alloc)?;
        let value = member_value(alloc, span, &member.ty, rest.remove(member.name.as_str()))?;
        done.push(TField { name, value })?;
    }
    Ok(done)
}

/// A literal of a struct of these values. `span` is where the literal writes the name of the
/// struct.
pub fn struct_literal(
    alloc: Global,
    span: Span,
    def: &StructDef,
    given: Parts<MemberValue>,
) -> Result<Typed, CheckFault>
    ensures { checked.Gives (checked.struct_with_checked span def.now given) result }
{
    let fields = member_values(alloc, span, def.members.as_slice(), given)?;
    let name = def.name.copy(alloc)?;
    let ty = Ty::Struct(def.name.copy(alloc)?);
    Ok(Typed {
        expr: TExpr::StructOf(name, fields),
        ty,
    })
}
