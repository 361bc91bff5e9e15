//! The names that a written expression refers to.

ghost use Rattle.std.specs.Prelude.{◌≡◌, ◌++◌, ◌∷◌, [], OnOk};
ghost use Rattle.wdl_check_order.specs.Names as spec;

use std::alloc::Global;
use wdl_ast::{Expr, ListItem, MapEntry, MemberEntry, StringPart};
use wdl_order::push_copy;
use wdl_value::{Items, Name, NoMemory};

#[cycle(names)]
#[tactic(auto, using(crate::proofs::NameLaws::equations))]
fn push_items(
    alloc: Global,
    items: &[ListItem<Expr>],
    names: &mut Items<Name>,
) -> Result<(), NoMemory>
    ensures { OnOk result (names.new ≡ names.old ++ spec.item_names spec.names_of items.now) }
{
    for item in items {
        push_names(alloc, &item.item, names)?;
    }
    Ok(())
}

#[cycle(names)]
#[tactic(auto, using(crate::proofs::NameLaws::equations))]
fn push_entries(
    alloc: Global,
    entries: &[ListItem<MapEntry<Expr>>],
    names: &mut Items<Name>,
) -> Result<(), NoMemory>
    ensures { OnOk result (names.new ≡ names.old ++ spec.entry_names spec.names_of entries.now) }
{
    for entry in entries {
        push_names(alloc, &entry.item.key, names)?;
        push_names(alloc, &entry.item.value, names)?;
    }
    Ok(())
}

#[cycle(names)]
#[tactic(auto, using(crate::proofs::NameLaws::equations))]
fn push_members(
    alloc: Global,
    members: &[ListItem<MemberEntry<Expr>>],
    names: &mut Items<Name>,
) -> Result<(), NoMemory>
    ensures { OnOk result (names.new ≡ names.old ++ spec.member_names spec.names_of members.now) }
{
    for member in members {
        push_names(alloc, &member.item.value, names)?;
    }
    Ok(())
}

#[cycle(names)]
#[tactic(auto, using(crate::proofs::NameLaws::equations))]
fn push_parts(
    alloc: Global,
    parts: &[StringPart<Expr>],
    names: &mut Items<Name>,
) -> Result<(), NoMemory>
    ensures { OnOk result (names.new ≡ names.old ++ spec.part_names spec.names_of parts.now) }
{
    for part in parts {
        if let StringPart::Placeholder(hole) = part {
            push_names(alloc, &hole.expr, names)?;
        }
    }
    Ok(())
}

/// Puts the names that an expression refers to behind the others: `call.output` refers to the call.
#[cycle(names)]
#[tactic(auto, using(crate::proofs::NameLaws::equations))]
pub fn push_names(alloc: Global, e: &Expr, names: &mut Items<Name>) -> Result<(), NoMemory>
    ensures { OnOk result (names.new ≡ names.old ++ spec.names_of e.now) }
{
    match e {
        Expr::If {
            condition,
            accepted,
            refused,
            ..
        } => {
            push_names(alloc, condition.get(), names)?;
            push_names(alloc, accepted.get(), names)?;
            push_names(alloc, refused.get(), names)
        }
        Expr::Binary { left, right, .. } | Expr::Pair { left, right, .. } => {
            push_names(alloc, left.get(), names)?;
            push_names(alloc, right.get(), names)
        }
        Expr::Index { base, index, .. } => {
            push_names(alloc, base.get(), names)?;
            push_names(alloc, index.get(), names)
        }
        Expr::Unary { operand, .. } => push_names(alloc, operand.get(), names),
        Expr::Member { base, .. } => push_names(alloc, base.get(), names),
        Expr::Group { inner, .. } => push_names(alloc, inner.get(), names),
        Expr::True(_) | Expr::False(_) | Expr::None(_) | Expr::Int { .. } => Ok(()),
        Expr::Name(ident) => push_copy(alloc, &ident.name, names),
        Expr::Str(string) => push_parts(alloc, string.parts.as_slice(), names),
        Expr::Call { arguments, .. } => push_items(alloc, arguments.as_slice(), names),
        Expr::List { items, .. } => push_items(alloc, items.as_slice(), names),
        Expr::Map { entries, .. } => push_entries(alloc, entries.as_slice(), names),
        Expr::Struct { members, .. } => push_members(alloc, members.as_slice(), names),
    }
}
