ghost use Rattle.std.specs.Prelude.{◌≡◌, if◌then◌else◌, IfOk};
ghost use Rattle.wdl_value.specs.Bare.{is_optional as is_optional_at};
ghost use Rattle.wdl_value.specs.SameType as spec;
ghost use Rattle.wdl_value.specs.declared.ty.Ty.{out-Ty};
ghost use Rattle.wdl_value.specs.declared.ty.Ty.TheVariants as ty;

use crate::bare::is_optional;
use sqlite_items::{Boxed, Items};
use std::alloc::Global;
use wdl_base::{Name, NoMemory};

/// A type of WDL 1.1 (OpenWDL 1.1, "Types"). `Absent` is the type of `None`; `Empty` is the type of
/// the items of `[]` and of the keys and values of `{}`. An `Opt` never holds an `Opt` in a type
/// that is read from a document.
#[derive(Debug, Drop)]
pub enum Ty {
    Bool,
    Int,
    Str,
    File,
    /// `some` marks `Array[T]+`.
    Array { item: Boxed<Ty>, some: bool },
    Map { key: Boxed<Ty>, value: Boxed<Ty> },
    Pair { left: Boxed<Ty>, right: Boxed<Ty> },
    Struct(Name),
    Opt(Boxed<Ty>),
    Absent,
    Empty,
}

impl Ty {
    /// `Array[item]`, or `Array[item]+` where `some` is true.
    pub fn array_of(alloc: Global, item: Ty, some: bool) -> Result<Ty, NoMemory>
        ensures { IfOk result (λ t. t ≡ ty.Array item some) }
    {
        Ok(Ty::Array {
            item: Boxed::new(alloc, item)?,
            some,
        })
    }

    /// The type with a question mark; the type itself where it has one.
    pub fn optional_of(alloc: Global, t: Ty) -> Result<Ty, NoMemory>
        ensures { IfOk result (λ u. u ≡ (if is_optional_at (out-Ty t) then t else ty.Opt t)) }
    {
        if is_optional(&t) {
            return Ok(t);
        }
        Ok(Ty::Opt(Boxed::new(alloc, t)?))
    }

    /// `Map[key, value]`.
    pub fn map_of(alloc: Global, key: Ty, value: Ty) -> Result<Ty, NoMemory>
        ensures { IfOk result (λ t. t ≡ ty.Map key value) }
    {
        Ok(Ty::Map {
            key: Boxed::new(alloc, key)?,
            value: Boxed::new(alloc, value)?,
        })
    }

    /// `Pair[left, right]`.
    pub fn pair_of(alloc: Global, left: Ty, right: Ty) -> Result<Ty, NoMemory>
        ensures { IfOk result (λ t. t ≡ ty.Pair left right) }
    {
        Ok(Ty::Pair {
            left: Boxed::new(alloc, left)?,
            right: Boxed::new(alloc, right)?,
        })
    }

    /// Whether the types are equal.
    pub fn same(&self, other: &Ty) -> bool
        ensures { result ≡ spec.same_type self.now other.now }
    {
        match (self, other) {
            (Ty::Bool, Ty::Bool)
            | (Ty::Int, Ty::Int)
            | (Ty::Str, Ty::Str)
            | (Ty::File, Ty::File)
            | (Ty::Absent, Ty::Absent)
            | (Ty::Empty, Ty::Empty) => true,
            (
                Ty::Array { item: t, some },
                Ty::Array {
                    item: u,
                    some: also,
                },
            ) => { t.get().same(u.get()) && *some == *also }
            (Ty::Map { key: t, value: u }, Ty::Map { key: v, value: w })
            | (Ty::Pair { left: t, right: u }, Ty::Pair { left: v, right: w }) => {
                t.get().same(v.get()) && u.get().same(w.get())
            }
            (Ty::Struct(n), Ty::Struct(m)) => n.same(m),
            (Ty::Opt(t), Ty::Opt(u)) => t.get().same(u.get()),
            _ => false,
        }
    }

    /// A copy of the type, in time linear in its size.
    pub fn copy(&self, alloc: Global) -> Result<Ty, NoMemory>
        ensures { IfOk result (λ t. t ≡ self.now) }
    {
        match self {
            Ty::Bool => Ok(Ty::Bool),
            Ty::Int => Ok(Ty::Int),
            Ty::Str => Ok(Ty::Str),
            Ty::File => Ok(Ty::File),
            Ty::Array { item, some } => { Ty::array_of(alloc, item.get().copy(alloc)?, *some) }
            Ty::Map { key, value } => {
                let key = key.get().copy(alloc)?;
                let value = value.get().copy(alloc)?;
                Ty::map_of(alloc, key, value)
            }
            Ty::Pair { left, right } => {
                let left = left.get().copy(alloc)?;
                let right = right.get().copy(alloc)?;
                Ty::pair_of(alloc, left, right)
            }
            Ty::Struct(name) => Ok(Ty::Struct(name.copy(alloc)?)),
            Ty::Opt(t) => {
                let t = t.get().copy(alloc)?;
                Ok(Ty::Opt(Boxed::new(alloc, t)?))
            }
            Ty::Absent => Ok(Ty::Absent),
            Ty::Empty => Ok(Ty::Empty),
        }
    }
}

/// A member of a struct.
#[derive(Debug, Drop)]
pub struct Member {
    pub name: Name,
    pub ty: Ty,
}

/// A struct that a document declares, with its members in the order of the text.
#[derive(Debug, Drop)]
pub struct StructDef {
    pub name: Name,
    pub members: Items<Member>,
}

/// The structs of a library.
pub type Structs = Items<StructDef>;
