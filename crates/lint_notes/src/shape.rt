//! The types of values, as far as lints ask.

use crate::names::Names;
use struct_members::{member_type, members_of, type_among};
use wdl_ast::{BinaryOperator, Expr, ListItem};
use wdl_names::Indexed;
use wdl_typed::TDecl;
use wdl_value::{Name, StructDef, Ty};

/// What is known of a value without the arrays round it.
#[derive(Clone, Copy)]
pub enum Leaf<'a> {
    /// A String that a function or a literal gives.
    Text,
    Of(&'a Ty),
    /// A call with these outputs.
    Call(&'a [TDecl]),
}

/// What is known of the type of a value: a leaf in so many arrays.
#[derive(Clone, Copy)]
pub struct Shape<'a> {
    pub leaf: Leaf<'a>,
    pub arrays: u32,
}

/// A type without its `?`.
fn bare<'a>(ty: &'a Ty) -> &'a Ty {
    match ty {
        Ty::Opt(inner) => inner.get(),
        _ => ty,
    }
}

impl<'a> Shape<'a> {
    /// A value of that type.
    pub fn of(ty: &'a Ty) -> Shape<'a> {
        Shape {
            leaf: Leaf::Of(ty),
            arrays: 0,
        }
    }

    /// The type, without its `?`, where a declaration gives it.
    fn ty(self) -> Option<&'a Ty> {
        match self.leaf {
            Leaf::Of(ty) if self.arrays == 0 => Some(bare(ty)),
            _ => None,
        }
    }

    /// Whether it is a String.
    pub fn is_string(self) -> bool {
        match self.leaf {
            Leaf::Text => self.arrays == 0,
            _ => matches!(self.ty(), Some(Ty::Str)),
        }
    }

    /// Whether it is a File, which may be undefined.
    pub fn is_file(self) -> bool {
        matches!(self.ty(), Some(Ty::File))
    }

    /// Whether it is an array of Files.
    pub fn is_files(self) -> bool {
        match self.item() {
            Some(item) => item.is_file(),
            None => false,
        }
    }

    /// An item of an array, or the value of a key of a map.
    pub fn item(self) -> Option<Shape<'a>> {
        if self.arrays > 0 {
            return Some(Shape {
                leaf: self.leaf,
                arrays: self.arrays - 1,
            });
        }
        match self.ty()? {
            Ty::Array { item, .. } => Some(Shape::of(item.get())),
            Ty::Map { value, .. } => Some(Shape::of(value.get())),
            _ => None,
        }
    }

    /// An array of such values.
    fn array(self) -> Shape<'a> {
        Shape {
            leaf: self.leaf,
            arrays: self.arrays.saturating_add(1),
        }
    }
}

/// The output of that name.
fn output_of<'a>(outputs: &'a [TDecl], name: &Name) -> Option<Shape<'a>> {
    for output in outputs {
        if output.name.same(name) {
            return Some(Shape::of(&output.ty));
        }
    }
    None
}

/// The output of a call, the part of a pair, or the member of a struct.
fn member_of<'a>(
    structs: &Indexed<'a, StructDef>,
    base: Shape<'a>,
    name: &Name,
) -> Option<Shape<'a>> {
    if let Leaf::Call(outputs) = base.leaf {
        return output_of(outputs, name);
    }
    Some(Shape::of(member_type(structs, name, base.ty()?)?))
}

/// So many arrays of Strings.
fn texts(arrays: u32) -> Option<Shape<'static>> {
    Some(Shape {
        leaf: Leaf::Text,
        arrays,
    })
}

/// What a function gives that always gives Strings; a map from Strings to Strings counts as an
/// array of them.
fn given_texts(function: &Name) -> Option<Shape<'static>> {
    match function.as_str() {
        "sep" | "basename" | "read_string" => texts(0),
        "prefix" | "suffix" | "quote" | "squote" | "read_lines" | "read_map" => texts(1),
        "read_tsv" => texts(2),
        _ => None,
    }
}

fn is_text(side: Option<Shape>) -> bool {
    match side {
        Some(shape) => shape.is_string() || shape.is_file(),
        None => false,
    }
}

/// A sum, which is a String where one side is a String or a File.
fn sum_of(left: Option<Shape>, right: Option<Shape>) -> Option<Shape<'static>> {
    if is_text(left) || is_text(right) {
        return texts(0);
    }
    None
}

/// The shape of the first item.
#[cycle(shapes)]
fn first_shape<'a>(
    structs: &Indexed<'a, StructDef>,
    names: &Names<'a>,
    items: &[ListItem<Expr>],
) -> Option<Shape<'a>> {
    match items {
        [first, ..] => shape_of(structs, names, &first.item),
        [] => None,
    }
}

/// What a function gives.
#[cycle(shapes)]
fn given_shape<'a>(
    structs: &Indexed<'a, StructDef>,
    names: &Names<'a>,
    function: &Name,
    arguments: &[ListItem<Expr>],
) -> Option<Shape<'a>> {
    match function.as_str() {
        "select_first" => first_shape(structs, names, arguments)?.item(),
        "select_all" => first_shape(structs, names, arguments),
        _ => given_texts(function),
    }
}

/// What is known of the type of an expression; none where that is neither a String nor leads to
/// one, or does not follow from declarations.
#[cycle(shapes)]
pub fn shape_of<'a>(
    structs: &Indexed<'a, StructDef>,
    names: &Names<'a>,
    e: &Expr,
) -> Option<Shape<'a>> {
    match e {
        Expr::Str(_) => texts(0),
        Expr::Group { inner, .. } => shape_of(structs, names, inner.get()),
        Expr::If {
            accepted,
            refused,
            ..
        } => match shape_of(structs, names, accepted.get()) {
            Some(shape) => Some(shape),
            None => shape_of(structs, names, refused.get()),
        },
        Expr::Binary {
            left,
            operator: BinaryOperator::Add,
            right,
            ..
        } => {
            let left = shape_of(structs, names, left.get());
            sum_of(left, shape_of(structs, names, right.get()))
        }
        Expr::Name(ident) => names.shape(&ident.name),
        Expr::Member { base, name, .. } => {
            let base = shape_of(structs, names, base.get())?;
            member_of(structs, base, &name.name)
        }
        Expr::Index { base, .. } => shape_of(structs, names, base.get())?.item(),
        Expr::Call {
            name,
            arguments,
            ..
        } => given_shape(structs, names, &name.name, arguments.as_slice()),
        Expr::List { items, .. } => {
            let item = first_shape(structs, names, items.as_slice())?;
            Some(item.array())
        }
        _ => None,
    }
}
