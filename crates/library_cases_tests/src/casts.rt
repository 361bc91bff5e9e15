use crate::documents::{document, statements};
use sqlite_items::{Boxed, Items};
use std::alloc::Global;
use std::test::Fail;
use wdl_ast::{Declaration, Statement};
use wdl_check_expr::{CheckFault, Scope, check_as};
use wdl_check_rules::Local;
use wdl_check_types::written_type;
use wdl_names::{Indexed, NameStack, TypedNames};
use wdl_typed::{Bound, TExpr};
use wdl_value::{Key, Member, Name, Span, StructDef, Ty};

/// A library with one struct.
fn structs(alloc: Global) -> Result<Items<StructDef>, Fail> {
    let mut members = Items::new(alloc);
    members.push(Member {
        name: Name::new(alloc, "a")?,
        ty: Ty::Int,
    })?;
    let mut structs = Items::new(alloc);
    structs.push(StructDef {
        name: Name::new(alloc, "P")?,
        members,
    })?;
    Ok(structs)
}

/// The code and the part of the text where it holds.
fn refusal(alloc: Global, text: &str, code: u16, span: Span) -> Result<String, Fail> {
    let part = text
        .get(span.start as usize..span.end as usize)
        .unwrap_or("nowhere");
    Ok(format!(in alloc; "{code}:{part}")?)
}

/// Whether the expression is kept as it stands or cast.
fn shown(alloc: Global, expr: TExpr) -> Result<String, Fail> {
    let expr = Boxed::new(alloc, expr)?;
    let word = match expr.get() {
        TExpr::Cast(_, _) => "cast",
        _ => "kept",
    };
    Ok(String::from_str(alloc, word)?)
}

/// What the value of a declaration becomes at its type, and the name that it declares.
fn checked(
    alloc: Global,
    scope: &Scope,
    text: &str,
    declaration: &Declaration,
) -> Result<(String, Bound), Fail> {
    let ty = written_type(alloc, &declaration.ty, scope.locals).map_err(|_| "no type")?;
    let answer = match check_as(alloc, scope, &declaration.value, &ty) {
        Ok(expr) => shown(alloc, expr)?,
        Err(CheckFault::Bad { code, span }) => refusal(alloc, text, code, span)?,
        Err(CheckFault::NoMemory) => String::from_str(alloc, "no memory")?,
    };
    let key = Key {
        first: declaration.name.name.copy(alloc)?,
        second: None,
    };
    Ok((answer, Bound { key, ty }))
}

/// What the values of the declarations of a workflow become, each of which sees those before it.
fn answers<'a>(
    alloc: Global,
    text: &str,
    structs: &'a Indexed<'a, StructDef>,
    locals: &'a Indexed<'a, Local<'a>>,
) -> Result<String, Fail> {
    let document = document(alloc, text)?;
    let statements = statements(alloc, &document)?;
    let calls = NameStack::empty(alloc);
    let mut names = TypedNames::empty(alloc);
    let mut answers = String::new(alloc);
    for statement in statements.as_slice() {
        let Statement::Declaration(declaration) = statement else {
            continue;
        };
        let scope = Scope {
            names: &names,
            calls: &calls,
            structs,
            locals,
            outputs: false,
            placeholder: false,
        };
        let (answer, bound) = checked(alloc, &scope, text, declaration)?;
        answers.push_str(answer.as_str())?;
        answers.push(' ')?;
        names.enter(bound)?;
    }
    Ok(answers)
}

/// The same where `P` stands for the struct of the library, and `Z` for one that it lacks.
fn answers_in_library(alloc: Global, text: &str) -> Result<String, Fail> {
    let structs = structs(alloc)?;
    let structs = Indexed::new(alloc, structs.as_slice())?;
    let (p, y, z) = (
        Name::new(alloc, "P")?,
        Name::new(alloc, "Y")?,
        Name::new(alloc, "Z")?,
    );
    let locals = [
        Local {
            name: &p,
            stands_for: &p,
        },
        Local {
            name: &z,
            stands_for: &y,
        },
    ];
    let locals = Indexed::new(alloc, locals.as_slice())?;
    answers(alloc, text, &structs, &locals)
}

#[test]
fn a_cast_is_written_out_where_the_types_differ(rt: HostRuntime) -> Result<(), Fail> {
    let text = "version 1.1 workflow w { \
Int i = 1 String s = \"a\" File f = s Array[Int] xs = [1] \
Int? a = i Array[Int?] b = xs Array[String]+ c = [s, f] Map[String, Int] d = {} \
Int? e = a String? j = a Int? k = None String l = i String m = f String t = s \
Array[String] n = xs Array[Int]+ o = xs Array[Int] u = [] \
P p = P {a: 1} P q = p P? r = p \
Pair[Int, String] g = (1, s) Pair[String, String] h = g }";
    let answers = answers_in_library(rt.alloc(), text)?;
    let wanted = "\
kept kept cast cast \
cast cast kept cast \
kept cast cast cast cast kept \
cast cast cast \
kept kept cast \
kept cast ";
    assert_eq!(rt; answers.as_str(), wanted);
    Ok(())
}

#[test]
fn a_name_of_a_struct_that_the_library_lacks_is_unknown(rt: HostRuntime) -> Result<(), Fail> {
    let text = "version 1.1 workflow w { P x = Z {a: 1} }";
    let answers = answers_in_library(rt.alloc(), text)?;
    assert_eq!(rt; answers.as_str(), "329:Z ");
    Ok(())
}
