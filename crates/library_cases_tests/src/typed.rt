use sqlite_items::{Boxed, Items};
use std::alloc::Global;
use std::test::Fail;
use wdl_typed::{CheckedParts, FlowDef};
use wdl_types::{coerces, operator_type};
use wdl_value::{Name, NoMemory, Op, Span, Ty};
use wdl_well_typed::well_typed;

/// Parts without structs and tasks.
fn parts(alloc: Global, flows: Items<FlowDef>, main: Option<u32>) -> CheckedParts {
    CheckedParts {
        structs: Items::new(alloc),
        tasks: Items::new(alloc),
        flows,
        main,
    }
}

/// A workflow without inputs, statements and outputs.
fn bare(alloc: Global, name: Name) -> FlowDef {
    FlowDef {
        name,
        inputs: Items::new(alloc),
        body: Items::new(alloc),
        outputs: Items::new(alloc),
        span: Span {
            doc: 0,
            start: 0,
            end: 0,
        },
    }
}

#[test]
fn the_main_workflow_is_one_of_the_list(rt: HostRuntime) -> Result<(), Fail> {
    let alloc = rt.alloc();
    let nothing = parts(alloc, Items::new(alloc), None);
    assert!(rt; well_typed(alloc, &nothing)?);
    let beyond = parts(alloc, Items::new(alloc), Some(0));
    assert!(rt; !well_typed(alloc, &beyond)?);
    let mut flows = Items::new(alloc);
    flows.push(bare(alloc, Name::new(alloc, "w")?))?;
    let whole = parts(alloc, flows, Some(0));
    assert!(rt; well_typed(alloc, &whole)?);
    Ok(())
}

#[test]
fn an_int_is_no_item_of_an_empty_list(rt: HostRuntime) -> Result<(), Fail> {
    assert!(rt; !coerces(&Ty::Int, &Ty::Empty));
    Ok(())
}

fn maybe(alloc: Global, ty: Ty) -> Result<Ty, NoMemory> {
    Ok(Ty::Opt(Boxed::new(alloc, ty)?))
}

/// Whether the `+` of a typed tree whose sides may be undefined takes these as they are, and gives
/// a text that may be undefined; `None` where it does not take them.
fn sums(alloc: Global, left: &Ty, right: &Ty) -> Result<Option<bool>, NoMemory> {
    let Some(row) = operator_type(alloc, Op::AddMaybe, left, right, true)? else {
        return Ok(None);
    };
    let text = maybe(alloc, Ty::Str)?;
    Ok(Some(row.left.same(left) && row.right.same(right) && row.result.same(&text)))
}

#[test]
fn an_undefined_sum_takes_texts_and_what_may_be_undefined(rt: HostRuntime) -> Result<(), Fail> {
    let alloc = rt.alloc();
    let int = maybe(alloc, Ty::Int)?;
    let texts = Ty::array_of(alloc, Ty::Str, false)?;
    assert_eq!(rt; sums(alloc, &int, &Ty::Str)?, Some(true));
    assert_eq!(rt; sums(alloc, &Ty::Str, &Ty::Absent)?, Some(true));
    assert_eq!(rt; sums(alloc, &Ty::Absent, &Ty::Int)?, Some(true));
    assert_eq!(rt; sums(alloc, &int, &Ty::Int)?, None);
    assert_eq!(rt; sums(alloc, &int, &int)?, None);
    assert_eq!(rt; sums(alloc, &texts, &Ty::Absent)?, None);
    Ok(())
}
