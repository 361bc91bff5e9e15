ghost use Rattle.std.specs.Prelude.{IfOk};
ghost use Rattle.wdl_base.specs.Templates.{HasPieces};

use library_calls::{FillFault, fill};
use std::alloc::Global;
use std::test::Fail;
use wdl_value::{Items, NoMemory, Part, Template, Text};

/// A template with two holes.
fn greeting(alloc: Global) -> Result<Template, NoMemory>
    ensures { IfOk result (λ t. HasPieces 2 t) }
{
    let mut parts = Items::new(alloc);
    parts.push(Part::Chars(Text::from_plain(alloc, "echo ")?))?;
    parts.push(Part::Hole(1))?;
    parts.push(Part::Hole(0))?;
    parts.push(Part::Hole(1))?;
    Ok(parts)
}

#[test]
fn fill_puts_each_piece_in_its_place(rt: HostRuntime) -> Result<(), Fail> {
    let alloc = rt.alloc();
    let template = greeting(alloc)?;
    let pieces = [Text::new(alloc, "a")?, Text::new(alloc, "\n  b")?];
    let text = fill(alloc, &template, pieces.as_slice())?;
    assert_eq!(rt; text.as_str(), "echo \n  ba\n  b");
    Ok(())
}

#[test]
fn a_filled_text_has_at_most_65536_bytes(rt: HostRuntime) -> Result<(), Fail> {
    let alloc = rt.alloc();
    let template = greeting(alloc)?;
    let mut long = String::new(alloc);
    for _ in 0..32_765 {
        long.push('x')?;
    }
    let pieces = [Text::new(alloc, "a")?, Text::new(alloc, long.as_str())?];
    assert!(rt; fill(alloc, &template, pieces.as_slice())?.as_str().len() == 65_536);
    let pieces = [Text::new(alloc, "ab")?, Text::new(alloc, long.as_str())?];
    match fill(alloc, &template, pieces.as_slice()) {
        Err(FillFault::TooLarge) => {}
        _ => assert!(rt; false),
    }
    Ok(())
}
