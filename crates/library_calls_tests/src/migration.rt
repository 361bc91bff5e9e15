ghost use Rattle.std.specs.Prelude.{◌≡◌, false};
ghost use Rattle.wdl_base.specs.Plain.{has_nul};

use library_calls::{MigrateFault, migrate};
use std::alloc::Global;
use std::test::Fail;
use wdl_value::{NoMemory, Text};

const ROW: &str = "\
    {\"attempt\":0,\"command\":\"echo hi\",\"dir\":\"/tmp/wdl-run/say\",\
        \"err\":\"\",\"files\":[],\"laid\":[],\
        \"out\":\"68690a\",\"place\":\"say\",\"status\":0,\"v\":2}";

const OLD: &str = "\
    {\"command\":\"echo hi\",\"dir\":\"/tmp/wdl-run/say\",\
        \"err\":\"\",\"files\":[],\"out\":\"68690a\",\"place\":\"say\",\"status\":0,\"v\":1}";

/// A row in version 1, and twice another text.
fn rows(alloc: Global, other: &str) -> Result<[Text; 3], NoMemory>
    requires { has_nul other.now ≡ false }
{
    Ok([
        Text::from_plain(alloc, OLD)?,
        Text::from_plain(alloc, other)?,
        Text::from_plain(alloc, other)?,
    ])
}

/// Whether each of the rows becomes the row in version 2.
fn are_renewed(alloc: Global, rows: &[Text; 3]) -> Result<bool, MigrateFault> {
    let all = migrate(alloc, rows)?;
    Ok(all.len() == 3 && all.as_slice().iter().all(|row| row.is(ROW)))
}

#[test]
fn old_rows_are_migrated_up_to_the_first_that_is_none(rt: HostRuntime) -> Result<(), Fail> {
    let alloc = rt.alloc();
    assert_eq!(rt; are_renewed(alloc, &rows(alloc, ROW)?), Ok(true));
    assert_eq!(rt;
        are_renewed(alloc, &rows(alloc, "{}")?),
        Err(MigrateFault::NotARow { index: 1 })
    );
    Ok(())
}
