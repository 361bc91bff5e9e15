use crate::documents::{document, statements};
use std::test::Fail;
use wdl_check_order::order_of;

#[test]
fn a_scatter_does_not_need_what_has_the_name_of_its_item(rt: HostRuntime) -> Result<(), Fail> {
    let alloc = rt.alloc();
    let text = "version 1.1 workflow w { scatter (i in [1]) { Int j = i } Int i = 1 }";
    let document = document(alloc, text)?;
    let statements = statements(alloc, &document)?;
    let positions = order_of(alloc, statements.as_slice()).map_err(|_| "no order")?;
    assert!(rt; matches!(positions.as_slice(), [0, 1]));
    Ok(())
}
