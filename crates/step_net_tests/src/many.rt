use std::test::Fail;
use step_net::StepNet;

const MANY: usize = 20_000;

/// Each step needs one cell, and what is done sets the next one.
#[test]
fn a_chain_is_done_from_its_first_cell_on(rt: HostRuntime) -> Result<(), Fail> {
    let alloc = rt.alloc();
    let mut net = StepNet::new(alloc);
    for k in 0..MANY + 1 {
        let cell = net.cell(alloc)?;
        assert!(rt; cell == k);
    }
    for k in 0..MANY {
        let step = net.step(&[k])?;
        assert!(rt; step == k);
    }
    assert!(rt; net.pop()?.is_none());
    net.set(0)?;
    for k in 0..MANY {
        let popped = net.pop()?;
        assert!(rt; popped == Some(k));
        net.set(k + 1)?;
    }
    assert!(rt; net.pop()?.is_none());
    Ok(())
}

/// The cells are set from the last one to the first one, and after each the step is asked for.
#[test]
fn a_step_that_needs_many_cells_is_done_after_the_last(rt: HostRuntime) -> Result<(), Fail> {
    let alloc = rt.alloc();
    let mut net = StepNet::new(alloc);
    let mut needs = Vec::new(alloc);
    for k in 0..MANY {
        let cell = net.cell(alloc)?;
        needs.push(cell)?;
        assert!(rt; needs.len() == k + 1);
    }
    assert!(rt; net.step(&needs)? == 0);
    for k in 1..MANY {
        net.set(MANY - k)?;
        assert!(rt; net.pop()?.is_none());
    }
    net.set(0)?;
    assert!(rt; net.pop()? == Some(0));
    assert!(rt; net.pop()?.is_none());
    Ok(())
}

/// A cell may be needed twice, be needed by two steps, and be set twice.
#[test]
fn each_step_is_done_once(rt: HostRuntime) -> Result<(), Fail> {
    let alloc = rt.alloc();
    let mut net = StepNet::new(alloc);
    let a = net.cell(alloc)?;
    let b = net.cell(alloc)?;
    net.step(&[a, a])?;
    net.step(&[b, a, b])?;
    net.step(&[])?;
    assert!(rt; net.pop()? == Some(2));
    net.set(a)?;
    net.set(a)?;
    assert!(rt; net.pop()? == Some(0));
    assert!(rt; net.pop()?.is_none());
    net.set(b)?;
    assert!(rt; net.pop()? == Some(1));
    assert!(rt; net.pop()?.is_none());
    Ok(())
}

/// Steps that one cell frees come in the order in which they began to wait for it.
#[test]
fn first_in_first_out(rt: HostRuntime) -> Result<(), Fail> {
    let alloc = rt.alloc();
    let mut net = StepNet::new(alloc);
    let a = net.cell(alloc)?;
    net.step(&[a])?;
    net.step(&[a])?;
    assert!(rt; net.pop()?.is_none());
    net.step(&[])?;
    net.set(a)?;
    assert!(rt; net.pop()? == Some(2));
    assert!(rt; net.pop()? == Some(0));
    assert!(rt; net.pop()? == Some(1));
    Ok(())
}
