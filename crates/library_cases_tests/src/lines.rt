use report_text::{Status, line_of};
use std::alloc::Global;
use std::test::Fail;
use wdl_value::{Items, Span, Text};

const SPAN: Span = Span {
    doc: 0,
    start: 33,
    end: 52,
};

/// Numbers before, between and after the codes of documents.
const NO_CODES: [u16; 22] = [
    100, 108, 109, 113, 114, 115, 116, 117, 118, 119, 124, 200, 208, 300, 313, 314, 315, 316, 317,
    318, 319, 331,
];

fn document_line(alloc: Global, code: u16) -> Result<Text, Fail> {
    let mut paths = Items::new(alloc);
    paths.push(Text::new(alloc, "w.wdl")?)?;
    Ok(line_of(alloc, &Status::Document(code, SPAN), &paths)?)
}

fn input_line(alloc: Global, code: u16) -> Result<Text, Fail> {
    let name = Text::new(alloc, "w.xs")?;
    Ok(line_of(alloc, &Status::Inputs(code, Some(name)), &Items::new(alloc))?)
}

#[test]
fn a_number_that_is_no_code_has_no_word(rt: HostRuntime) -> Result<(), Fail> {
    let alloc = rt.alloc();
    for code in NO_CODES {
        let wanted = format!(in alloc; "w.wdl:33..52: {code}\n")?;
        assert_eq!(rt; document_line(alloc, code)?.as_str(), wanted.as_str());
    }
    Ok(())
}

#[test]
fn each_line_of_the_inputs_may_name_a_member(rt: HostRuntime) -> Result<(), Fail> {
    let alloc = rt.alloc();
    let rows: [(u16, &str); 5] = [
        (400, "inputs: 400 w.xs\n"),
        (401, "inputs: 401 NotJson w.xs\n"),
        (402, "inputs: 402 NotAnObject w.xs\n"),
        (407, "inputs: 407 TooLong w.xs\n"),
        (408, "inputs: 408 w.xs\n"),
    ];
    for (code, wanted) in rows {
        assert_eq!(rt; input_line(alloc, code)?.as_str(), wanted);
    }
    Ok(())
}

#[test]
fn a_launch_at_the_main_workflow_has_a_line(rt: HostRuntime) -> Result<(), Fail> {
    let alloc = rt.alloc();
    let status = Status::Launch(Items::new(alloc));
    let line = line_of(alloc, &status, &Items::new(alloc))?;
    assert_eq!(rt; line.as_str(), "cannot launch .\n");
    Ok(())
}
