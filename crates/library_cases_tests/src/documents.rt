//! Documents, and the statements of their workflows.

use std::alloc::Global;
use std::test::Fail;
use wdl_ast::{Document, Section, Statement, WorkflowElement};
use wdl_lex::lex;
use wdl_parse_doc::parse;
use wdl_value::NoMemory;

/// The document of a text.
pub fn document(alloc: Global, text: &str) -> Result<Document, Fail> {
    let tokens = lex(alloc, text.as_bytes(), 0)?;
    Ok(parse(alloc, tokens.as_slice())?)
}

/// The statements of the body of its workflow.
pub fn statements<'a>(
    alloc: Global,
    document: &'a Document,
) -> Result<Vec<&'a Statement>, NoMemory> {
    let mut statements = Vec::new(alloc);
    for section in document.sections.as_slice() {
        if let Section::Workflow(workflow) = section {
            for element in workflow.elements.as_slice() {
                if let WorkflowElement::Statement(statement) = element {
                    statements.push(statement)?;
                }
            }
        }
    }
    Ok(statements)
}
