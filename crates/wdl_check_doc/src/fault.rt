//! Where faults stand.

ghost use Rattle.std.specs.Prelude.{◌≡◌};
ghost use Rattle.wdl_check_doc.specs.Outcomes as spec;

use wdl_check_rules::CheckFault;
use wdl_value::Span;

/// The same fault in the document of that number.
fn placed_fault(number: u32, fault: CheckFault) -> CheckFault
    ensures { result ≡ spec.placed_fault number fault }
{
    match fault {
        CheckFault::Bad { code, span } => CheckFault::Bad {
            code,
            span: Span {
                doc: number,
                start: span.start,
                end: span.end,
            },
        },
        CheckFault::NoMemory => CheckFault::NoMemory,
    }
}

/// The same answer, with its fault in the document of that number.
pub fn placed<T>(number: u32, answer: Result<T, CheckFault>) -> Result<T, CheckFault>
    ensures { result ≡ spec.placed_answer number answer }
{
    match answer {
        Ok(value) => Ok(value),
        Err(fault) => Err(placed_fault(number, fault)),
    }
}
