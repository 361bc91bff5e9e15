ghost use Rattle.report_text.specs.Lines.{HasPath};
ghost use Rattle.wdl_port.specs.Causes.{Rose};
ghost use Rattle.workflow_stages.specs.Paths.{HasPaths};
ghost use Rattle.workflow_cli.specs.Writing.{TellsLine, Reports, Finishes};

use report_text::{Status, line_of, no_memory_line, write_line};
use std::alloc::Global;
use wdl_port::Sink;
use workflow_stages::{CommandStop, Work, write_all};

/// Writes the line of a status.
fn tell_line<E: Sink>(status: Status, text: &str, err: &mut E) -> Status
    ensures value { TellsLine status text.now (E.told err.old) (E.told err.new) (Rose (E.faults err.old) (E.faults err.new)) result }
{
    match write_all(err, text.as_bytes()) {
        Ok(()) => status,
        Err(_) => Status::Write,
    }
}

/// Makes the line of a status and writes it.
fn tell<E: Sink>(alloc: Global, stop: CommandStop, err: &mut E) -> Status
    requires paths { HasPath stop.status stop.paths }
    ensures value { Reports stop.status stop.paths (E.told err.old) (E.told err.new) (Rose (E.faults err.old) (E.faults err.new)) result }
{
    let CommandStop {
        status,
        paths,
        note: _,
    } = stop;
    match line_of(alloc, &status, &paths) {
        Ok(text) => tell_line(status, text.as_str(), err),
        Err(_) => tell_line(Status::NoMemory, no_memory_line(), err),
    }
}

/// Writes what the work came to, and says how that ended.
pub fn finish<O: Sink, E: Sink>(alloc: Global, work: Work, out: &mut O, err: &mut E) -> Status
    requires paths { HasPaths work }
    ensures value { Finishes work (O.told out.old) (O.told out.new) (E.told err.old) (E.told err.new)
        (Rose (O.faults out.old) (O.faults out.new)) (Rose (E.faults err.old) (E.faults err.new))
        result }
{
    match work {
        Work::Text(text) => match write_all(out, text.as_str().as_bytes()) {
            Ok(()) => Status::Ok,
            Err(_) => tell_line(Status::Write, write_line(), err),
        },
        Work::Stop(stop) => tell(alloc, stop, err),
    }
}
