//! The texts of a process.

ghost use Rattle.std.specs.Prelude.{◌≡◌, true};
ghost use Rattle.std.specs.List.{list_all};
ghost use Rattle.cwl_emit.specs.Formed as formed;
ghost use Rattle.cwl_formed.specs.Plain as spec;

use cwl_model::{CwlIn, CwlStep, FlowOut, Link, Mode, Origin, Piece, Process, Tool, ToolOut, Wire};
use wdl_base::Text;
use wdl_value::Value;

/// A text holds no NUL.
fn see(text: &Text)
    ensures { formed.is_plain text.now ≡ true }
{
    let _text = text.as_str();
}

fn see_all(texts: &[Text])
    ensures { list_all formed.is_plain texts.now ≡ true }
{
    for text in texts {
        see(text);
    }
}

#[cycle(seen)]
fn see_value(value: &Value)
    ensures { spec.value_plain value.now ≡ true }
{
    match value {
        Value::Str(s) => see(s),
        Value::List(items) => see_values(items.as_slice()),
        Value::Bool(_) | Value::Int(_) | Value::File(_) | Value::Absent => {}
        Value::Pair(_, _) | Value::Map(_) | Value::Struct { .. } => {}
    }
}

#[cycle(seen)]
fn see_values(values: &[Value])
    ensures { spec.values_plain values.now ≡ true }
{
    for value in values {
        see_value(value);
    }
}

fn see_input(input: &CwlIn)
    ensures { spec.input_plain input.now ≡ true }
{
    see(&input.id);
    if let Some(preset) = &input.preset {
        see_value(preset);
    }
}

fn see_inputs(inputs: &[CwlIn])
    ensures { list_all spec.input_plain inputs.now ≡ true }
{
    for input in inputs {
        see_input(input);
    }
}

fn see_origin(origin: &Origin)
    ensures { formed.origin_formed origin.now ≡ true }
{
    match origin {
        Origin::Stdout => {}
        Origin::Glob(name) => see(name),
    }
}

fn see_tool_outs(outputs: &[ToolOut])
    ensures { list_all formed.tool_out_formed outputs.now ≡ true }
{
    for output in outputs {
        see(&output.id);
        see_origin(&output.origin);
    }
}

fn see_piece(piece: &Piece)
    ensures { spec.piece_plain piece.now ≡ true }
{
    match piece {
        Piece::Chars(text) => see(text),
        Piece::Input(_) | Piece::InputPath(_) => {}
    }
}

fn see_pieces(pieces: &[Piece])
    ensures { list_all spec.piece_plain pieces.now ≡ true }
{
    for piece in pieces {
        see_piece(piece);
    }
}

fn see_tool(tool: &Tool)
    ensures { spec.tool_plain tool.now ≡ true }
{
    see_pieces(tool.argument.as_slice());
    see_inputs(tool.inputs.as_slice());
    see_tool_outs(tool.outputs.as_slice());
}

fn see_link(link: &Link)
    ensures { spec.link_plain link.now ≡ true }
{
    match link {
        Link::Input(id) => see(id),
        Link::Out { step, out } => {
            see(step);
            see(out);
        }
    }
}

fn see_flow_outs(outputs: &[FlowOut])
    ensures { list_all spec.flow_out_plain outputs.now ≡ true }
{
    for output in outputs {
        see(&output.id);
        see_link(&output.source);
    }
}

fn see_wires(wires: &[Wire])
    ensures { list_all spec.wire_plain wires.now ≡ true }
{
    for wire in wires {
        see(&wire.id);
        see_link(&wire.source);
    }
}

fn see_mode(mode: &Mode)
    ensures { formed.mode_formed mode.now ≡ true }
{
    match mode {
        Mode::Scatter(id) => see(id),
        Mode::Plain | Mode::When => {}
    }
}

fn see_ends(step: &CwlStep<Process>)
    ensures { spec.ends_plain step.now ≡ true }
{
    see(&step.id);
    see_wires(step.wires.as_slice());
    see_all(step.outs.as_slice());
    see_mode(&step.mode);
}

#[cycle(processes)]
fn see_process(process: &Process)
    ensures { spec.texts_are_plain process.now ≡ true }
{
    match process {
        Process::Tool(tool) => see_tool(tool),
        Process::Flow(flow) => {
            see_inputs(flow.inputs.as_slice());
            see_flow_outs(flow.outputs.as_slice());
            see_steps(flow.steps.as_slice());
        }
    }
}

#[cycle(processes)]
fn see_steps(steps: &[CwlStep<Process>])
    ensures { spec.steps_plain steps.now ≡ true }
{
    for step in steps {
        see_ends(step);
        see_process(&step.run);
    }
}

/// No text of a process holds a NUL. The walk only tells this to the proof.
pub fn see_texts(process: &Process)
    ensures { spec.texts_are_plain process.now ≡ true }
{
    see_process(process);
}
