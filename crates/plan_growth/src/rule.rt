/// What a step is to do, by numbers: an instance of a body, with the number of an input, a
/// statement or an output; or the cell that the step sets of the cells that it needs.
#[derive(Clone, Copy, Debug)]
pub enum Rule {
    /// Evaluates the default of an input that was left out.
    Input { instance: usize, input: usize },
    /// Does a statement.
    Statement { instance: usize, statement: usize },
    /// Evaluates an output.
    Output { instance: usize, output: usize },
    /// Sets the cell to the list of those that the step needs.
    Gathers { into: usize },
    /// Sets the cell.
    Ends { into: usize },
    /// Sets the cell to the value of the one that the step needs.
    Copies { into: usize },
}
