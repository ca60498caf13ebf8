//! Laws of lines that pass their checks.
ghost use Rattle.lie_script.specs.Accepted.{AcceptedLinesFit};

/// A `field` line has as many coefficients as it says, a `datum` line a dimension from 1 to 8 that is
/// no less than the rank, a vector an entry for each coordinate, a name
/// of a new module is free, the modules that it is made of are there, an entry of a table lies in it, a row of a matrix an element of the field
/// for each of its columns, and a word is a word of the frame.
pub fn accepted_lines_fit()
    ensures { AcceptedLinesFit }
{}
