//! Laws of cells. Each function does nothing, and its contract is the law.

ghost use Rattle.txn_cells.specs.Statements.{LimitsInDigits, OneList, CallsAreTyped};

use crate::coded::Coded;
use history_model::Shape;

/// The limits in digits.
pub fn limits_in_digits()
    ensures { LimitsInDigits }
{}

/// The cells of a list of words have one list of values at most.
pub fn one_list<T: Coded, S: Shape>()
    ensures { OneList T.Coded S.Shape }
{}

/// Calls of one array, one after another, do to the values what their typed events say: with the traces that `get`,
/// `set` and `swap` left, by their clauses.
pub fn typed_trace<T: Coded, S: Shape>(shape: &S)
    ensures { CallsAreTyped T.Coded S.Shape shape.now }
{}
