//! The law of the table.

ghost use Rattle.ultra_requests.specs.RowLaw.{RequestLaw};

/// The rows of a table of requests are those of the log, as this function's contract. It holds for
/// all settings in their ranges, every program and every number of cycles. The issue of each row is
/// in the log, and so is its answer, which has the same name. Each issue and each answer of the log
/// is in exactly one row. Rows with an answer come first, by the cycle of the answer and then by
/// processing element. The others follow, by processing element and then by number. The function
/// itself does nothing.
pub fn request_law()
    ensures rows { RequestLaw }
{}
