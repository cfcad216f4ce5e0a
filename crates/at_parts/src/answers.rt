//! Answers over parts.

ghost use Rattle.at_parts.specs.Sums.{AnswersSumUp, AnswersMove};

/// Two answers of one query, over two lists of features, say the answer over both lists: the offsets one behind another,
/// the sum of counts or of areas, the least extent round both, and the hull of the corners of both hulls.
pub fn answers_sum_up()
    ensures { AnswersSumUp }
{}

/// Of features that are told from another place in the file only the offsets that are answered differ, and by as much.
pub fn answers_move()
    ensures { AnswersMove }
{}
