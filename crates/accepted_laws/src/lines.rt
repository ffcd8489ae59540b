//! The law of the lines of repetitions, the contract of a function that does nothing and is not called.
ghost use Rattle.accepted_laws.specs.TextLines.{ElaboratedLinesStandInTextOrder, LinesStandInTextOrder};

/// In the tree of accepted definitions each repetition is one of a definition `repeat`, and its lines by
/// ascending outer input are the lines of that definition, from the first to the last: the line of the text
/// that is number k among those that feed the body has outer input k. So the operations of the tree have an
/// explode for each fork line, in the order of the text.
///
/// It holds of what definitions resolve to, and of the tree that is made of every accepted text, where marked
/// references have become graphs.
pub fn lines_stand_in_text_order()
    ensures resolved { LinesStandInTextOrder }
    ensures elaborated { ElaboratedLinesStandInTextOrder }
{}
