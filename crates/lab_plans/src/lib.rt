//! The plans of the commands of `syndex_lab`: what each command reads, in which order it is
//! refused, and what it asks for. Laws on what is answered of the schedule that was found.
//! `lab_program` carries the plans out.
//!
//! A plan ends in what is asked for, and not in a text, since a search may find any schedule that is valid and no
//! longer than others: the text is defined of that one. Each law is the contract of a function that does nothing.
#![tactic(auto)]

ghost use Rattle.lab_plans.specs.Refusals.{NoAnswerWantsMemory, NoPlanWantsMemory};
ghost use Rattle.lab_plans.specs.Replies.{CommandsReply, TextsAreWritten};

/// What was carried out of the plan of the words replies.
pub fn commands_reply()
    ensures { CommandsReply }
{}

/// Done of any command: the text of a schedule that may be found was appended; and after a fault of the output a prefix
/// of one.
pub fn texts_are_written()
    ensures { TextsAreWritten }
{}

/// No refusal is that for want of memory, whatever the files hold and whichever schedule is found: words and texts are
/// refused for what they say alone. So where a refusal is told and no call of the outside world fails, it is that
/// refusal which is answered, unless memory really ran out.
pub fn none_wants_memory()
    ensures plans { NoPlanWantsMemory }
    ensures answers { NoAnswerWantsMemory }
{}
