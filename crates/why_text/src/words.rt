//! The words of causes and rules, as the manual has them.
ghost use Rattle.std.specs.Prelude.{◌≡◌};
ghost use Rattle.check_places.specs.Shown.{cause_of};
ghost use Rattle.why_text.specs.Text.{cause_words, rule_words};

use check_places::Rule;

/// The cause to which a rule belongs.
pub fn cause_words(rule: Rule) -> &'static [u8]
    ensures { result.now ≡ cause_words (cause_of rule) }
{
    match rule {
        Rule::OtherSequence | Rule::MissingName => b"K1 Sequences",
        Rule::NotCalled | Rule::CalledAgain | Rule::CalledInThread | Rule::GetNotBeforeSet =>
            b"K2 Calls",
        Rule::OutsideThread
        | Rule::UnknownMedium
        | Rule::UnequalTransfers
        | Rule::NotSent
        | Rule::NotReceived
        | Rule::SentElsewhere
        | Rule::ReceivedElsewhere
        | Rule::NotAwaited => b"K3 Transfers",
        Rule::MissingPair
        | Rule::PairElsewhere
        | Rule::EmptyNotTaken
        | Rule::FullNotSignalled
        | Rule::FullNotTaken
        | Rule::EmptyNotSignalled
        | Rule::FurtherPair => b"K5 Pairs",
        Rule::MissingSignal | Rule::FurtherLine => b"K6 Prologue",
        _ => b"K4 Buffers",
    }
}

/// A rule.
pub fn rule_words(rule: Rule) -> &'static [u8]
    ensures { result.now ≡ rule_words rule }
{
    match rule {
        Rule::OtherSequence =>
            b"the main parts and threads are those of the architecture, in its order",
        Rule::MissingName => b"what a line names is there",
        Rule::NotCalled => b"each operation is called once, and this one is not",
        Rule::CalledAgain => b"each operation is called once, and this one again",
        Rule::CalledInThread => b"each operation is called in a loop of a main part",
        Rule::GetNotBeforeSet =>
            b"both halves of a delay are called in one main part, get before set",
        Rule::OutsideThread => b"transfers stand in loops of threads alone",
        Rule::UnknownMedium => b"each thread is at a medium",
        Rule::UnequalTransfers => b"the threads of a medium have equally many transfers",
        Rule::NotSent => b"each transfer is sent by one thread, and this one by none",
        Rule::NotReceived => b"each transfer is received by one thread, and this one by none",
        Rule::SentElsewhere => b"each transfer is sent to the processor that receives it",
        Rule::ReceivedElsewhere => b"each transfer is received from the processor that sends it",
        Rule::NotAwaited => b"all other threads wait for each transfer, with its two processors",
        Rule::NotWritten => b"each buffer is written once, and this one is not",
        Rule::WrittenAgain => b"each buffer is written once, and this one again",
        Rule::TouchedElsewhere => b"each buffer is touched on its own processor alone",
        Rule::ReadTooEarly => b"in its writer's loop each buffer is read after it is written",
        Rule::WrongPlaces =>
            b"each buffer has one place where no other loop of its processor reads it",
        Rule::NotMade => b"each buffer comes from a call in the end",
        Rule::UnequalInputs =>
            b"each call reads one buffer for each value that its operation takes",
        Rule::OtherInput => {
            b"each buffer that a call reads has the length and the value that its operation takes"
        }
        Rule::UnequalOutputs =>
            b"each call writes one buffer for each value that its operation gives",
        Rule::OtherOutput => {
            b"each buffer that a call writes has the length and the value that its operation gives"
        }
        Rule::UnequalLengths =>
            b"each buffer that is received has the length of the one that is sent",
        Rule::OtherValue => b"each buffer that is received has the value of the one that is sent",
        Rule::MissingPair => b"there is one pair for each buffer and each other loop that reads it",
        Rule::PairElsewhere =>
            b"each pair is on its buffer's processor, by buffer and then by loop",
        Rule::EmptyNotTaken => b"the writer takes Suc0_ once, before it writes",
        Rule::FullNotSignalled => b"the writer gives Pre1_ once, after it writes",
        Rule::FullNotTaken => b"the reader takes Suc1_ once, before its reads",
        Rule::EmptyNotSignalled => b"the reader gives Pre0_ once, after its reads",
        Rule::FurtherPair => {
            b"there is no more than one pair for each buffer and each other loop that reads it"
        }
        Rule::MissingSignal => {
            b"before a loop stands Pre0_ of each pair that it reads by, once for each place, by number"
        }
        Rule::FurtherLine =>
            b"before a loop stands nothing but Pre0_ of the pairs that it reads by",
    }
}
