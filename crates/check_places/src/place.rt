//! Places of a program and the rules that are broken there.
use syn_base::Items;

/// The part of a sequence in which an instruction stands.
#[derive(Clone, Copy, Drop)]
pub enum Part {
    /// Before the loop.
    Prologue,
    /// In the loop, which is made in each reaction.
    Loop,
}

/// An instruction of a program, or the end of a part where its place is past the last one.
#[derive(Clone, Copy, Drop)]
pub struct Spot {
    pub part: Part,
    pub sequence: usize,
    pub at: usize,
}

/// What a rule asks something of, by number.
#[derive(Clone, Copy, Drop)]
pub enum Subject {
    /// The sequence that the architecture has there, if any.
    Expected(usize),
    Sequence(usize),
    Operation(usize),
    /// A buffer that the call of an operation reads, counted from 0 in its line.
    Input { operation: usize, number: usize },
    /// A buffer that the call of an operation writes, counted from 0 in its line.
    Output { operation: usize, number: usize },
    Buffer(usize),
    Pair(usize),
    /// A transfer of a medium, counted from 0.
    Transfer { medium: usize, number: usize },
}

/// How a program breaks a rule: what is the case of the subject, and may not be.
#[derive(Clone, Copy, Drop)]
pub enum Rule {
    /// The sequence is not the one that the architecture has there.
    OtherSequence,
    /// The instruction names an operation, buffer, pair or operator that is not there.
    MissingName,
    /// The operation is called nowhere.
    NotCalled,
    /// The operation is called a second time.
    CalledAgain,
    /// The operation is called in a communicator.
    CalledInThread,
    /// The get half of a delay is not called before its set half in one sequence.
    GetNotBeforeSet,
    /// A computation sequence has a communication.
    OutsideThread,
    /// A communicator is at a medium that is not there.
    UnknownMedium,
    /// A communicator has more or fewer communications than the first one of its medium.
    UnequalTransfers,
    /// No communicator of the medium sends in the transfer.
    NotSent,
    /// No communicator of the medium receives in the transfer.
    NotReceived,
    /// The transfer is sent to another operator than the one that receives.
    SentElsewhere,
    /// The transfer is received from another operator than the one that sends.
    ReceivedElsewhere,
    /// Another communicator of the medium does not wait for the transfer between these operators.
    NotAwaited,
    /// The buffer is written nowhere.
    NotWritten,
    /// The buffer is written a second time.
    WrittenAgain,
    /// The buffer is touched on another operator.
    TouchedElsewhere,
    /// The buffer is read in the sequence that writes it, and not after the write.
    ReadTooEarly,
    /// The buffer has more than four places, or several where no other sequence reads it, or none.
    WrongPlaces,
    /// What the buffer holds comes from no call.
    NotMade,
    /// The call reads more or fewer buffers than the operation takes.
    UnequalInputs,
    /// The buffer does not carry the value that the operation takes there, in its length.
    OtherInput,
    /// The call writes more or fewer buffers than the operation gives.
    UnequalOutputs,
    /// The buffer does not carry the output of the operation in its length.
    OtherOutput,
    /// The buffer that is received has another length than the one that is sent.
    UnequalLengths,
    /// The buffer that is received carries another value than the one that is sent.
    OtherValue,
    /// The pair is not declared.
    MissingPair,
    /// The pair is on another operator than its buffer.
    PairElsewhere,
    /// The writer does not take the empty semaphore once, before the write.
    EmptyNotTaken,
    /// The writer does not signal the full semaphore once, after the write.
    FullNotSignalled,
    /// The reader does not take the full semaphore once, before its reads.
    FullNotTaken,
    /// The reader does not signal the empty semaphore once, after its reads.
    EmptyNotSignalled,
    /// No buffer and sequence are left for the pair.
    FurtherPair,
    /// The prologue does not signal the empty semaphore of the pair there.
    MissingSignal,
    /// The prologue goes on after its last signal.
    FurtherLine,
}

/// A place that shows why a program is not well formed.
#[derive(Clone, Copy, Drop)]
pub struct Place {
    pub rule: Rule,
    pub subject: Subject,
    /// The instruction that shows it, where there is one.
    pub spot: Option<Spot>,
}

/// An instruction of a loop at which a run stops, and the one for which it waits.
#[derive(Clone, Copy, Drop)]
pub struct Waiting {
    pub sequence: usize,
    pub at: usize,
    pub awaits: Option<Spot>,
}

/// Why a program is not well formed.
#[derive(Drop)]
pub enum Why {
    /// A rule is broken at this place, the first one.
    Breaks(Place),
    /// There is no serial order: each sequence that is not at its end waits.
    Stuck(Items<Waiting>),
}
