//! The dates of reactions, as `dates_of` hands them out.
use std::marker::Model;
use syn_base::Items;

/// When an entry starts and ends in one reaction, in ticks.
#[derive(Clone, Copy, Debug, PartialEq, Eq)]
pub struct Span {
    pub start: u64,
    pub end: u64,
}

/// When each entry of a schedule starts and ends, in ticks, reaction by reaction: first the operations
/// by number, and then the transfers in the order of the decisions. Contracts see the list of reactions,
/// each a list of spans.
#[derive(Drop)]
pub struct Dates {
    reactions: Vec<Items<Span>>,
}

impl Model for Dates {
    ghost use Rattle.std.specs.Prelude.{List};
    ghost use Rattle.self_timed.specs.declared.dates.Span.{Span};

    ghost Value = { List (List Span) };

    ghost view = { λ s. s.reactions.items };
}

impl Dates {
    ghost use Rattle.std.specs.Prelude.{◌≡◌, ◌<◌, length};
    ghost use Rattle.self_timed.specs.Told.{reaction_at, span_at};

    /// The dates of these reactions. It takes no memory.
    pub(crate) fn new(reactions: Vec<Items<Span>>) -> Dates
        ensures { result ≡ reactions.items }
    {
        Dates { reactions }
    }

    /// How many reactions there are. It takes no memory.
    pub fn reactions(&self) -> usize
        ensures { result ≡ length self.now }
    {
        self.reactions.len()
    }

    /// The spans of the reaction, by entry. It takes no memory.
    pub fn row(&self, reaction: usize) -> &[Span]
        requires { reaction < length self.now }
        ensures { result.now ≡ reaction_at self.now reaction }
    {
        self.reactions[reaction].as_slice()
    }

    /// How many entries the reaction has. It takes no memory.
    pub fn entries(&self, reaction: usize) -> usize
        requires { reaction < length self.now }
        ensures { result ≡ length (reaction_at self.now reaction) }
    {
        self.reactions[reaction].as_slice().len()
    }

    /// When the entry starts in the reaction. It takes no memory.
    pub fn start(&self, reaction: usize, entry: usize) -> u64
        requires reaction { reaction < length self.now }
        requires entry { entry < length (reaction_at self.now reaction) }
        ensures { result ≡ (span_at self.now reaction entry).start }
    {
        self.reactions[reaction].as_slice()[entry].start
    }

    /// When the entry ends in the reaction. It takes no memory.
    pub fn end(&self, reaction: usize, entry: usize) -> u64
        requires reaction { reaction < length self.now }
        requires entry { entry < length (reaction_at self.now reaction) }
        ensures { result ≡ (span_at self.now reaction entry).end }
    {
        self.reactions[reaction].as_slice()[entry].end
    }
}
