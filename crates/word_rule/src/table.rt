//! The table of a job and its seats: how a table begins, and how it ends.
ghost use Rattle.std.specs.Prelude.{◌≡◌, ◌<◌, ◌+◌, ℕ, [], length, slice_index_or, replicate, IfOk};
ghost use Rattle.std.specs.Mem.Slots.{slots_items, slots_len, IsFull};
ghost use Rattle.phase_laws.specs.Core.{AreReached};
ghost use Rattle.phase_laws.specs.Told.{told};
ghost use Rattle.word_rule.specs.Given.{RunsOnWords};
ghost use Rattle.word_rule.specs.Steps.{HoldsCounts};
ghost use Rattle.word_rule.specs.Views.{first_view};
ghost use Rattle.word_rule.specs.Words.{words_of, table_len};

use crate::plays::Rule;
use crate::view::View;
use atomic_table::{Closed, Seat, Table};
use phase_laws::Job;
use std::alloc::Global;
use std::marker::Model;
use syn_base::OutOfMemory;

/// The words of a job, which change by the steps of its seats alone. Word 0 is spare, and always 0.
#[derive(Drop)]
pub struct WordTable<'a> {
    pub(crate) table: Table<(), View<'a>, Job<'a>, Rule, Global>,
}

impl<'a> Model for WordTable<'a> {
    ghost use Rattle.std.specs.Prelude.{◌≡◌};
    ghost use Rattle.std.specs.Coded.{codes};
    ghost use Rattle.executive_program.specs.BodyCode.{expr_code};
    ghost use Rattle.executive_program.specs.Graph.{graph_code};
    ghost use Rattle.phase_laws.specs.Job.{job_code};
    ghost use Rattle.word_rule.specs.Table.{TableData, table_code};

    ghost Value = { TableData };

    ghost coded = { table_code (job_code (Prim.hlevel codes)
        (graph_code (Prim.hlevel codes) (expr_code (Prim.hlevel codes)))) };

    ghost use Rattle.word_rule.specs.Words.{table_len};
    ghost use Rattle.word_rule.specs.Given.{RunsOnWords};

    ghost view = { λ t. record { table = t.table.shared.table_id; key = t.table.shared.key } };

    ghost invariant = { λ t. RunsOnWords t.table.shared.key
        × (t.table.shared.table_id.words ≡ table_len t.table.shared.key)
        × (t.table.shared.table_id.slots ≡ 0) };
}

/// A seat of a table: the sequences that it drives, how many micro-steps each has made, and its last look.
#[derive(Drop)]
pub struct WordSeat<'a> {
    pub(crate) seat: Seat<(), View<'a>>,
}

impl<'a> Model for WordSeat<'a> {
    ghost use Rattle.std.specs.Prelude.{◌≡◌, []};
    ghost use Rattle.std.specs.Coded.{codes};
    ghost use Rattle.executive_program.specs.BodyCode.{expr_code};
    ghost use Rattle.executive_program.specs.Graph.{graph_code};
    ghost use Rattle.phase_laws.specs.Job.{job_code};
    ghost use Rattle.word_rule.specs.Table.{SeatData, seat_code};

    ghost Value = { SeatData };

    ghost coded = { seat_code (job_code (Prim.hlevel codes)
        (graph_code (Prim.hlevel codes) (expr_code (Prim.hlevel codes)))) };

    ghost view = { λ s. record { table = s.seat.table_id; view = s.seat.me.0 } };

    ghost invariant = { λ s. s.seat.me.1 ≡ [] };
}

/// Copies the words of a closed table, without the spare one.
fn copy_words(closed: &Closed<(), Global>, words: &mut Vec<u64>)
    requires full { IsFull closed.now.words }
    requires sized { slots_len closed.now.words ≡ length words.old.items + 1 }
    ensures long { length words.new.items ≡ length words.old.items }
    ensures each { (k : ℕ) → k < length words.old.items →
        slice_index_or words.new.items k 0 ≡
        slice_index_or (slots_items closed.now.words) (k + 1) 0 }
{
    let len = words.len();
    for i in 0..len {
        words[i] = closed.word(i + 1);
    }
}

impl<'a> WordTable<'a> {
    /// The table of a job, whose words are these zeros, with a seat that drives all of its sequences.
    pub fn open(
        alloc: Global,
        job: &Job<'a>,
        words: &[u64],
    ) -> Result<(WordTable<'a>, WordSeat<'a>), OutOfMemory>
        requires runs { RunsOnWords job.now }
        requires zeros { words.now ≡ replicate (table_len job.now) 0 }
        ensures key { IfOk result (λ t. t.0.key ≡ job.now) }
        ensures seat { IfOk result (λ t. t.1 ≡ record { table = t.0.table; view = first_view job.now }) }
    {
        match Table::of_words(alloc, words, job) {
            Ok((table, seat)) => Ok((WordTable { table }, WordSeat { seat })),
            Err(_) => Err(OutOfMemory),
        }
    }

    /// Ends the table with a seat that drives every sequence, and leaves its words, without the spare one,
    /// in place of these: they are what its counts tell, which are reached. It takes no memory.
    pub fn close(self, seat: WordSeat<'a>, counts: &[u64], words: &mut Vec<u64>)
        requires seat { seat.table ≡ self.table }
        requires all { HoldsCounts self.key seat.view counts.now }
        requires room { length words.old.items + 1 ≡ table_len self.key }
        ensures words { words.new.items ≡ words_of (told self.entry.key counts.now) }
        ensures reached { AreReached self.entry.key counts.now }
    {
        let WordTable { table } = self;
        let WordSeat { seat } = seat;
        let closed = table.close_with(seat);
        copy_words(&closed, words);
        closed.free();
    }
}
