//! Who reads and who writes each buffer, noted act by act before an instruction is made.
ghost use Rattle.std.specs.Prelude.{◌≡◌, ◌+◌, ◌*◌, ◌&&◌, ◌∷◌, [], nat_eq, map, replicate, true, false, IfOk, OnOk, slice_index_or, slice_set};
ghost use Rattle.std.specs.List.{flat_map, list_any};
ghost use Rattle.sequence_build_laws.specs.Acts.{acts_of, carry, run};
ghost use Rattle.sequence_build.specs.Plain.{steps_at};
ghost use Rattle.sequence_build.specs.Touched.{Counts, IsNoted, Notes, Puts, put_in, readers_of, waits};

use crate::site::Site;
use sequence_build_laws::{Decision, Transfer};
use std::alloc::Global;
use syn_base::OutOfMemory;

/// For each buffer and each of `width` sequences, whether the sequence reads the buffer, and whether it
/// writes it. The mark of a buffer and a sequence stands at `width` times the buffer, plus the sequence.
#[derive(Drop)]
pub struct Touched {
    pub width: u32,
    pub reads: Vec<bool>,
    pub writes: Vec<bool>,
}

/// The place of the mark of a buffer and a sequence.
fn place_of(width: u32, buffer: u32, sequence: u32) -> usize
    ensures { result ≡ buffer * width + sequence }
{
    buffer as usize * width as usize + sequence as usize
}

/// Puts a mark, if its place is there.
fn put_mark(marks: &mut [bool], at: usize)
    ensures { marks.new ≡ slice_set marks.old at true }
{
    if at < marks.len() {
        marks[at] = true;
    }
}

/// Puts the mark of a buffer and a sequence, if both are there.
fn put(marks: &mut [bool], width: u32, sequence: u32, buffer: u32)
    ensures { marks.new ≡ put_in width marks.old sequence buffer }
{
    if sequence < width {
        put_mark(marks, place_of(width, buffer, sequence));
    }
}

/// Puts the marks of these buffers and a sequence.
fn put_all(marks: &mut [bool], width: u32, sequence: u32, buffers: &[u32])
    ensures { Puts width marks.old marks.new
        (λ b s. nat_eq sequence s && list_any (λ c. nat_eq c b) buffers.now) }
{
    for buffer in buffers {
        put(marks, width, sequence, *buffer);
    }
}

/// As many places without a mark.
fn no_marks(alloc: Global, width: u32, buffers: u32) -> Result<Vec<bool>, OutOfMemory>
    ensures { IfOk result (λ marks. marks.items ≡ replicate (buffers * width) false) }
{
    let size = place_of(width, buffers, 0);
    Ok(vec![in alloc; false; size]?)
}

/// Whether a place has a mark.
fn is_put(marks: &[bool], at: usize) -> bool
    ensures { result ≡ slice_index_or marks.now at false }
{
    at < marks.len() && marks[at]
}

impl Touched {
    /// Nothing is read or written so far.
    fn new(alloc: Global, width: u32, buffers: u32) -> Result<Touched, OutOfMemory>
        ensures width { IfOk result (λ x. x.width ≡ width) }
        ensures reads { IfOk result (λ x. x.reads.items ≡ replicate (buffers * width) false) }
        ensures writes { IfOk result (λ x. x.writes.items ≡ replicate (buffers * width) false) }
    {
        Ok(Touched {
            width,
            reads: no_marks(alloc, width, buffers)?,
            writes: no_marks(alloc, width, buffers)?,
        })
    }

    /// What a transfer reads and writes.
    fn carry(&mut self, site: &Site<'_>, transfer: &Transfer) -> Result<(), OutOfMemory>
        ensures { OnOk result (Notes self.old self.new (steps_at site.now (carry transfer.now))) }
    {
        let sender = site.sequence(transfer.from, Some(transfer.medium))?;
        let receiver = site.sequence(transfer.to, Some(transfer.medium))?;
        let sent = site.buffer(transfer.from, transfer.source);
        let received = site.buffer(transfer.to, transfer.source);
        put(&mut self.reads, self.width, sender, sent);
        put(&mut self.writes, self.width, receiver, received);
        Ok(())
    }

    /// What transfers read and write.
    fn carry_all(&mut self, site: &Site<'_>, transfers: &[Transfer]) -> Result<(), OutOfMemory>
        ensures { OnOk result (Notes self.old self.new
            (flat_map (steps_at site.now) (map carry transfers.now))) }
    {
        for transfer in transfers {
            self.carry(site, transfer)?;
        }
        Ok(())
    }

    /// What the run of an operation reads and writes.
    fn run(
        &mut self,
        alloc: Global,
        site: &Site<'_>,
        decision: &Decision,
    ) -> Result<(), OutOfMemory>
        ensures { OnOk result (Notes self.old self.new (steps_at site.now (run decision.now))) }
    {
        let sequence = site.sequence(decision.operator, None)?;
        let ins = site.ins(alloc, decision)?;
        let outs = site.outs(alloc, decision)?;
        put_all(&mut self.reads, self.width, sequence, ins.as_slice());
        put_all(&mut self.writes, self.width, sequence, outs.as_slice());
        Ok(())
    }

    /// What a decision reads and writes.
    fn take(
        &mut self,
        alloc: Global,
        site: &Site<'_>,
        decision: &Decision,
    ) -> Result<(), OutOfMemory>
        ensures { OnOk result (Notes self.old self.new
            (flat_map (steps_at site.now) (acts_of (decision.now ∷ [])))) }
    {
        self.carry_all(site, decision.transfers.as_slice())?;
        self.run(alloc, site, decision)?;
        Ok(())
    }

    /// What these decisions read and write, in this many sequences.
    fn of(
        alloc: Global,
        site: &Site<'_>,
        width: u32,
        decisions: &[Decision],
    ) -> Result<Touched, OutOfMemory>
        ensures { IfOk result (IsNoted width site.now.copies
            (flat_map (steps_at site.now) (acts_of decisions.now))) }
    {
        let mut touched = Touched::new(alloc, width, site.copies)?;
        for decision in decisions {
            touched.take(alloc, site, decision)?;
        }
        Ok(touched)
    }

    /// Whether a sequence reads a buffer and does not write it.
    fn waits(&self, buffer: u32, sequence: u32) -> bool
        ensures { result ≡ waits self.now buffer sequence }
    {
        let at = place_of(self.width, buffer, sequence);
        is_put(&self.reads, at) && !is_put(&self.writes, at)
    }

    /// How many sequences read a buffer and do not write it.
    fn readers(&self, buffer: u32) -> u32
        ensures { result ≡ readers_of self.now buffer }
    {
        let mut count = 0;
        for sequence in 0..self.width {
            if self.waits(buffer, sequence) {
                count += 1;
            }
        }
        count
    }
}

/// How many sequences read each buffer and do not write it, where there are `width` sequences.
pub fn reader_counts(
    alloc: Global,
    site: &Site<'_>,
    width: u32,
    decisions: &[Decision],
) -> Result<Vec<u32>, OutOfMemory>
    ensures { IfOk result (λ counts. Counts width site.now.copies
        (flat_map (steps_at site.now) (acts_of decisions.now)) counts.items) }
{
    let touched = Touched::of(alloc, site, width, decisions)?;
    let mut counts = Vec::new(alloc);
    for buffer in 0..site.copies {
        counts.push(touched.readers(buffer))?;
    }
    Ok(counts)
}
