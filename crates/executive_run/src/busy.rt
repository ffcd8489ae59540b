//! Which sequences have something to do: in how many groups that takes they are driven, and by how many workers.
ghost use Rattle.std.specs.Prelude.{◌≡◌, ℕ, ◌<◌, ◌≤◌, true, false, length, count_by};
ghost use Rattle.executive_run.specs.Sharing.{KeepsApart, is_busy, is_busy_at, meet};

use executive_program::SeqCode;

/// Whether a sequence has an instruction.
fn is_busy(seq: &SeqCode) -> bool
    ensures { result ≡ is_busy seq.now }
{
    !seq.prologue.as_slice().is_empty() || !seq.turn.as_slice().is_empty()
}

/// How many sequences have an instruction.
pub fn busy_count(seqs: &[SeqCode]) -> usize
    ensures { result ≡ count_by is_busy seqs.now }
{
    seqs.iter().filter(|seq| is_busy(seq)).count()
}

/// Whether there is a sequence of this number, and it has an instruction.
fn is_busy_at(seqs: &[SeqCode], number: usize) -> bool
    ensures { result ≡ is_busy_at seqs.now number }
{
    match seqs.get(number) {
        Some(seq) => is_busy(seq),
        None => false,
    }
}

/// Whether two sequences with an instruction are in one of so few groups, but in two of so many.
fn meet(seqs: &[SeqCode], few: u32, many: u32, s: usize, t: usize) -> bool
    requires { (0 < few) × (0 < many) }
    ensures { result ≡ meet seqs.now few many s t }
{
    is_busy_at(seqs, s)
        && is_busy_at(seqs, t)
        && s % few as usize == t % few as usize
        && s % many as usize != t % many as usize
}

/// Whether so few groups keep a sequence apart from all from which so many do.
fn is_apart(seqs: &[SeqCode], few: u32, many: u32, s: usize) -> bool
    requires { (0 < few) × (0 < many) }
    ensures { result ≡ true → (t : ℕ) → t < length seqs.now → meet seqs.now few many s t ≡ false }
{
    for t in 0..seqs.len() {
        if meet(seqs, few, many, s, t) {
            return false;
        }
    }
    true
}

/// Whether so few groups keep all sequences apart that so many do.
fn keeps_apart(seqs: &[SeqCode], few: u32, many: u32) -> bool
    requires { (0 < few) × (0 < many) }
    ensures { result ≡ true → KeepsApart seqs.now few many }
{
    for s in 0..seqs.len() {
        if !is_apart(seqs, few, many, s) {
            return false;
        }
    }
    true
}

/// In how many groups sequences are driven by this many workers: in as few as keep apart what as many groups as
/// workers do.
#[tactic(auto, using(crate::proofs::KeptApart::same_apart))]
pub fn groups_for(seqs: &[SeqCode], workers: u32) -> u32
    requires { 1 ≤ workers }
    ensures some { 1 ≤ result }
    ensures few { result ≤ workers }
    ensures apart { KeepsApart seqs.now result workers }
{
    for groups in 1..workers {
        if keeps_apart(seqs, groups, workers) {
            return groups;
        }
    }
    workers
}
