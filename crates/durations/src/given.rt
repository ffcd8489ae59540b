//! The durations of a text, found by the hash of their definition. The table is made from them, and
//! `actual_durations` asks them without a table.
ghost use Rattle.std.specs.Prelude.{◌≡◌, ℕ, ◌<◌, [], length, slice_index_or, Some, None, if◌then◌else◌, IfOk, OnOk};
ghost use Rattle.std.specs.Str.{bytes_eq};
ghost use Rattle.syn_base.specs.Bytes.{Bytes};
ghost use Rattle.durations.specs.Lines.{ticks_of, is_given, AreDurations};
ghost use Rattle.durations.specs.Given.{first_of, ticks_at, AreFound};

use archi_defs::DurationLine;
use indexmap::IndexMap;
use std::alloc::Global;
use std::marker::Model;
use syn_base::OutOfMemory;
use text_lines::TableKey;

/// The definitions that have a duration on one operator, with their ticks.
#[derive(Drop)]
struct OnOperator<'a> {
    ticks: IndexMap<&'a [u8], u64, TableKey>,
}

impl<'a> Model for OnOperator<'a> {
    ghost use Rattle.std.specs.Prelude.{ℕ, List, map};
    ghost use Rattle.syn_base.specs.Bytes.{Bytes};

    ghost Value = { List (Bytes × ℕ) };

    ghost view = { λ s. map (λ e. (e.0.now, e.1)) s.ticks.entries };
}

impl<'a> OnOperator<'a> {
    /// No definitions, which are to be hashed by this key. It takes no memory.
    fn new(alloc: Global, key: TableKey) -> OnOperator<'a>
        ensures { result ≡ [] }
    {
        OnOperator {
            ticks: IndexMap::with_hasher(alloc, key),
        }
    }

    /// The ticks of a definition. It takes no memory.
    fn find(&self, def: &[u8]) -> Option<u64>
        ensures { result ≡ ticks_at self.now def.now }
    {
        self.ticks.get(def).copied()
    }

    /// Gives a definition these ticks, unless it has some.
    fn add(&mut self, def: &'a [u8], ticks: u64) -> Result<(), OutOfMemory>
        ensures { OnOk result ((other : Bytes) →
            ticks_at self.new other ≡ first_of (ticks_at self.old other)
            (if bytes_eq def.now other then Some ticks else None)) }
    {
        if self.ticks.get(def).is_none() {
            self.ticks.insert(def, ticks)?;
        }
        Ok(())
    }
}

/// The durations of a text for this many operators. One is found in the time of its definition's name.
/// Contracts see the lines, and how many operators there are.
#[derive(Drop)]
pub struct Given<'a> {
    operators: u32,
    lines: &'a [DurationLine],
    found: Vec<OnOperator<'a>>,
}

impl<'a> Model for Given<'a> {
    ghost use Rattle.durations.specs.Given.{Lines, AreFound};

    ghost Value = { Lines };

    ghost view = { λ s. record { operators = s.operators; lines = s.lines.now } };

    ghost invariant = { λ s. AreFound s.operators s.found.items s.lines.now };
}

impl<'a> Given<'a> {
    /// The durations of these lines.
    pub fn new(
        alloc: Global,
        operators: u32,
        lines: &'a [DurationLine],
    ) -> Result<Given<'a>, OutOfMemory>
        requires { AreDurations operators lines.now }
        ensures { IfOk result (λ g. g ≡ record { operators = operators; lines = lines.now }) }
    {
        let key = TableKey::of_names(lines.iter().map(|line| line.def.as_bytes()));
        let mut found = no_durations(alloc, operators, key)?;
        for line in lines {
            let ticks = u64::from(line.ticks);
            found[line.operator as usize].add(line.def.as_bytes(), ticks)?;
        }
        Ok(Given {
            operators,
            lines,
            found,
        })
    }

    /// How many operators there are.
    pub fn operators(&self) -> u32
        ensures count { result ≡ self.now.operators }
        ensures known { AreDurations self.now.operators self.now.lines }
    {
        self.operators
    }

    /// The ticks of a definition on an operator. It takes no memory.
    pub fn ticks(&self, def: &[u8], operator: u32) -> Option<u64>
        requires { operator < self.now.operators }
        ensures { result ≡ ticks_of self.now.lines def.now operator }
    {
        self.found[operator as usize].find(def)
    }

    /// Whether the definition has a duration on some operator. It takes no memory.
    pub fn has(&self, def: &[u8]) -> bool
        ensures { result ≡ is_given self.now.lines def.now }
    {
        for operator in 0..self.operators {
            if self.ticks(def, operator).is_some() {
                return true;
            }
        }
        false
    }
}

/// For each of this many operators, no definitions so far.
fn no_durations<'a>(
    alloc: Global,
    operators: u32,
    key: TableKey,
) -> Result<Vec<OnOperator<'a>>, OutOfMemory>
    ensures length { IfOk result (λ v. length v.items ≡ operators) }
    ensures empty { IfOk result (λ v. (o : ℕ) → slice_index_or v.items o [] ≡ []) }
{
    let mut found = Vec::new(alloc);
    for _ in 0..operators {
        found.push(OnOperator::new(alloc, key))?;
    }
    Ok(found)
}
