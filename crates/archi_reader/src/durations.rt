//! The durations of a text while it is read, each definition and operator once. `reader` adds them
//! line by line.
ghost use Rattle.std.specs.Prelude.{◌≡◌, ◌<◌, []};
ghost use Rattle.syn_base.specs.Limits.{bound_of};
ghost use Rattle.syn_base.specs.declared.limits.LimitKind.TheVariants.{Operators};
ghost use Rattle.text_lines.specs.Refusals.{Adds, Has};
ghost use Rattle.archi_reader.specs.Durations.{is_given, AreGiven};

use archi_defs::{ArchiError, DurationLine};
use std::alloc::Global;
use std::marker::Model;
use syn_base::{Items, Name};
use text_lines::{Names, TableKey};

/// The most operators.
const MOST_OPERATORS: usize = 16;

/// Durations on up to 16 operators, seen as their list. Whether one was given before is found in the
/// time of the definition's name.
#[derive(Drop)]
pub struct Durations<'a> {
    lines: Vec<DurationLine>,
    /// For each operator, the definitions that have a duration on it.
    given: Vec<Names<'a>>,
}

impl<'a> Model for Durations<'a> {
    ghost use Rattle.std.specs.Prelude.{List};
    ghost use Rattle.archi_defs.specs.declared.text.DurationLine.{DurationLine};
    ghost use Rattle.archi_reader.specs.Durations.{AreGiven};

    ghost Value = { List DurationLine };

    ghost view = { λ s. s.lines.items };

    ghost invariant = { λ s. AreGiven s.given.items s.lines.items };
}

impl<'a> Durations<'a> {
    /// No durations. The names are to be hashed by this key.
    pub fn new(alloc: Global, key: TableKey) -> Result<Durations<'a>, ArchiError>
        ensures { Has result [] }
    {
        let mut given = Vec::new(alloc);
        for _operator in 0..MOST_OPERATORS {
            given.push(Names::new(alloc, key))?;
        }
        Ok(Durations {
            lines: Vec::new(alloc),
            given,
        })
    }

    /// A duration of this definition was given on this operator.
    pub fn has(&self, def: &[u8], operator: u32) -> bool
        requires { operator < bound_of Operators }
        ensures { result ≡ is_given self.now def.now operator }
    {
        self.given[operator as usize].find(def).is_some()
    }

    /// Adds a duration at the end. After want of memory the durations are as before.
    pub fn add(
        &mut self,
        def: Name,
        word: &'a [u8],
        operator: u32,
        ticks: u32,
    ) -> Result<(), ArchiError>
        requires same { def ≡ word.now }
        requires known { operator < bound_of Operators }
        ensures { Adds result self.old (record { def = def; operator = operator; ticks = ticks }) self.new }
    {
        let line = DurationLine {
            def,
            operator,
            ticks,
        };
        self.lines.push(line)?;
        match self.given[operator as usize].add(word) {
            Ok(_) => Ok(()),
            Err(_) => {
                self.lines.pop();
                Err(ArchiError::OutOfMemory)
            }
        }
    }

    /// The durations, handed back.
    pub fn into_items(self) -> Items<DurationLine>
        ensures { result ≡ self.entry }
    {
        Items::new(self.lines)
    }
}
