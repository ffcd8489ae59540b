//! The check of a text as a whole, after its last line. `read_archi` ends with it.
ghost use Rattle.std.specs.Prelude.{◌≡◌, ◌<◌, not, true, length, position, IfSome, OnOk};
ghost use Rattle.archi_defs.specs.Archi.{is_archi};
ghost use Rattle.archi_defs.specs.declared.fault.ArchiCause.TheVariants.{BadMedium, Disconnected};
ghost use Rattle.archi_defs.specs.Text.{whole, has_stands};
ghost use Rattle.archi_reader.specs.Given.{Checks, Gives};
ghost use Rattle.text_lines.specs.Refusals.{IsStop, refusal};
ghost use Rattle.archi_reader.specs.Views.{reading, IsSound};

use crate::fault::bad_line;
use crate::joined::apart;
use crate::reader::Reader;
use archi_defs::{Archi, ArchiCause, ArchiError, ArchiText, Medium};
use std::alloc::Global;
use syn_base::Name;
use text_lines::refused_at;

/// This many operators as its kind asks for stand at the medium.
fn has_stands(medium: &Medium) -> bool
    ensures { result ≡ has_stands medium.now }
{
    medium.kind.may_have(medium.stands.as_slice().len())
}

/// The refusal of a medium at which too few operators stand, or too many, at its line.
fn bad_medium(alloc: Global, line: u32, name: &Name) -> ArchiError
    ensures { IsStop result (refusal line (BadMedium name.now)) }
{
    match name.copy(alloc) {
        Ok(name) => refused_at(line, ArchiCause::BadMedium(name)),
        Err(_) => ArchiError::OutOfMemory,
    }
}

/// The refusal of two operators that no route joins.
fn disconnected(alloc: Global, first: &Name, other: &Name) -> ArchiError
    ensures { IsStop result (refusal 0 (Disconnected first.now other.now)) }
{
    match (first.copy(alloc), other.copy(alloc)) {
        (Ok(first), Ok(other)) => refused_at(0, ArchiCause::Disconnected(first, other)),
        _ => ArchiError::OutOfMemory,
    }
}

/// The place of the first medium with a wrong number of operators.
fn wrong_medium(media: &[Medium]) -> Option<usize>
    ensures place { result ≡ position (λ m. not (has_stands m)) media.now }
    ensures within { IfSome result (λ k. k < length media.now) }
{
    media.iter().position(|medium| !has_stands(medium))
}

impl<'a> Reader<'a> {
    /// The version of the text. There is one, there is an operator, the media are right, and all operators
    /// are joined.
    fn check_whole(&self, alloc: Global, number: u32) -> Result<u32, ArchiError>
        requires { IsSound (reading self.now) }
        ensures told { Checks result (reading self.now) (whole (reading self.now) number) }
        ensures valid { OnOk result (is_archi self.now.operators.items self.now.media.items ≡ true) }
    {
        let operators = self.operators.as_slice();
        let media = self.media.as_slice();
        let Some(version) = self.version else {
            return Err(bad_line(number));
        };
        if operators.is_empty() {
            return Err(refused_at(0, ArchiCause::NoOperator));
        }
        if let Some(wrong) = wrong_medium(media) {
            return Err(bad_medium(alloc, self.lines[wrong], &media[wrong].name));
        }
        if let Some(other) = apart(operators.len(), media) {
            return Err(disconnected(alloc, &operators[0], &operators[other]));
        }
        Ok(version)
    }

    /// The architecture and the durations, at the end of the text.
    pub fn whole(self, alloc: Global, number: u32) -> Result<ArchiText, ArchiError>
        requires { IsSound (reading self) }
        ensures { Gives result (whole (reading self.entry) number) }
    {
        let version = self.check_whole(alloc, number)?;
        let depth = self.depth.unwrap_or(1);
        Ok(ArchiText {
            version,
            archi: Archi::with_depth(self.operators, self.media, depth),
            lines: self.durations.into_items(),
        })
    }
}
