//! The lists in a line, joined by commas. `line` calls it.
ghost use Rattle.std.specs.Prelude.{◌≡◌, ◌++◌, ℕ, List, OnOk, map};
ghost use Rattle.std.specs.Fmt.{decimal};
ghost use Rattle.flat_text.specs.Listing.{comma_list, guard_text, source_text};
ghost use Rattle.syn_base.specs.Bytes.{each_after_comma};

use flat_graph::{Guard, Source};
use syn_base::{OutOfMemory, append, append_count};

/// What stands in a list of a line.
pub trait Entry {
    ghost shown: { Self → List ℕ };

    /// Appends its text.
    fn append_to(&self, out: &mut Vec<u8>) -> Result<(), OutOfMemory>
        ensures { OnOk result (out.new.items ≡ out.old.items ++ shown self.now) };
}

impl Entry for Source {
    ghost shown = { source_text };

    fn append_to(&self, out: &mut Vec<u8>) -> Result<(), OutOfMemory> {
        append_count(out, self.vertex as usize)?;
        append(out, b".")?;
        append_count(out, self.port as usize)
    }
}

impl Entry for Guard {
    ghost shown = { guard_text };

    fn append_to(&self, out: &mut Vec<u8>) -> Result<(), OutOfMemory> {
        self.source.append_to(out)?;
        append(out, b"?")?;
        append_count(out, self.case as usize)
    }
}

/// A length.
impl Entry for u32 {
    ghost shown = { decimal };

    fn append_to(&self, out: &mut Vec<u8>) -> Result<(), OutOfMemory> {
        append_count(out, *self as usize)
    }
}

/// Appends the entries, joined by commas, or `-` where there is none.
pub fn append_list<T: Entry>(out: &mut Vec<u8>, entries: &[T]) -> Result<(), OutOfMemory>
    ensures { OnOk result (out.new.items ≡ out.old.items ++ comma_list (map T.shown entries.now)) }
{
    match entries.split_first() {
        None => append(out, b"-"),
        Some((first, others)) => {
            first.append_to(out)?;
            append_each_after_comma(out, others)
        }
    }
}

/// Appends each entry after a comma.
fn append_each_after_comma<T: Entry>(out: &mut Vec<u8>, entries: &[T]) -> Result<(), OutOfMemory>
    ensures { OnOk result (out.new.items ≡ out.old.items ++ each_after_comma (map T.shown entries.now)) }
{
    for entry in entries {
        append(out, b",")?;
        entry.append_to(out)?;
    }
    Ok(())
}
