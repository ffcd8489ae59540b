//! Lines that are appended to a text, for all three texts of a load.
ghost use Rattle.std.specs.Prelude.{◌≡◌, ◌++◌, OnOk, map};
ghost use Rattle.load_texts.specs.Lines.{lines_text};

use syn_base::{OutOfMemory, append};

/// Appends these lines, each with a line feed after it.
pub fn append_lines(out: &mut Vec<u8>, lines: &[&str]) -> Result<(), OutOfMemory>
    ensures { OnOk result (out.new.items ≡ out.old.items ++ lines_text (map (λ l. l.now) lines.now)) }
{
    for line in lines {
        append(out, line.as_bytes())?;
        append(out, b"\n")?;
    }
    Ok(())
}
