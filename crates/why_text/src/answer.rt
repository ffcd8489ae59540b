//! The whole answer to why macro-code is refused.
ghost use Rattle.std.specs.Prelude.{◌≡◌, ◌++◌, OnErr, OnOk};
ghost use Rattle.why_text.specs.Text.{answer_text, setting};

use crate::lines::find_lines;
use crate::text::Setting;
use check_places::Why;
use executive_program::{Archi, Flat, Program};
use std::alloc::Global;
use syn_base::{OutOfMemory, append};

/// What is asked about: macro-code and its program, for a flat graph and an architecture.
#[derive(Clone, Copy)]
pub struct Asked<'a> {
    pub code: &'a [u8],
    pub program: &'a Program,
    pub flat: &'a Flat,
    pub archi: &'a Archi,
}

/// Appends why macro-code is refused, or that it is not. After want of memory `out` is as before.
pub fn print_answer(
    alloc: Global,
    asked: &Asked,
    why: &Option<Why>,
    out: &mut Vec<u8>,
) -> Result<(), OutOfMemory>
    ensures text { OnOk result (out.new.items ≡ out.old.items ++ answer_text (setting asked.now.code.now
        asked.now.flat.now asked.now.archi.now asked.now.program.now) why.now) }
    ensures err { OnErr result (out.new.items ≡ out.old.items) }
{
    let expected = asked.archi.sequences(alloc)?;
    let lines = find_lines(alloc, asked.code)?;
    let setting = Setting {
        program: asked.program,
        vertices: asked.flat.vertices(),
        operators: asked.archi.operators(),
        media: asked.archi.media(),
        expected: expected.as_slice(),
        lines: lines.as_slice(),
    };
    let mut text = Vec::new(alloc);
    setting.append_answer(&mut text, why)?;
    append(out, text.as_slice())
}
