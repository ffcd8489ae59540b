//! The laws of what the canonical text keeps.
ghost use Rattle.std.specs.Prelude.{◌≡◌, ◌≤◌, Ok, length, map};
ghost use Rattle.text_lines.specs.Text.{lines_of};
ghost use Rattle.syn_base.specs.Bytes.{Bytes};
ghost use Rattle.algo_text.specs.Text.{definitions_of};
ghost use Rattle.algo_text.specs.declared.definition.Defs.{Defs};
ghost use Rattle.algo_print.specs.Canonical.{canonical_text, ArePrintable};
ghost use Rattle.algo_print.specs.ReadBack.{Says, bare};

/// What a text says can be printed, and its canonical text says the same definitions in the same version, at
/// the lines where they stand there. It has at most as many lines.
pub fn canonical_text_reads_back()
    ensures printable { (text : Bytes) (defs : Defs) → definitions_of text ≡ Ok defs → ArePrintable defs.defs }
    ensures back { (text : Bytes) (defs : Defs) → definitions_of text ≡ Ok defs → Says (canonical_text defs) defs }
    ensures lines { (text : Bytes) (defs : Defs) → definitions_of text ≡ Ok defs →
        length (lines_of (canonical_text defs)) ≤ length (lines_of text) }
{}

/// The canonical text does not depend on the numbers of lines, so that the canonical text of what a
/// canonical text says is that text.
pub fn lines_do_not_matter()
    ensures { (defs others : Defs) → defs.version ≡ others.version →
        map bare defs.defs ≡ map bare others.defs → canonical_text defs ≡ canonical_text others }
{}
