//! The text of findings.
ghost use Rattle.std.specs.Prelude.{◌≡◌, ◌++◌, OnOk, OnErr, codes};
ghost use Rattle.std.specs.Fmt.{signed_decimal};
ghost use Rattle.std.specs.List.{flat_map};
ghost use Rattle.text_lint.specs.Printed.{
  algorithm_head,
  architecture_head,
  element_words,
  finding_head,
  finding_line,
  finding_words,
  findings_text,
  head,
  two_names,
  why_word,
};

use crate::finding::{Finding, Why};
use std::alloc::Global;
use syn_base::{Name, OutOfMemory, append, append_count, print_int};

/// Appends a line for each finding: the text and the line where it stands, what it is, and its names and
/// numbers. After want of memory `out` is as before.
pub fn print_findings(
    alloc: Global,
    findings: &[Finding],
    out: &mut Vec<u8>,
) -> Result<(), OutOfMemory>
    ensures text { OnOk result (out.new.items ≡ out.old.items ++ findings_text findings.now) }
    ensures err { OnErr result (out.new.items ≡ out.old.items) }
{
    let mut text = Vec::new(alloc);
    append_lines(&mut text, findings)?;
    out.extend_from_slice(&text)?;
    Ok(())
}

/// Appends the lines of findings.
fn append_lines(out: &mut Vec<u8>, findings: &[Finding]) -> Result<(), OutOfMemory>
    ensures { OnOk result (out.new.items ≡ out.old.items ++ flat_map finding_line findings.now) }
{
    for finding in findings {
        append_finding(out, finding)?;
    }
    Ok(())
}

/// Appends the line of a finding.
fn append_finding(out: &mut Vec<u8>, finding: &Finding) -> Result<(), OutOfMemory>
    ensures { OnOk result (out.new.items ≡ out.old.items ++ finding_line finding.now) }
{
    append_head(out, finding)?;
    append_words(out, finding)?;
    append(out, b"\n")
}

/// Appends where a finding stands, and what it is.
fn append_head(out: &mut Vec<u8>, finding: &Finding) -> Result<(), OutOfMemory>
    ensures { OnOk result (out.new.items ≡ out.old.items ++ finding_head finding.now) }
{
    match finding {
        Finding::UnusedDefinition { line, .. } => in_algorithm(out, *line, b"L1 UnusedDefinition"),
        Finding::OutsideElement { line, .. } => in_algorithm(out, *line, b"L2 OutsideElement"),
        Finding::NeverTaken { line, .. } => in_algorithm(out, *line, b"L3 NeverTaken"),
        Finding::UnreadDelay { line, .. } => in_algorithm(out, *line, b"L4 UnreadDelay"),
        Finding::IdleDuration { line, .. } => in_architecture(out, *line, b"L5 IdleDuration"),
        Finding::IdleOperator { line, .. } => in_architecture(out, *line, b"L6 IdleOperator"),
    }
}

/// Appends a line of the algorithm's text, and what is found there.
fn in_algorithm(out: &mut Vec<u8>, line: usize, word: &[u8]) -> Result<(), OutOfMemory>
    ensures { OnOk result (out.new.items ≡ out.old.items ++ algorithm_head line word.now) }
{
    append_place(out, b"algorithm line ", line, word)
}

/// Appends a line of the architecture's text, and what is found there.
fn in_architecture(out: &mut Vec<u8>, line: usize, word: &[u8]) -> Result<(), OutOfMemory>
    ensures { OnOk result (out.new.items ≡ out.old.items ++ architecture_head line word.now) }
{
    append_place(out, b"architecture line ", line, word)
}

/// Appends a line of a text, and what is found there.
fn append_place(out: &mut Vec<u8>, text: &[u8], line: usize, word: &[u8]) -> Result<(), OutOfMemory>
    ensures { OnOk result (out.new.items ≡ out.old.items ++ head text.now line word.now) }
{
    append(out, text)?;
    append_count(out, line)?;
    append(out, b": ")?;
    append(out, word)
}

/// Appends the names and numbers of a finding, a space before each.
fn append_words(out: &mut Vec<u8>, finding: &Finding) -> Result<(), OutOfMemory>
    ensures { OnOk result (out.new.items ≡ out.old.items ++ finding_words finding.now) }
{
    match finding {
        Finding::UnusedDefinition { def, .. } => append_name(out, def),
        Finding::OutsideElement {
            def,
            port,
            element,
            len,
            ..
        } => append_element(out, def, port, *element, *len),
        Finding::NeverTaken {
            reference,
            value,
            ..
        } => append_value(out, reference, *value),
        Finding::UnreadDelay { reference, .. } => append_name(out, reference),
        Finding::IdleDuration {
            def,
            operator,
            why,
            ..
        } => append_duration(out, def, operator, *why),
        Finding::IdleOperator { operator, .. } => append_name(out, operator),
    }
}

/// Appends a space and a name.
fn append_name(out: &mut Vec<u8>, name: &Name) -> Result<(), OutOfMemory>
    ensures { OnOk result (out.new.items ≡ out.old.items ++ (codes " " ++ name.now)) }
{
    append(out, b" ")?;
    append(out, name.as_bytes())
}

/// Appends two names, a space before each.
fn append_two(out: &mut Vec<u8>, first: &Name, second: &Name) -> Result<(), OutOfMemory>
    ensures { OnOk result (out.new.items ≡ out.old.items ++ two_names first.now second.now) }
{
    append_name(out, first)?;
    append_name(out, second)
}

/// Appends a reference and the value of a case.
fn append_value(out: &mut Vec<u8>, reference: &Name, value: i64) -> Result<(), OutOfMemory>
    ensures { OnOk result (out.new.items ≡
        out.old.items ++ two_names reference.now (signed_decimal value)) }
{
    append_name(out, reference)?;
    append(out, b" ")?;
    print_int(value, out)
}

/// Appends a function, an element of its input, and how many this has.
fn append_element(
    out: &mut Vec<u8>,
    def: &Name,
    port: &Name,
    element: i64,
    len: u32,
) -> Result<(), OutOfMemory>
    ensures { OnOk result (out.new.items ≡
        out.old.items ++ element_words def.now port.now (signed_decimal element) len) }
{
    append_two(out, def, port)?;
    append(out, b"[")?;
    print_int(element, out)?;
    append(out, b"] ")?;
    append_count(out, len as usize)
}

/// Appends a duration and why it changes nothing.
fn append_duration(
    out: &mut Vec<u8>,
    def: &Name,
    operator: &Name,
    why: Why,
) -> Result<(), OutOfMemory>
    ensures { OnOk result (out.new.items ≡
        out.old.items ++ (two_names def.now operator.now ++ why_word why)) }
{
    append_two(out, def, operator)?;
    append(out, word_of(why))
}

/// The word for why a duration changes nothing, after a space.
fn word_of(why: Why) -> &'static [u8]
    ensures { result.now ≡ why_word why }
{
    match why {
        Why::Unknown => b" unknown",
        Why::Timeless => b" timeless",
        Why::Unused => b" unused",
    }
}
