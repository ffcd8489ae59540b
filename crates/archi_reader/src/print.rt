//! The canonical text, printed for the command `check`.
ghost use Rattle.std.specs.Prelude.{◌≡◌, ◌++◌, [], ◌∷◌, OnOk, OnErr, IfOk, map};
ghost use Rattle.std.specs.List.{flat_map};
ghost use Rattle.archi_defs.specs.Archi.{operator_name};
ghost use Rattle.archi_defs.specs.Text.{described_by};
ghost use Rattle.archi_reader.specs.Canonical.{canonical_text, joined, text_of, depth_lines, opening_lines, operator_words, version_word, kind_word, medium_words, connect_words, connections_of, duration_words};
ghost use Rattle.text_lines.specs.Text.{count_text};

use archi_defs::{ArchiText, DurationLine, Medium, MediumKind};
use std::alloc::Global;
use syn_base::{Name, OutOfMemory, print_int};

/// Appends the canonical text: the version line, in version 2 the depth, operators, media,
/// connections by medium and then by operator, durations as given; words separated by one space,
/// numbers in their shortest form. It has no comments and no lines without words. After want of
/// memory `out` is as before.
pub fn print_archi(alloc: Global, text: &ArchiText, out: &mut Vec<u8>) -> Result<(), OutOfMemory>
    ensures ok { OnOk result (out.new.items ≡ out.old.items ++ canonical_text (described_by text.now)) }
    ensures err { OnErr result (out.new.items ≡ out.old.items) }
{
    let written = canonical_bytes(alloc, text)?;
    out.extend_from_slice(&written)?;
    Ok(())
}

/// The canonical text by itself, so that `out` is changed only once all of the text is there.
#[tactic(auto, using(crate::proofs::Texts::text_of_parts))]
fn canonical_bytes(alloc: Global, text: &ArchiText) -> Result<Vec<u8>, OutOfMemory>
    ensures { IfOk result (λ v. v.items ≡ canonical_text (described_by text.now)) }
{
    let operators = text.archi.operators();
    let media = text.archi.media();
    let mut written = Vec::new(alloc);
    print_opening(text.version, text.archi.depth(), &mut written)?;
    print_operators(operators, &mut written)?;
    print_media(media, &mut written)?;
    print_connections(operators, media, &mut written)?;
    print_durations(operators, text.lines.as_slice(), &mut written)?;
    Ok(written)
}

/// The number of a version: 1, or else 2.
fn version_word(version: u32) -> &'static [u8]
    ensures { result.now ≡ version_word version }
{
    if version == 1 { b"1" } else { b"2" }
}

/// Appends the lines of the version and of the depth.
fn print_opening(version: u32, depth: u32, text: &mut Vec<u8>) -> Result<(), OutOfMemory>
    ensures { OnOk result (text.new.items ≡ text.old.items ++ text_of (opening_lines version depth)) }
{
    put(b"architecture ", text)?;
    put(version_word(version), text)?;
    put(b"\n", text)?;
    print_depth(version, depth, text)
}

/// Appends the line of the depth, which a text of version 1 does not have.
fn print_depth(version: u32, depth: u32, text: &mut Vec<u8>) -> Result<(), OutOfMemory>
    ensures { OnOk result (text.new.items ≡ text.old.items ++ text_of (depth_lines version depth)) }
{
    if version == 1 {
        return Ok(());
    }
    put(b"depth ", text)?;
    put_number(depth, text)?;
    put(b"\n", text)
}

/// Appends the lines of the operators.
fn print_operators(operators: &[Name], text: &mut Vec<u8>) -> Result<(), OutOfMemory>
    ensures { OnOk result (text.new.items ≡ text.old.items ++ text_of (map operator_words operators.now)) }
{
    for operator in operators {
        print_operator(operator, text)?;
    }
    Ok(())
}

/// Appends the line of an operator.
fn print_operator(operator: &Name, text: &mut Vec<u8>) -> Result<(), OutOfMemory>
    ensures { OnOk result (text.new.items ≡ text.old.items ++ text_of (operator_words operator.now ∷ [])) }
{
    put(b"operator ", text)?;
    put(operator.as_bytes(), text)?;
    put(b"\n", text)
}

/// Appends the lines of the media.
fn print_media(media: &[Medium], text: &mut Vec<u8>) -> Result<(), OutOfMemory>
    ensures { OnOk result (text.new.items ≡ text.old.items ++ text_of (map medium_words media.now)) }
{
    for medium in media {
        print_medium(medium, text)?;
    }
    Ok(())
}

/// The word for the kind of a medium.
fn kind_word(kind: MediumKind) -> &'static [u8]
    ensures { result.now ≡ kind_word kind }
{
    match kind {
        MediumKind::PointToPoint => b"p2p",
        MediumKind::Multipoint => b"multi",
    }
}

/// Appends the line of a medium.
fn print_medium(medium: &Medium, text: &mut Vec<u8>) -> Result<(), OutOfMemory>
    ensures { OnOk result (text.new.items ≡ text.old.items ++ text_of (medium_words medium.now ∷ [])) }
{
    put(b"medium ", text)?;
    put(medium.name.as_bytes(), text)?;
    put(b" ", text)?;
    put(kind_word(medium.kind), text)?;
    put(b" ", text)?;
    put_ticks(medium.fixed, medium.per, text)?;
    put(b"\n", text)
}

/// Appends both numbers of a medium's ticks.
fn put_ticks(fixed: u32, per: u32, text: &mut Vec<u8>) -> Result<(), OutOfMemory>
    ensures { OnOk result (text.new.items ≡ text.old.items ++ joined (count_text fixed ∷ count_text per ∷ [])) }
{
    put_number(fixed, text)?;
    put(b" ", text)?;
    put_number(per, text)
}

/// Appends the lines of all connections, medium by medium.
fn print_connections(
    operators: &[Name],
    media: &[Medium],
    text: &mut Vec<u8>,
) -> Result<(), OutOfMemory>
    ensures { OnOk result (text.new.items ≡ text.old.items ++
        text_of (flat_map (connections_of operators.now) media.now)) }
{
    for medium in media {
        print_connections_of(operators, medium, text)?;
    }
    Ok(())
}

/// Appends the lines of the connections of a medium.
fn print_connections_of(
    operators: &[Name],
    medium: &Medium,
    text: &mut Vec<u8>,
) -> Result<(), OutOfMemory>
    ensures { OnOk result (text.new.items ≡ text.old.items ++ text_of (connections_of operators.now medium.now)) }
{
    print_stands(operators, &medium.name, medium.stands.as_slice(), text)
}

/// Appends a line for each of these operators, which stand at the medium.
fn print_stands(
    operators: &[Name],
    medium: &Name,
    stands: &[u32],
    text: &mut Vec<u8>,
) -> Result<(), OutOfMemory>
    ensures { OnOk result (text.new.items ≡ text.old.items ++
        text_of (map (connect_words operators.now medium.now) stands.now)) }
{
    for operator in stands {
        print_connection(operators, medium, *operator, text)?;
    }
    Ok(())
}

/// The name of an operator, nothing where there is none of this number.
fn name_at(operators: &[Name], operator: u32) -> &[u8]
    ensures { result.now ≡ operator_name operators.now operator }
{
    let at = operator as usize;
    if at < operators.len() {
        operators[at].as_bytes()
    } else {
        &[]
    }
}

/// Appends the line of a connection.
fn print_connection(
    operators: &[Name],
    medium: &Name,
    operator: u32,
    text: &mut Vec<u8>,
) -> Result<(), OutOfMemory>
    ensures { OnOk result (text.new.items ≡ text.old.items ++
        text_of (connect_words operators.now medium.now operator ∷ [])) }
{
    put(b"connect ", text)?;
    put(medium.as_bytes(), text)?;
    put(b" ", text)?;
    put(name_at(operators, operator), text)?;
    put(b"\n", text)
}

/// Appends the lines of the durations, in the order in which they were given.
fn print_durations(
    operators: &[Name],
    durations: &[DurationLine],
    text: &mut Vec<u8>,
) -> Result<(), OutOfMemory>
    ensures { OnOk result (text.new.items ≡ text.old.items ++
        text_of (map (duration_words operators.now) durations.now)) }
{
    for duration in durations {
        print_duration(operators, duration, text)?;
    }
    Ok(())
}

/// Appends the line of a duration.
fn print_duration(
    operators: &[Name],
    duration: &DurationLine,
    text: &mut Vec<u8>,
) -> Result<(), OutOfMemory>
    ensures { OnOk result (text.new.items ≡ text.old.items ++
        text_of (duration_words operators.now duration.now ∷ [])) }
{
    put(b"duration ", text)?;
    put(duration.def.as_bytes(), text)?;
    put(b" ", text)?;
    put(name_at(operators, duration.operator), text)?;
    put(b" ", text)?;
    put_number(duration.ticks, text)?;
    put(b"\n", text)
}

/// Appends a number in its shortest form.
fn put_number(value: u32, text: &mut Vec<u8>) -> Result<(), OutOfMemory>
    ensures { OnOk result (text.new.items ≡ text.old.items ++ count_text value) }
{
    print_int(i64::from(value), text)
}

/// Appends bytes.
fn put(bytes: &[u8], text: &mut Vec<u8>) -> Result<(), OutOfMemory>
    ensures { OnOk result (text.new.items ≡ text.old.items ++ bytes.now) }
{
    text.extend_from_slice(bytes)?;
    Ok(())
}
