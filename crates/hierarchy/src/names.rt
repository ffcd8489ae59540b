//! The names of operations: the texts of their paths. `inlining` and `operation` call it.
ghost use Rattle.std.specs.Prelude.{◌≡◌, ◌++◌, IfOk};
ghost use Rattle.flat_laws.specs.Names.{stage_text as text_of_stage};
ghost use Rattle.hierarchy.specs.Texts.{joined as text_joined};

use algo_tree::Part;
use itoa::Buffer;
use std::alloc::Global;
use syn_base::OutOfMemory;

/// Three texts, one after another.
pub fn glued(
    alloc: Global,
    first: &[u8],
    second: &[u8],
    third: &[u8],
) -> Result<Vec<u8>, OutOfMemory>
    ensures { IfOk result (λ text. text.items ≡ first.now ++ (second.now ++ third.now)) }
{
    let len = first.len().saturating_add(second.len());
    let mut text = Vec::with_capacity(alloc, len.saturating_add(third.len()))?;
    text.extend_from_slice(first)?;
    text.extend_from_slice(second)?;
    text.extend_from_slice(third)?;
    Ok(text)
}

/// The text of a path with one more part.
pub fn joined(alloc: Global, path: &[u8], part: &Part) -> Result<Vec<u8>, OutOfMemory>
    ensures { IfOk result (λ text. text.items ≡ text_joined path.now part.now) }
{
    match part {
        Part::Named(name) if path.is_empty() => Ok(Vec::from_slice(alloc, name.as_slice())?),
        Part::Named(name) => glued(alloc, path, b"/", name.as_slice()),
        Part::Numbered(number) => {
            let mut buffer = Buffer::new();
            glued(alloc, path, b".", buffer.format(*number).as_bytes())
        }
        Part::Port(name) => glued(alloc, path, b":", name.as_slice()),
    }
}

/// What stands after the name of a half of a delay: the number of its stage, or nothing for stage 0.
pub fn stage_text(alloc: Global, number: u32) -> Result<Vec<u8>, OutOfMemory>
    ensures { IfOk result (λ text. text.items ≡ text_of_stage number) }
{
    if number == 0 {
        return Ok(Vec::new(alloc));
    }
    let mut buffer = Buffer::new();
    glued(alloc, b"", b".", buffer.format(number).as_bytes())
}
