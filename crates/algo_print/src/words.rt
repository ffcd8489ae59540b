//! The printer of a word, and of a short line, which the others call.
ghost use Rattle.std.specs.Prelude.{◌≡◌, ◌++◌, ◌∷◌, [], OnOk};
ghost use Rattle.std.specs.Fmt.{signed_decimal};
ghost use Rattle.algo_print.specs.Canonical.{line_of};
ghost use Rattle.text_lines.specs.Text.{count_text};

use syn_base::{OutOfMemory, print_int};

/// Appends bytes.
pub(crate) fn put(bytes: &[u8], text: &mut Vec<u8>) -> Result<(), OutOfMemory>
    ensures { OnOk result (text.new.items ≡ text.old.items ++ bytes.now) }
{
    text.extend_from_slice(bytes)?;
    Ok(())
}

/// Appends a space and a word.
pub(crate) fn put_word(word: &[u8], text: &mut Vec<u8>) -> Result<(), OutOfMemory>
    ensures { OnOk result (text.new.items ≡ text.old.items ++ 32 ∷ word.now) }
{
    put(b" ", text)?;
    put(word, text)
}

/// Appends a space and a number.
pub(crate) fn put_number(number: i64, text: &mut Vec<u8>) -> Result<(), OutOfMemory>
    ensures { OnOk result (text.new.items ≡ text.old.items ++ 32 ∷ signed_decimal number) }
{
    put(b" ", text)?;
    print_int(number, text)
}

/// Appends a space and a length or a number of copies.
pub(crate) fn put_count(number: u32, text: &mut Vec<u8>) -> Result<(), OutOfMemory>
    ensures { OnOk result (text.new.items ≡ text.old.items ++ 32 ∷ count_text number) }
{
    put_number(i64::from(number), text)
}

/// Appends the line of a key and a name.
pub(crate) fn print_named(key: &[u8], name: &[u8], text: &mut Vec<u8>) -> Result<(), OutOfMemory>
    ensures { OnOk result (text.new.items ≡ text.old.items ++ line_of (key.now ∷ name.now ∷ [])) }
{
    put(key, text)?;
    put_word(name, text)?;
    put(b"\n", text)
}

/// Appends the line of a key and two names.
pub(crate) fn print_pair(
    key: &[u8],
    first: &[u8],
    second: &[u8],
    text: &mut Vec<u8>,
) -> Result<(), OutOfMemory>
    ensures { OnOk result (text.new.items ≡ text.old.items ++ line_of (key.now ∷ first.now ∷ second.now ∷ [])) }
{
    put(key, text)?;
    put_word(first, text)?;
    put_word(second, text)?;
    put(b"\n", text)
}

/// Appends the line of a key, a name and a length.
pub(crate) fn print_sized(
    key: &[u8],
    name: &[u8],
    len: u32,
    text: &mut Vec<u8>,
) -> Result<(), OutOfMemory>
    ensures { OnOk result (text.new.items ≡ text.old.items ++ line_of (key.now ∷ name.now ∷ count_text len ∷ [])) }
{
    put(key, text)?;
    put_word(name, text)?;
    put_count(len, text)?;
    put(b"\n", text)
}
