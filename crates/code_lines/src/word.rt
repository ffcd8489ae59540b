//! The words of a line, and the names and numbers that they are.
ghost use Rattle.std.specs.Prelude.{◌≡◌, ◌+◌, ◌<◌, ◌≤◌, IfSome, length, drop, position};
ghost use Rattle.std.specs.List.{list_all, position_or_len};
ghost use Rattle.syn_base.specs.Name.{begins_name, is_digit, is_name, is_name_byte};
ghost use Rattle.text_lines.specs.Text.{is_blank, is_foreign, words_of};
ghost use Rattle.macro_code.specs.Forms.{at_least, buffer_in, from_to, number_in};
ghost use Rattle.code_lines.specs.Views.{AreWords, IsClean, IsFirstWord, is_stop};

use syn_base::read_int;

/// The most bytes of a name.
const LONGEST: usize = 32;

/// The words of a line. No line of more than two has a form, so that the words of such a line are not kept.
#[derive(Clone, Copy)]
pub enum LineWords<'a> {
    Blank,
    One(&'a [u8]),
    Two(&'a [u8], &'a [u8]),
    Many,
}

/// The words of a line without comment. It takes no memory.
pub fn words(code: &[u8]) -> LineWords<'_>
    ensures { AreWords result (words_of code.now) }
{
    let Some((first, rest)) = first_word(code) else {
        return LineWords::Blank;
    };
    let Some((second, rest)) = first_word(rest) else {
        return LineWords::One(first);
    };
    match first_word(rest) {
        Some(_) => LineWords::Many,
        None => LineWords::Two(first, second),
    }
}

/// The first word, and what stands after it.
fn first_word(code: &[u8]) -> Option<(&[u8], &[u8])>
    ensures { IsFirstWord result code.now }
{
    let mut from = 0;
    while from < code.len() {
        if !is_blank(code[from]) {
            let to = word_end(code, from);
            return Some((&code[from..to], &code[to..]));
        }
        from += 1;
    }
    None
}

/// The place after the word that begins there: that of the next blank, or the end.
#[tactic(auto, using(text_lines::proofs::Places::found_at, text_lines::proofs::Places::missing_at))]
fn word_end(code: &[u8], from: usize) -> usize
    requires { from ≤ length code.now }
    ensures next { result ≡ from + position_or_len is_blank (drop from code.now) }
    ensures within { result ≤ length code.now }
{
    match blank_in(&code[from..]) {
        Some(n) => from + n,
        None => code.len(),
    }
}

/// The place of the first blank.
fn blank_in(code: &[u8]) -> Option<usize>
    ensures { result ≡ position is_blank code.now }
{
    code.iter().position(|byte| is_blank(*byte))
}

/// Whether a byte separates words.
fn is_blank(byte: u8) -> bool
    ensures { result ≡ is_blank byte }
{
    byte == b'\t' || byte == b'\r' || byte == b' '
}

/// A line up to its comment, unless a byte stands there that may not stand in a line. The line is gone through
/// once for both.
pub fn clean_code(line: &[u8]) -> Option<&[u8]>
    ensures { IsClean result line.now }
{
    match stop_in(line) {
        None => Some(line),
        Some(place) if line[place] == b'#' => Some(&line[..place]),
        Some(_) => None,
    }
}

/// The place of the first byte at which a line stops.
fn stop_in(line: &[u8]) -> Option<usize>
    ensures place { result ≡ position is_stop line.now }
    ensures within { IfSome result (λ k. k < length line.now) }
{
    line.iter().position(|byte| is_stop(*byte))
}

/// A comment begins, or the byte may not stand in a line. Most bytes are between `#` and `~`, so that these are tested
/// first.
fn is_stop(byte: u8) -> bool
    ensures { result ≡ is_stop byte }
{
    !(b'#' < byte && byte <= b'~') && (byte == b'#' || is_foreign(byte))
}

/// Whether a byte may not stand in a line.
fn is_foreign(byte: u8) -> bool
    ensures { result ≡ is_foreign byte }
{
    !(is_blank(byte) || (33 <= byte && byte <= 126))
}

/// Whether a word is a name. It takes no memory, unlike making one.
pub fn is_name(word: &[u8]) -> bool
    ensures { result ≡ is_name word.now }
{
    begins_name(word) && word.len() <= LONGEST && has_name_bytes(word)
}

/// Whether a word begins as a name does: not with a digit.
fn begins_name(word: &[u8]) -> bool
    ensures { result ≡ begins_name word.now }
{
    match word {
        [] => false,
        [first, ..] => !is_digit(*first),
    }
}

/// Whether each byte of a word may stand in a name.
fn has_name_bytes(word: &[u8]) -> bool
    ensures { result ≡ list_all is_name_byte word.now }
{
    word.iter().all(|byte| is_name_byte(*byte))
}

/// Whether a byte may stand in a name.
fn is_name_byte(byte: u8) -> bool
    ensures { result ≡ is_name_byte byte }
{
    byte.is_ascii_alphabetic() || is_digit(byte) || byte == b'_'
}

/// Whether a byte is a digit.
fn is_digit(byte: u8) -> bool
    ensures { result ≡ is_digit byte }
{
    byte.is_ascii_digit()
}

/// The number from 0 on that a word is.
pub fn read_number(word: &[u8]) -> Option<u64>
    ensures { result ≡ number_in word.now }
{
    match read_int(word) {
        Ok(number) if 0 <= number => Some(number as u64),
        _ => None,
    }
}

/// The number of the buffer that a word names.
pub fn read_buffer(word: &[u8]) -> Option<u64>
    ensures { result ≡ buffer_in word.now }
{
    match word {
        [b'b', number @ ..] => read_number(number),
        _ => None,
    }
}

/// The length that a word is, which is at least 1.
pub fn read_length(word: &[u8]) -> Option<u64>
    ensures { result ≡ at_least 1 (number_in word.now) }
{
    match read_number(word) {
        Some(length) if 1 <= length => Some(length),
        _ => None,
    }
}

/// The number of places that a word is, from 2 to 4.
pub fn read_places(word: &[u8]) -> Option<u32>
    ensures { result ≡ from_to 2 4 (number_in word.now) }
{
    match read_number(word) {
        Some(places) if 2 <= places && places <= 4 => Some(places as u32),
        _ => None,
    }
}
