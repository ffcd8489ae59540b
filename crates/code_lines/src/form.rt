//! The form of a line of one or two words.
ghost use Rattle.std.specs.Prelude.{◌≡◌, ◌==◌, ◌<◌, length, position, IfSome};
ghost use Rattle.std.specs.List.{list_any};
ghost use Rattle.macro_code.specs.Forms.{call_form, is_mark, is_unmarked, list_form, lists_form, may_name, name_form, op_form, operation_form, word_form};
ghost use Rattle.code_lines.specs.Views.{IsCutAt, IsForm, IsInside};

use crate::word::is_name;

/// A line, whose lists are not cut yet.
#[derive(Drop)]
pub enum Form<'a> {
    /// NAME
    Bare(&'a [u8]),
    /// NAME(LIST)
    Listed(&'a [u8], &'a [u8]),
    /// op OPERATION(INS;OUTS)
    Call {
        operation: &'a [u8],
        ins: &'a [u8],
        outs: &'a [u8],
    },
}

/// `op` and OPERATION(INS;OUTS)
pub fn op_form<'a>(op: &[u8], word: &'a [u8]) -> Option<Form<'a>>
    ensures { IsForm result (op_form op.now word.now) }
{
    if op == b"op".as_slice() {
        call_form(word)
    } else {
        None
    }
}

/// NAME or NAME(LIST)
pub fn word_form(word: &[u8]) -> Option<Form<'_>>
    ensures { IsForm result (word_form word.now) }
{
    match cut_at(word, b'(') {
        Some((name, rest)) => list_form(name, rest),
        None => name_form(word),
    }
}

/// NAME, if the word may be one.
fn name_form(word: &[u8]) -> Option<Form<'_>>
    ensures { IsForm result (name_form word.now) }
{
    if may_name(word) {
        Some(Form::Bare(word))
    } else {
        None
    }
}

/// NAME(LIST), where the rest stands after the opening parenthesis.
fn list_form<'a>(name: &'a [u8], rest: &'a [u8]) -> Option<Form<'a>>
    ensures { IsForm result (list_form name.now rest.now) }
{
    if !may_name(name) {
        return None;
    }
    match before_closing(rest) {
        Some(list) if is_unmarked(list) => Some(Form::Listed(name, list)),
        _ => None,
    }
}

/// OPERATION(INS;OUTS)
fn call_form(word: &[u8]) -> Option<Form<'_>>
    ensures { IsForm result (call_form word.now) }
{
    match cut_at(word, b'(') {
        Some((operation, rest)) => operation_form(operation, rest),
        None => None,
    }
}

/// OPERATION(INS;OUTS), where the rest stands after the opening parenthesis.
fn operation_form<'a>(operation: &'a [u8], rest: &'a [u8]) -> Option<Form<'a>>
    ensures { IsForm result (operation_form operation.now rest.now) }
{
    if operation.is_empty() || !is_unmarked(operation) {
        return None;
    }
    match before_closing(rest) {
        Some(lists) => lists_form(operation, lists),
        None => None,
    }
}

/// OPERATION(INS;OUTS), where the lists stand between the parentheses.
fn lists_form<'a>(operation: &'a [u8], lists: &'a [u8]) -> Option<Form<'a>>
    ensures { IsForm result (lists_form operation.now lists.now) }
{
    match cut_at(lists, b';') {
        Some((ins, outs)) if is_unmarked(ins) && is_unmarked(outs) => Some(Form::Call {
            operation,
            ins,
            outs,
        }),
        _ => None,
    }
}

/// A name that may be that of a macro.
fn may_name(word: &[u8]) -> bool
    ensures { result ≡ may_name word.now }
{
    is_name(word) && word != b"op".as_slice()
}

/// Neither a parenthesis nor a semicolon stands there.
fn is_unmarked(text: &[u8]) -> bool
    ensures { result ≡ is_unmarked text.now }
{
    !has_mark(text)
}

/// Whether a parenthesis or a semicolon stands there.
fn has_mark(text: &[u8]) -> bool
    ensures { result ≡ list_any is_mark text.now }
{
    text.iter()
        .any(|byte| *byte == b'(' || *byte == b')' || *byte == b';')
}

/// What stands before a closing parenthesis at the end.
fn before_closing(text: &[u8]) -> Option<&[u8]>
    ensures { IsInside result text.now }
{
    text.strip_suffix(b")")
}

/// What stands before the first mark, and what stands after it.
pub fn cut_at(text: &[u8], mark: u8) -> Option<(&[u8], &[u8])>
    ensures { IsCutAt (λ b. b == mark) result text.now }
{
    match place_of(text, mark) {
        Some(place) => Some((&text[..place], &text[place + 1..])),
        None => None,
    }
}

/// The place of the first mark.
fn place_of(text: &[u8], mark: u8) -> Option<usize>
    ensures place { result ≡ position (λ b. b == mark) text.now }
    ensures within { IfSome result (λ k. k < length text.now) }
{
    text.iter().position(|byte| *byte == mark)
}
