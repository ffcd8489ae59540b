//! The words of the forms, by which the reader finds a form and the printer names it.
ghost use Rattle.std.specs.Prelude.{◌≡◌, map, slice_get};
ghost use Rattle.body_text.specs.Grammar.{word_of};
ghost use Rattle.body_text.specs.Words.{text_of, words, form_of};

use case_table::CaseTable;
use syn_base::Op;

/// A form that a word before `(` begins; `neg` is no operator of two arguments.
#[derive(Clone, Copy, Debug, Drop, PartialEq, Eq)]
pub enum Word {
    Select,
    Sum,
    Negation,
    Operator(Op),
}

/// The form of a word.
pub fn find_word(name: &[u8]) -> Option<Word>
    ensures { result ≡ form_of name.now }
{
    match word_table().find(name) {
        Some(place) => word_at(place),
        None => None,
    }
}

/// The words, each once.
const WORDS: [Word; 16] = [
    Word::Select,
    Word::Sum,
    Word::Negation,
    Word::Operator(Op::Add),
    Word::Operator(Op::Sub),
    Word::Operator(Op::Mul),
    Word::Operator(Op::Div),
    Word::Operator(Op::Rem),
    Word::Operator(Op::Eq),
    Word::Operator(Op::Ne),
    Word::Operator(Op::Lt),
    Word::Operator(Op::Le),
    Word::Operator(Op::Gt),
    Word::Operator(Op::Ge),
    Word::Operator(Op::Min),
    Word::Operator(Op::Max),
];

/// The table of the words.
fn word_table() -> CaseTable<'static, 16>
    ensures { result ≡ map text_of words }
{
    let mut table = CaseTable::new();
    for word in &WORDS {
        table.add(text(*word));
    }
    table
}

/// The word at a place of the table.
fn word_at(place: usize) -> Option<Word>
    ensures { result ≡ slice_get words place }
{
    WORDS.get(place).copied()
}

/// A word's bytes, by which it is read and printed.
pub fn text(word: Word) -> &'static [u8]
    ensures { result.now ≡ text_of word }
{
    match word {
        Word::Select => b"select",
        Word::Sum => b"sum",
        Word::Negation => operator(Op::Neg),
        Word::Operator(op) => operator(op),
    }
}

/// The word of an operator.
fn operator(op: Op) -> &'static [u8]
    ensures { result.now ≡ word_of op }
{
    match op {
        Op::Add => b"add",
        Op::Sub => b"sub",
        Op::Mul => b"mul",
        Op::Div => b"div",
        Op::Rem => b"rem",
        Op::Eq => b"eq",
        Op::Ne => b"ne",
        Op::Lt => b"lt",
        Op::Le => b"le",
        Op::Gt => b"gt",
        Op::Ge => b"ge",
        Op::Min => b"min",
        Op::Max => b"max",
        Op::Neg => b"neg",
    }
}
