//! Reading an expression by recursive descent over its tokens: `Reader`, for `read_body`.
ghost use Rattle.std.specs.Prelude.{◌≡◌, ◌+◌, ◌<◌, ◌≤◌, ◌^◌, length, codes, IfOk, OnErr, option_map, if◌then◌else◌, nat_lt};
ghost use Rattle.body_text.specs.Cut.{token_view};
ghost use Rattle.body_text.specs.Parse.{parse, alone, named, element_of, arguments_of, negation_of, apply_of, select_of, sum_of, ended, begins, first_token};
ghost use Rattle.body_text.specs.Ports.{port_number};
ghost use Rattle.body_text.specs.Answers.{Answers, names_of, behind_of, IsIndex, Makes};
ghost use Rattle.std.specs.Option.{option_or};
ghost use Rattle.body_lang.specs.Expr.{view};
ghost use Rattle.body_lang.specs.Expr as plain;
ghost use Rattle.std.specs.Str.{bytes_eq};
ghost use Rattle.syn_base.specs.Limits.{most_in_text};

use crate::token::{Mark, Placed, Token};
use crate::word::{Word, find_word};
use body_lang::{Expr, Port};
use std::alloc::Global;
use syn_base::Op;

/// An expression that was read.
#[derive(Drop)]
pub struct Read {
    pub value: Expr,
    /// The number of the token after it.
    pub next: usize,
    /// The number of the first token that names a port that is none.
    pub unknown: Option<usize>,
}

/// Why reading stopped.
#[derive(Clone, Copy, Debug, Drop)]
pub enum Stop {
    /// The number of the first token with which no expression goes on.
    At(usize),
    OutOfMemory,
}

/// The tokens of a text, and the ports that it may name.
#[derive(Clone, Copy, Drop)]
pub struct Reader<'a> {
    pub alloc: Global,
    pub tokens: &'a [Placed<'a>],
    pub ports: &'a [Port],
}

impl<'a> Reader<'a> {
    /// The expression that the tokens are.
    #[tactic(auto, using(crate::proofs::Steps::alone_err, crate::proofs::Steps::alone_more, crate::proofs::Steps::alone_all))]
    pub fn whole(&self) -> Result<Read, Stop>
        requires { length self.now.ports.now ≤ most_in_text }
        ensures { Answers (names_of self.now.ports.now) self.now.tokens.now 0 0
            (alone (parse (length self.now.tokens.now + 1) (behind_of 0 self.now.tokens.now)))
            result }
    {
        let read = self.expression(0, self.tokens.len() + 1)?;
        if read.next < self.tokens.len() {
            return Err(Stop::At(read.next));
        }
        Ok(read)
    }

    /// The expression that begins with token `start`. Expressions nest less than `depth` deep.
    #[cycle(read)]
    fn expression(&self, start: usize, depth: usize) -> Result<Read, Stop>
        requires ports { length self.now.ports.now ≤ most_in_text }
        requires start { start ≤ length self.now.tokens.now }
        ensures { Answers (names_of self.now.ports.now) self.now.tokens.now start 0
            (parse depth (behind_of start self.now.tokens.now)) result }
    {
        if depth == 0 {
            return Err(Stop::At(start));
        }
        match self.token(start) {
            Some(Token::Number(v)) => Ok(Read {
                value: Expr::Lit(v),
                next: start + 1,
                unknown: None,
            }),
            Some(Token::Name(name)) => self.named(name, start, depth - 1),
            Some(Token::Mark(_)) => Err(Stop::At(start)),
            Some(Token::Bad) => Err(Stop::At(start)),
            None => Err(Stop::At(start)),
        }
    }

    /// The expression that begins with a name.
    #[cycle(read)]
    fn named(&self, name: &[u8], start: usize, depth: usize) -> Result<Read, Stop>
        requires ports { length self.now.ports.now ≤ most_in_text }
        requires start { start < length self.now.tokens.now }
        ensures { Answers (names_of self.now.ports.now) self.now.tokens.now start 0
            (named (parse depth) name.now (behind_of (start + 1) self.now.tokens.now)) result }
    {
        if self.has(start + 1, Mark::OpenSquare) {
            return self.element(name, start, depth);
        }
        let Some(word) = find_word(name) else {
            return index(name, start);
        };
        if self.has(start + 1, Mark::OpenRound) {
            self.form(word, start, depth)
        } else {
            index(name, start)
        }
    }

    /// An element of a port, after the name of the port and `[`.
    #[cycle(read)]
    fn element(&self, name: &[u8], start: usize, depth: usize) -> Result<Read, Stop>
        requires ports { length self.now.ports.now ≤ most_in_text }
        requires start { start + 2 ≤ length self.now.tokens.now }
        ensures { Answers (names_of self.now.ports.now) self.now.tokens.now start 0
            (element_of (parse depth) name.now (behind_of (start + 2) self.now.tokens.now)) result }
    {
        let index = self.ended(start + 2, Mark::CloseSquare, depth)?;
        let port = self.port(name);
        element_at(self.alloc, port, self.unknown(port, start), index)
    }

    /// What a word begins, after its `(`.
    #[cycle(read)]
    fn form(&self, word: Word, start: usize, depth: usize) -> Result<Read, Stop>
        requires ports { length self.now.ports.now ≤ most_in_text }
        requires start { start + 2 ≤ length self.now.tokens.now }
        ensures { Answers (names_of self.now.ports.now) self.now.tokens.now start 0
            (arguments_of (parse depth) word (behind_of (start + 2) self.now.tokens.now)) result }
    {
        match word {
            Word::Select => self.select(start, depth),
            Word::Sum => self.sum(start),
            Word::Negation => self.negation(start, depth),
            Word::Operator(op) => self.apply(op, start, depth),
        }
    }

    /// A negation, after its `neg(`.
    #[cycle(read)]
    fn negation(&self, start: usize, depth: usize) -> Result<Read, Stop>
        requires ports { length self.now.ports.now ≤ most_in_text }
        requires start { start + 2 ≤ length self.now.tokens.now }
        ensures { Answers (names_of self.now.ports.now) self.now.tokens.now start 0
            (negation_of (parse depth) (behind_of (start + 2) self.now.tokens.now)) result }
    {
        let a = self.ended(start + 2, Mark::CloseRound, depth)?;
        make_negation(self.alloc, a)
    }

    /// An operator over two expressions, after its word and `(`.
    #[cycle(read)]
    fn apply(&self, op: Op, start: usize, depth: usize) -> Result<Read, Stop>
        requires ports { length self.now.ports.now ≤ most_in_text }
        requires start { start + 2 ≤ length self.now.tokens.now }
        ensures { Answers (names_of self.now.ports.now) self.now.tokens.now start 0
            (apply_of (parse depth) op (behind_of (start + 2) self.now.tokens.now)) result }
    {
        let a = self.ended(start + 2, Mark::Comma, depth)?;
        let b = self.ended(a.next, Mark::CloseRound, depth)?;
        make_application(self.alloc, op, a, b)
    }

    /// A selection, after its `select(`.
    #[cycle(read)]
    fn select(&self, start: usize, depth: usize) -> Result<Read, Stop>
        requires ports { length self.now.ports.now ≤ most_in_text }
        requires start { start + 2 ≤ length self.now.tokens.now }
        ensures { Answers (names_of self.now.ports.now) self.now.tokens.now start 0
            (select_of (parse depth) (behind_of (start + 2) self.now.tokens.now)) result }
    {
        let condition = self.ended(start + 2, Mark::Comma, depth)?;
        let a = self.ended(condition.next, Mark::Comma, depth)?;
        let b = self.ended(a.next, Mark::CloseRound, depth)?;
        make_selection(self.alloc, condition, a, b)
    }

    /// An expression with a mark after it; the next token is the one after the mark.
    #[cycle(read)]
    fn ended(&self, start: usize, mark: Mark, depth: usize) -> Result<Read, Stop>
        requires ports { length self.now.ports.now ≤ most_in_text }
        requires start { start ≤ length self.now.tokens.now }
        ensures { Answers (names_of self.now.ports.now) self.now.tokens.now start 1
            (ended (parse depth) mark (behind_of start self.now.tokens.now)) result }
    {
        let mut read = self.expression(start, depth)?;
        if !self.has(read.next, mark) {
            return Err(Stop::At(read.next));
        }
        read.next += 1;
        Ok(read)
    }

    /// The sum of a port, after `sum(`.
    fn sum(&self, start: usize) -> Result<Read, Stop>
        requires ports { length self.now.ports.now ≤ most_in_text }
        requires start { start + 2 ≤ length self.now.tokens.now }
        ensures { Answers (names_of self.now.ports.now) self.now.tokens.now start 0
            (sum_of (behind_of (start + 2) self.now.tokens.now)) result }
    {
        let Some(Token::Name(name)) = self.token(start + 2) else {
            return Err(Stop::At(start + 2));
        };
        if !self.has(start + 3, Mark::CloseRound) {
            return Err(Stop::At(start + 3));
        }
        let port = self.port(name);
        Ok(Read {
            value: Expr::SumOf(port),
            next: start + 4,
            unknown: self.unknown(port, start + 2),
        })
    }

    /// Whether this token is there and is this mark.
    fn has(&self, at: usize, mark: Mark) -> bool
        ensures { result ≡ begins mark (behind_of at self.now.tokens.now) }
    {
        match self.token(at) {
            Some(Token::Mark(found)) => found == mark,
            _ => false,
        }
    }

    /// The token with this number, where there is one.
    fn token(&self, at: usize) -> Option<Token<'a>>
        ensures { option_map token_view result ≡ first_token (behind_of at self.now.tokens.now) }
    {
        if at < self.tokens.len() {
            Some(self.tokens[at].token)
        } else {
            None
        }
    }

    /// The number of a port, or of the ports where it is none.
    fn port(&self, name: &[u8]) -> u32
        requires { length self.now.ports.now ≤ most_in_text }
        ensures { result ≡ port_number (names_of self.now.ports.now) name.now }
    {
        for (number, port) in self.ports.iter().enumerate() {
            if name == port.name.as_bytes() {
                return number as u32;
            }
        }
        self.ports.len() as u32
    }

    /// The number of a token where the port that it names is none.
    fn unknown(&self, port: u32, token: usize) -> Option<usize>
        ensures { result ≡ (if nat_lt port (length self.now.ports.now) then None else Some token) }
    {
        if (port as usize) < self.ports.len() {
            None
        } else {
            Some(token)
        }
    }
}

/// The number of the element that is computed, where the name is `j`.
fn index(name: &[u8], start: usize) -> Result<Read, Stop>
    requires { start < 2 ^ 63 }
    ensures { IsIndex (bytes_eq name.now (codes "j")) start result }
{
    if name == b"j".as_slice() {
        Ok(Read {
            value: Expr::Index,
            next: start + 1,
            unknown: None,
        })
    } else {
        Err(Stop::At(start + 1))
    }
}

/// The element of a port at the index that was read.
fn element_at(alloc: Global, port: u32, unknown: Option<usize>, index: Read) -> Result<Read, Stop>
    ensures { Makes (plain.element port (view index.value)) index.next (option_or unknown index.unknown) result }
{
    Ok(Read {
        value: Expr::Elem(port, box_expression(alloc, index.value)?),
        next: index.next,
        unknown: unknown.or(index.unknown),
    })
}

/// The negation of what was read.
fn make_negation(alloc: Global, a: Read) -> Result<Read, Stop>
    ensures { Makes (plain.negation (view a.value)) a.next a.unknown result }
{
    Ok(Read {
        value: Expr::Neg(box_expression(alloc, a.value)?),
        next: a.next,
        unknown: a.unknown,
    })
}

/// An operator over two parts that were read in this order.
fn make_application(alloc: Global, op: Op, a: Read, b: Read) -> Result<Read, Stop>
    ensures { Makes (plain.apply op (view a.value) (view b.value)) b.next (option_or a.unknown b.unknown) result }
{
    Ok(Read {
        value: Expr::Apply(
            op,
            box_expression(alloc, a.value)?,
            box_expression(alloc, b.value)?,
        ),
        next: b.next,
        unknown: a.unknown.or(b.unknown),
    })
}

/// A selection by a condition, whose parts were read in this order.
fn make_selection(alloc: Global, condition: Read, a: Read, b: Read) -> Result<Read, Stop>
    ensures { Makes (plain.select (view condition.value) (view a.value) (view b.value)) b.next
        (option_or (option_or condition.unknown a.unknown) b.unknown) result }
{
    let unknown = condition.unknown.or(a.unknown).or(b.unknown);
    let next = b.next;
    let value = Expr::Select(
        box_expression(alloc, condition.value)?,
        box_expression(alloc, a.value)?,
        box_expression(alloc, b.value)?,
    );
    Ok(Read {
        value,
        next,
        unknown,
    })
}

/// An expression in memory of its own.
fn box_expression(alloc: Global, value: Expr) -> Result<Box<Expr>, Stop>
    ensures ok { IfOk result (λ b. b.value ≡ value) }
    ensures err { OnErr result (result ≡ Err Stop.OutOfMemory) }
{
    match Box::new(alloc, value) {
        Ok(boxed) => Ok(boxed),
        Err(_) => Err(Stop::OutOfMemory),
    }
}
