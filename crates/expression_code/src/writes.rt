//! The words of one step, written in their places: one plain loop for each action, in which a compiler
//! needs no test of a bound, and none at all if there is one word.
ghost use Rattle.std.specs.Prelude.{◌≡◌, ◌+◌, ◌-◌, ◌<◌, ◌≤◌, length, pos};
ghost use Rattle.syn_base.specs.Arithmetic.{applied, wrapped};
ghost use Rattle.body_lang.specs.Expr.{element_at, total};
ghost use Rattle.expression_code.specs.Code.{word, given, chosen, FirstAre, IsWithin};

use crate::step::Action;
use syn_base::{Op, apply};

/// Puts what an action gives, over the words that are known before.
pub fn put(action: Action, known: &[i64], out: &mut [i64])
    requires { IsWithin (length known.now) (length out.old) action }
    ensures { FirstAre (length out.old) out.new (given action known.now) }
{
    if out.len() == 1 {
        out[0] = one(action, known);
    } else {
        put_all(action, known, out);
    }
}

/// The only word of an action that gives one.
#[inline(always)]
fn one(action: Action, known: &[i64]) -> i64
    requires { IsWithin (length known.now) 1 action }
    ensures { result ≡ given action known.now 0 }
{
    match action {
        Action::Fill(value) => value,
        Action::Count => 0,
        Action::Copy(from) => known[from],
        Action::Back(from) => known[from],
        Action::Spread(from) => known[from],
        Action::Gather(from, count, at) => element(&known[from..from + count], known[at]),
        Action::Total(from, count) => sum(&known[from..from + count]),
        Action::Both(op, left, right) => apply(op, known[left], known[right]),
        Action::Right(op, left, value) => apply(op, known[left], value),
        Action::Left(op, value, right) => apply(op, value, known[right]),
        Action::Choose(condition, first, second) => {
            choose(known[condition], known[first], known[second])
        }
    }
}

/// Puts what an action gives, over the words that are known before.
fn put_all(action: Action, known: &[i64], out: &mut [i64])
    requires { IsWithin (length known.now) (length out.old) action }
    ensures { FirstAre (length out.old) out.new (given action known.now) }
{
    let len = out.len();
    match action {
        Action::Fill(value) => put_same(value, out),
        Action::Count => put_numbers(out),
        Action::Copy(from) => put_words(&known[from..from + len], out),
        Action::Back(from) => put_back(from, known, out),
        Action::Spread(from) => put_same(known[from], out),
        Action::Gather(from, count, at) => {
            put_picked(&known[from..from + count], &known[at..at + len], out)
        }
        Action::Total(from, count) => put_same(sum(&known[from..from + count]), out),
        Action::Both(op, left, right) => {
            put_applied(
                op,
                &known[left..left + len],
                &known[right..right + len],
                out,
            )
        }
        Action::Right(op, left, value) => {
            put_applied_right(op, &known[left..left + len], value, out)
        }
        Action::Left(op, value, right) => {
            put_applied_left(op, value, &known[right..right + len], out)
        }
        Action::Choose(condition, first, second) => put_chosen(
            &known[condition..condition + len],
            &known[first..first + len],
            &known[second..second + len],
            out,
        ),
    }
}

/// Puts one number everywhere.
fn put_same(value: i64, out: &mut [i64])
    ensures { FirstAre (length out.old) out.new (λ j. value) }
{
    for place in out.iter_mut() {
        *place = value;
    }
}

/// Puts the number of each place.
fn put_numbers(out: &mut [i64])
    ensures { FirstAre (length out.old) out.new (λ j. pos j) }
{
    for (j, place) in out.iter_mut().enumerate() {
        *place = j as i64;
    }
}

/// Puts words.
fn put_words(from: &[i64], out: &mut [i64])
    requires { length from.now ≡ length out.old }
    ensures { FirstAre (length out.old) out.new (word from.now) }
{
    for (j, place) in out.iter_mut().enumerate() {
        *place = from[j];
    }
}

/// Puts words backwards from a place on.
fn put_back(from: usize, known: &[i64], out: &mut [i64])
    requires inside { from < length known.now }
    requires room { length out.old ≤ from + 1 }
    ensures { FirstAre (length out.old) out.new (λ j. word known.now (from - j)) }
{
    for (j, place) in out.iter_mut().enumerate() {
        *place = known[from - j];
    }
}

/// Puts the elements of a vector with these numbers, 0 for one outside it.
fn put_picked(vector: &[i64], at: &[i64], out: &mut [i64])
    requires { length at.now ≡ length out.old }
    ensures { FirstAre (length out.old) out.new (λ j.
        element_at vector.now (word at.now j)) }
{
    for (j, place) in out.iter_mut().enumerate() {
        *place = element(vector, at[j]);
    }
}

/// An element by its number, 0 outside the vector.
#[inline(always)]
fn element(vector: &[i64], at: i64) -> i64
    ensures { result ≡ element_at vector.now at }
{
    match usize::try_from(at) {
        Ok(at) if at < vector.len() => vector[at],
        _ => 0,
    }
}

/// The sum of a vector's elements, modulo 2^64 in two's complement.
fn sum(vector: &[i64]) -> i64
    ensures { result ≡ wrapped (total vector.now) }
{
    let mut sum: i64 = 0;
    for element in vector {
        sum = sum.wrapping_add(*element);
    }
    sum
}

/// Puts the values of an operator on words of two kinds. It is taken into each arm of its caller, so
/// that the operator is known in the loop.
#[inline(always)]
fn each(op: Op, left: &[i64], right: &[i64], out: &mut [i64])
    requires left { length left.now ≡ length out.old }
    requires right { length right.now ≡ length out.old }
    ensures { FirstAre (length out.old) out.new (λ j.
        applied op (word left.now j) (word right.now j)) }
{
    for (j, place) in out.iter_mut().enumerate() {
        *place = apply(op, left[j], right[j]);
    }
}

/// The same for an operator on words and a number.
#[inline(always)]
fn each_right(op: Op, left: &[i64], value: i64, out: &mut [i64])
    requires { length left.now ≡ length out.old }
    ensures { FirstAre (length out.old) out.new (λ j. applied op (word left.now j) value) }
{
    for (j, place) in out.iter_mut().enumerate() {
        *place = apply(op, left[j], value);
    }
}

/// The same for an operator on a number and words.
#[inline(always)]
fn each_left(op: Op, value: i64, right: &[i64], out: &mut [i64])
    requires { length right.now ≡ length out.old }
    ensures { FirstAre (length out.old) out.new (λ j. applied op value (word right.now j)) }
{
    for (j, place) in out.iter_mut().enumerate() {
        *place = apply(op, value, right[j]);
    }
}

/// Puts the values of an operator on words of two kinds.
fn put_applied(op: Op, left: &[i64], right: &[i64], out: &mut [i64])
    requires left { length left.now ≡ length out.old }
    requires right { length right.now ≡ length out.old }
    ensures { FirstAre (length out.old) out.new (λ j.
        applied op (word left.now j) (word right.now j)) }
{
    match op {
        Op::Add => each(Op::Add, left, right, out),
        Op::Sub => each(Op::Sub, left, right, out),
        Op::Mul => each(Op::Mul, left, right, out),
        Op::Div => each(Op::Div, left, right, out),
        Op::Rem => each(Op::Rem, left, right, out),
        Op::Eq => each(Op::Eq, left, right, out),
        Op::Ne => each(Op::Ne, left, right, out),
        Op::Lt => each(Op::Lt, left, right, out),
        Op::Le => each(Op::Le, left, right, out),
        Op::Gt => each(Op::Gt, left, right, out),
        Op::Ge => each(Op::Ge, left, right, out),
        Op::Min => each(Op::Min, left, right, out),
        Op::Max => each(Op::Max, left, right, out),
        Op::Neg => each(Op::Neg, left, right, out),
    }
}

/// Puts the values of an operator on words and a number.
fn put_applied_right(op: Op, left: &[i64], value: i64, out: &mut [i64])
    requires { length left.now ≡ length out.old }
    ensures { FirstAre (length out.old) out.new (λ j. applied op (word left.now j) value) }
{
    match op {
        Op::Add => each_right(Op::Add, left, value, out),
        Op::Sub => each_right(Op::Sub, left, value, out),
        Op::Mul => each_right(Op::Mul, left, value, out),
        Op::Div => each_right(Op::Div, left, value, out),
        Op::Rem => each_right(Op::Rem, left, value, out),
        Op::Eq => each_right(Op::Eq, left, value, out),
        Op::Ne => each_right(Op::Ne, left, value, out),
        Op::Lt => each_right(Op::Lt, left, value, out),
        Op::Le => each_right(Op::Le, left, value, out),
        Op::Gt => each_right(Op::Gt, left, value, out),
        Op::Ge => each_right(Op::Ge, left, value, out),
        Op::Min => each_right(Op::Min, left, value, out),
        Op::Max => each_right(Op::Max, left, value, out),
        Op::Neg => each_right(Op::Neg, left, value, out),
    }
}

/// Puts the values of an operator on a number and words.
fn put_applied_left(op: Op, value: i64, right: &[i64], out: &mut [i64])
    requires { length right.now ≡ length out.old }
    ensures { FirstAre (length out.old) out.new (λ j. applied op value (word right.now j)) }
{
    match op {
        Op::Add => each_left(Op::Add, value, right, out),
        Op::Sub => each_left(Op::Sub, value, right, out),
        Op::Mul => each_left(Op::Mul, value, right, out),
        _ => each_left(op, value, right, out),
    }
}

/// Puts words of the first kind if a condition is not 0, else those of the second.
fn put_chosen(condition: &[i64], first: &[i64], second: &[i64], out: &mut [i64])
    requires condition { length condition.now ≡ length out.old }
    requires first { length first.now ≡ length out.old }
    requires second { length second.now ≡ length out.old }
    ensures { FirstAre (length out.old) out.new (λ j.
        chosen (word condition.now j) (word first.now j) (word second.now j)) }
{
    for (j, place) in out.iter_mut().enumerate() {
        *place = choose(condition[j], first[j], second[j]);
    }
}

/// The first number if the condition is not 0, else the second.
#[inline(always)]
fn choose(condition: i64, first: i64, second: i64) -> i64
    ensures { result ≡ chosen condition first second }
{
    if condition == 0 { second } else { first }
}
