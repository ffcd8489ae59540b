//! Printing the canonical text of an expression: `print_body`, for the printer of algorithm texts.
ghost use Rattle.std.specs.Prelude.{◌≡◌, ◌++◌, OnOk, OnErr, codes, length, map, take};
ghost use Rattle.body_lang.specs.Expr.{view, PortsBelow};
ghost use Rattle.body_text.specs.Words.{text_of};
ghost use Rattle.body_text.specs.Reads.{IsBody};
ghost use Rattle.body_text.specs.Canonical.{canonical, IsRead};

use crate::word::{Word, text};
use body_lang::{Expr, Port};
use syn_base::{OutOfMemory, print_int};

/// Appends the canonical text of an expression that some text over these ports is: no blanks, and
/// numbers in their shortest form. Read over the same ports, this text is the same expression. It goes
/// as deep as the expression, which has at most 512 tokens. After want of memory `out` is as before.
pub fn print_body(e: &Expr, ports: &[Port], out: &mut Vec<u8>) -> Result<(), OutOfMemory>
    requires { IsRead (map (λ p. p.name) ports.now) (view e.now) }
    ensures text { OnOk result (out.new.items ≡ out.old.items ++ canonical (map (λ p. p.name) ports.now) (view e.now)) }
    ensures err { OnErr result (out.new.items ≡ out.old.items) }
    ensures reads_back { IsBody (map (λ p. p.name) ports.now)
        (canonical (map (λ p. p.name) ports.now) (view e.now)) (view e.now) }
{
    let before = out.len();
    match print_expression(e, ports, out) {
        Ok(()) => Ok(()),
        Err(fault) => {
            out.truncate(before);
            Err(fault)
        }
    }
}

/// Appends the canonical text of an expression whose port numbers are below the number of ports. After
/// want of memory a part of it may stand after what was there.
#[cycle(printed)]
fn print_expression(e: &Expr, ports: &[Port], out: &mut Vec<u8>) -> Result<(), OutOfMemory>
    requires { PortsBelow (length ports.now) (view e.now) }
    ensures text { OnOk result (out.new.items ≡ out.old.items ++ canonical (map (λ p. p.name) ports.now) (view e.now)) }
    ensures front { take (length out.old.items) out.new.items ≡ out.old.items }
{
    match e {
        Expr::Lit(number) => print_int(*number, out),
        Expr::Index => put(b"j", out),
        Expr::Elem(port, at) => {
            open_element(&ports[*port as usize], out)?;
            print_ended(at, b"]", ports, out)
        }
        Expr::SumOf(port) => print_sum(&ports[*port as usize], out),
        Expr::Neg(a) => {
            open_call(Word::Negation, out)?;
            print_ended(a, b")", ports, out)
        }
        Expr::Apply(op, a, b) => {
            open_call(Word::Operator(*op), out)?;
            print_ended(a, b",", ports, out)?;
            print_ended(b, b")", ports, out)
        }
        Expr::Select(condition, a, b) => {
            open_call(Word::Select, out)?;
            print_ended(condition, b",", ports, out)?;
            print_ended(a, b",", ports, out)?;
            print_ended(b, b")", ports, out)
        }
    }
}

/// Appends the canonical text of an expression, and a mark.
#[cycle(printed)]
fn print_ended(e: &Expr, mark: &[u8], ports: &[Port], out: &mut Vec<u8>) -> Result<(), OutOfMemory>
    requires { PortsBelow (length ports.now) (view e.now) }
    ensures text { OnOk result (out.new.items ≡ out.old.items ++
        (canonical (map (λ p. p.name) ports.now) (view e.now) ++ mark.now)) }
    ensures front { take (length out.old.items) out.new.items ≡ out.old.items }
{
    print_expression(e, ports, out)?;
    put(mark, out)
}

/// Appends a port's name and the mark that opens the number of its element.
fn open_element(port: &Port, out: &mut Vec<u8>) -> Result<(), OutOfMemory>
    ensures text { OnOk result (out.new.items ≡ out.old.items ++ (port.now.name ++ codes "[")) }
    ensures front { take (length out.old.items) out.new.items ≡ out.old.items }
{
    put(port.name.as_bytes(), out)?;
    put(b"[", out)
}

/// Appends the sum of a port.
fn print_sum(port: &Port, out: &mut Vec<u8>) -> Result<(), OutOfMemory>
    ensures text { OnOk result (out.new.items ≡ out.old.items ++ (codes "sum(" ++ (port.now.name ++ codes ")"))) }
    ensures front { take (length out.old.items) out.new.items ≡ out.old.items }
{
    open_call(Word::Sum, out)?;
    put(port.name.as_bytes(), out)?;
    put(b")", out)
}

/// Appends a form's word and the mark that opens its arguments.
fn open_call(word: Word, out: &mut Vec<u8>) -> Result<(), OutOfMemory>
    ensures text { OnOk result (out.new.items ≡ out.old.items ++ (text_of word ++ codes "(")) }
    ensures front { take (length out.old.items) out.new.items ≡ out.old.items }
{
    put(text(word), out)?;
    put(b"(", out)
}

/// Appends bytes.
fn put(bytes: &[u8], out: &mut Vec<u8>) -> Result<(), OutOfMemory>
    ensures text { OnOk result (out.new.items ≡ out.old.items ++ bytes.now) }
    ensures front { take (length out.old.items) out.new.items ≡ out.old.items }
{
    out.extend_from_slice(bytes)?;
    Ok(())
}
