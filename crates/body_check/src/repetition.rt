//! The check of a repetition.
ghost use Rattle.std.specs.Prelude.{◌≡◌, ℕ, ◌≤◌, ◌&&◌, not, IfSome};
ghost use Rattle.std.specs.List.{list_all};
ghost use Rattle.algo_rules.specs.Among.{is_among};
ghost use Rattle.algo_rules.specs.Frontiers.{used_by, frontier_fault, repeat_fault};
ghost use Rattle.algo_rules.specs.Placed.{Checks};
ghost use Rattle.algo_rules.specs.Ports.{has_port};
ghost use Rattle.body_check.specs.Bounds.{AreShort, HasShortPorts};
ghost use Rattle.body_check.specs.Lines.{all_used, len_where, fault_by};

use crate::frontier_fault::check_len;
use crate::lookup::port_len;
use algo_rules::{AlgoCause, AlgoError, Frontier, FrontierLine, Port, Ports};
use syn_base::Name;
use text_lines::refused_at;

/// Whether the lines of a repetition at `line` use the ports of its body rightly. Line by line,
/// BadRepeat comes where an inner port is not there, an inner input was used before or an iterate
/// has unequal lengths, and then the limit where an outer port has more than 64 elements. After the
/// lines, BadRepeat comes at `line` where an inner input stands in none. It takes no memory.
pub fn check_repeat(
    line: u32,
    copies: u32,
    inner: &Ports,
    lines: &[FrontierLine],
) -> Result<(), AlgoError>
    requires few { copies ≤ 64 }
    requires lens { HasShortPorts inner.now }
    ensures { Checks result (repeat_fault copies inner.now line lines.now) }
{
    for (at, next) in lines.iter().enumerate() {
        check_line(copies, inner, &lines[..at], next)?;
    }
    if !are_used(inner.ins.as_slice(), lines) {
        return Err(refused_at(line, AlgoCause::BadRepeat));
    }
    Ok(())
}

/// Checks a line after others.
fn check_line(
    copies: u32,
    inner: &Ports,
    before: &[FrontierLine],
    next: &FrontierLine,
) -> Result<(), AlgoError>
    requires few { copies ≤ 64 }
    requires lens { HasShortPorts inner.now }
    ensures { Checks result (frontier_fault copies inner.now (all_used before.now) next.now.line next.now.frontier) }
{
    match outer_len(copies, inner, before, &next.frontier) {
        Some(len) => check_len(len),
        None => Err(refused_at(next.line, AlgoCause::BadRepeat)),
    }
}

/// The length of the outer port of a line after others, its input's for an iterate. There is none
/// where the line uses an inner port that it may not use.
fn outer_len(
    copies: u32,
    inner: &Ports,
    before: &[FrontierLine],
    frontier: &Frontier,
) -> Option<u32>
    requires few { copies ≤ 64 }
    requires lens { HasShortPorts inner.now }
    ensures { (line : ℕ) → frontier_fault copies inner.now (all_used before.now) line
        frontier.now ≡ fault_by line result }
{
    match frontier {
        Frontier::Fork { inner: input, .. } => {
            let len = open_len(inner.ins.as_slice(), before, input)?;
            Some(copies * len)
        }
        Frontier::Diffuse { inner: input, .. } => { open_len(inner.ins.as_slice(), before, input) }
        Frontier::Iterate {
            inner: input,
            given,
            ..
        } => {
            let len = open_len(inner.ins.as_slice(), before, input)?;
            let given_len = port_len(inner.outs.as_slice(), given)?;
            if len == given_len { Some(len) } else { None }
        }
        Frontier::Join { given, .. } => {
            let len = port_len(inner.outs.as_slice(), given)?;
            Some(copies * len)
        }
    }
}

/// The length of an inner input, if it is there and no line before uses it.
fn open_len(ins: &[Port], before: &[FrontierLine], name: &Name) -> Option<u32>
    requires { AreShort ins.now }
    ensures open { result ≡ len_where (has_port ins.now name.now &&
        not (is_among name.now (all_used before.now))) ins.now name.now }
    ensures short { IfSome result (λ len. len ≤ 64) }
{
    let len = port_len(ins, name)?;
    if is_used(before, name) {
        None
    } else {
        Some(len)
    }
}

/// Whether one of these lines uses this inner input.
fn is_used(lines: &[FrontierLine], name: &Name) -> bool
    ensures { result ≡ is_among name.now (all_used lines.now) }
{
    for line in lines {
        if uses(&line.frontier, name) {
            return true;
        }
    }
    false
}

/// Whether a line uses this inner input.
fn uses(frontier: &Frontier, name: &Name) -> bool
    ensures { result ≡ is_among name.now (used_by frontier.now) }
{
    match frontier {
        Frontier::Fork { inner, .. }
        | Frontier::Diffuse { inner, .. }
        | Frontier::Iterate { inner, .. } => { name.as_bytes() == inner.as_bytes() }
        Frontier::Join { .. } => false,
    }
}

/// Whether each inner input stands in one of these lines.
fn are_used(ins: &[Port], lines: &[FrontierLine]) -> bool
    ensures { result ≡ list_all (λ p. is_among p.name (all_used lines.now)) ins.now }
{
    ins.iter().all(|port| is_used(lines, &port.name))
}
