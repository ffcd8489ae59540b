//! The conditions of a level under guards: its sources shifted, and the guards of its vertices. `pass` and `vertices`
//! call it.
ghost use Rattle.std.specs.Prelude.{◌≡◌, ◌++◌, [], ◌∷◌, IfOk, map, true};
ghost use Rattle.flat_laws.specs.Guarded.{shift, shift_guard, guard_sources, guard_for, own_guards as guards_owned};

use algo_tree::{Guard, Source, copy_guards, copy_numbers};
use std::alloc::Global;
use syn_base::{OutOfMemory, Shared, to_u32};

/// A source of a level, where `before` further inputs stand before the level's own.
fn shift_source(before: u32, source: Source) -> Result<Source, OutOfMemory>
    ensures { IfOk result (λ s. s ≡ shift before source) }
{
    match source {
        Source::Own(input) => match before.checked_add(input) {
            Some(input) => Ok(Source::Own(input)),
            None => Err(OutOfMemory),
        },
        Source::Of(vertex, output) => Ok(Source::Of(vertex, output)),
    }
}

/// These sources, where `before` further inputs stand before a level's own. Where there are none, it
/// takes no memory.
pub fn shift_sources(
    alloc: Global,
    before: u32,
    sources: &Shared<Source>,
) -> Result<Shared<Source>, OutOfMemory>
    ensures { IfOk result (λ ss. ss ≡ map (shift before) sources.now) }
{
    if before == 0 {
        let same = sources.share()?;
        return Ok(same);
    }
    let shifted = shift_each(alloc, before, sources.as_slice())?;
    Shared::new(alloc, shifted)
}

/// Each of these sources, where `before` further inputs stand before a level's own.
fn shift_each(alloc: Global, before: u32, sources: &[Source]) -> Result<Vec<Source>, OutOfMemory>
    ensures { IfOk result (λ ss. ss.items ≡ map (shift before) sources.now) }
{
    let mut all = Vec::new(alloc);
    for source in sources {
        all.push(shift_source(before, *source)?)?;
    }
    Ok(all)
}

/// The inputs of a graph under guards: the guards' sources, and after them its own sources.
pub fn graph_inputs(
    alloc: Global,
    guards: &[Guard],
    before: u32,
    sources: &Shared<Source>,
) -> Result<Shared<Source>, OutOfMemory>
    ensures { IfOk result (λ ss. ss ≡ guard_sources guards.now ++ map (shift before) sources.now) }
{
    if guards.is_empty() {
        let own = shift_sources(alloc, before, sources)?;
        return Ok(own);
    }
    let all = inputs_after(alloc, guards, before, sources.as_slice())?;
    Shared::new(alloc, all)
}

/// The sources of these guards, and after them these sources, where `before` further inputs stand before
/// a level's own.
fn inputs_after(
    alloc: Global,
    guards: &[Guard],
    before: u32,
    sources: &[Source],
) -> Result<Vec<Source>, OutOfMemory>
    ensures { IfOk result (λ ss. ss.items ≡ guard_sources guards.now ++ map (shift before) sources.now) }
{
    let mut all = sources_of(alloc, guards)?;
    for source in sources {
        all.push(shift_source(before, *source)?)?;
    }
    Ok(all)
}

/// The sources of these guards, in order.
fn sources_of(alloc: Global, guards: &[Guard]) -> Result<Vec<Source>, OutOfMemory>
    ensures { IfOk result (λ ss. ss.items ≡ guard_sources guards.now) }
{
    let mut all = Vec::new(alloc);
    for guard in guards {
        all.push(guard.source)?;
    }
    Ok(all)
}

/// The same condition on another source.
fn guard_on(alloc: Global, source: Source, guard: &Guard) -> Result<Guard, OutOfMemory>
    ensures { IfOk result (λ g. g ≡ record { source = source; values = guard.now.values; case = guard.now.case }) }
{
    Ok(Guard {
        source,
        values: copy_numbers(alloc, guard.values.as_slice())?,
        case: guard.case,
    })
}

/// The same conditions inside a graph to which their sources are handed. Inside a graph that itself stands
/// inside one, they are the same again, and it takes no memory.
pub fn own_guards(alloc: Global, guards: &Shared<Guard>) -> Result<Shared<Guard>, OutOfMemory>
    ensures { IfOk result (λ gs. gs ≡ guards_owned 0 guards.now) }
{
    if are_own(guards.as_slice()) {
        let same = guards.share()?;
        return Ok(same);
    }
    let own = own_each(alloc, guards.as_slice())?;
    Shared::new(alloc, own)
}

/// Whether the source of each guard is the own input of its number.
fn are_own(guards: &[Guard]) -> bool
    ensures { result ≡ true → guards_owned 0 guards.now ≡ guards.now }
{
    for (at, guard) in guards.iter().enumerate() {
        if !is_own(at, guard) {
            return false;
        }
    }
    true
}

/// Whether the source of a guard is the own input of this number.
fn is_own(at: usize, guard: &Guard) -> bool
    ensures { result ≡ true → guard.now.source ≡ Source.Own at }
{
    match guard.source {
        Source::Own(input) => input as usize == at,
        Source::Of(..) => false,
    }
}

/// The conditions on the own inputs of their numbers.
fn own_each(alloc: Global, guards: &[Guard]) -> Result<Vec<Guard>, OutOfMemory>
    ensures { IfOk result (λ gs. gs.items ≡ guards_owned 0 guards.now) }
{
    let mut all = Vec::new(alloc);
    for guard in guards {
        let input = to_u32(all.len())?;
        all.push(guard_on(alloc, Source::Own(input), guard)?)?;
    }
    Ok(all)
}

/// The guards of an operation: those of the cases around it, outer first, and after them its own. Where it
/// has none of its own, it takes no memory.
pub fn guards_under(
    alloc: Global,
    guards: &Shared<Guard>,
    before: u32,
    own: &[Guard],
) -> Result<Shared<Guard>, OutOfMemory>
    ensures { IfOk result (λ gs. gs ≡ guards.now ++ map (shift_guard before) own.now) }
{
    if own.is_empty() {
        let same = guards.share()?;
        return Ok(same);
    }
    let all = guards_before(alloc, guards.as_slice(), before, own)?;
    Shared::new(alloc, all)
}

/// The same guards, and after them the own ones of an operation.
fn guards_before(
    alloc: Global,
    guards: &[Guard],
    before: u32,
    own: &[Guard],
) -> Result<Vec<Guard>, OutOfMemory>
    ensures { IfOk result (λ gs. gs.items ≡ guards.now ++ map (shift_guard before) own.now) }
{
    let mut all = copy_guards(alloc, guards)?;
    for guard in own {
        let source = shift_source(before, guard.source)?;
        all.push(guard_on(alloc, source, guard)?)?;
    }
    Ok(all)
}

/// The guards of case number `case` of a switch, whose conditioning input stands after those of the
/// guards around it.
pub fn guards_of_case(
    alloc: Global,
    guards: &Shared<Guard>,
    handed: u32,
    values: &Shared<i64>,
    case: u32,
) -> Result<Shared<Guard>, OutOfMemory>
    ensures { IfOk result (λ gs. gs ≡ guards.now ++ guard_for handed values.now case ∷ []) }
{
    let mut all = copy_guards(alloc, guards.as_slice())?;
    all.push(Guard {
        source: Source::Own(handed),
        values: copy_numbers(alloc, values.as_slice())?,
        case,
    })?;
    Shared::new(alloc, all)
}
