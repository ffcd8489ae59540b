//! Where buffers carry what they may not: what comes from no call, what an operation does not take or give, and what a
//! transfer changes.
ghost use Rattle.std.specs.Prelude.{◌≡◌, ℕ, ◌+◌, ◌<◌, ◌≤◌, ◌^◌, drop, length, nat_eq, slice_get};
ghost use Rattle.sequence_build_laws.specs.Places.{caller_of};
ghost use Rattle.program_tables.specs.MarkRows.{row};
ghost use Rattle.program_tables.specs.declared.roles.Role.TheVariants.{Called, Written};
ghost use Rattle.program_tables.specs.Crossings.{crossing, crossings, crossings_on};
ghost use Rattle.program_tables.specs.Marks.{marks_of};
ghost use Rattle.order_check.specs.Calls.{called_at};
ghost use Rattle.macro_check.specs.Carrying.{AreLow, follow_all};
ghost use Rattle.macro_check.specs.Tabled.{AreTables};
ghost use Rattle.check_places.specs.First.{first_below, first_from, in_loop};
ghost use Rattle.check_places.specs.Transfers.{first_on, first_over};
ghost use Rattle.check_places.specs.Buffers.{fit_place, fit_place_at, given_place, guard_place, input_place, kept_place, made_place, output_place, taken_place};

use crate::first::{broken, first_of, in_loop, unless};
use crate::place::{Place, Rule, Spot, Subject};
use macro_check::{Tables, carries, carries_alike, gives_at, is_as_long, is_call, origin_in};
use order_check::{Origin, ins_of, outs_of};
use program_tables::{Crossing, Mark, call_of, write_of};
use program_walks::{Stand, turn_of};
use sequence_build_laws::{Guard, Program, Source, Vertex};
use syn_base::Items;

/// A program with the sources that its buffers carry and the operations that it calls.
#[derive(Clone, Copy)]
pub struct Carried<'a> {
    pub program: &'a Program,
    pub sources: &'a [Origin],
    pub vertices: &'a [Vertex],
}

/// Where a buffer is wrong that is written at these places: it comes from no call.
fn made_place(carried: &Carried, buffer: usize, writes: &[Mark]) -> Option<Place>
    requires sources { carried.now.sources.now ≡
        follow_all carried.now.program.now (length carried.now.program.now.buffers) }
    requires writes { writes.now ≡ marks_of carried.now.program.now Written buffer }
    requires within { buffer < length carried.now.program.now.buffers }
    ensures { result ≡ made_place carried.now.program.now buffer }
{
    let write = write_of(carried.program, buffer, writes);
    let spot = in_loop(write.writer, write.at);
    unless(
        is_call(&origin_in(carried.sources, buffer)),
        broken(Rule::NotMade, Subject::Buffer(buffer), spot),
    )
}

/// The first buffer that holds what comes from no call.
pub fn first_made(carried: &Carried, tables: &Tables) -> Option<Place>
    requires sources { carried.now.sources.now ≡
        follow_all carried.now.program.now (length carried.now.program.now.buffers) }
    requires tables { AreTables carried.now.program.now tables.now }
    ensures { result ≡ first_below (made_place carried.now.program.now)
        (length carried.now.program.now.buffers) }
{
    for buffer in 0..carried.program.buffers.as_slice().len() {
        if let Some(place) = made_place(carried, buffer, tables.writes.of(buffer)) {
            return Some(place);
        }
    }
    None
}

/// The call of an operation.
#[derive(Clone, Copy, Drop)]
struct Call {
    operation: usize,
    sequence: usize,
    at: usize,
}

/// Where it stands.
fn spot_of(call: Call) -> Option<Spot>
    ensures { result ≡ in_loop call.sequence call.at }
{
    in_loop(call.sequence, call.at)
}

/// The first of the buffers that a call reads for its guards which does not carry its source.
fn first_guard(carried: &Carried, call: Call, ins: &[u32], guards: &[Guard]) -> Option<Place>
    requires { carried.now.sources.now ≡
        follow_all carried.now.program.now (length carried.now.program.now.buffers) }
    ensures { result ≡ first_from (guard_place carried.now.program.now carried.now.vertices.now
        call.operation call.sequence call.at ins.now) 0 guards.now }
{
    for (number, guard) in guards.iter().enumerate() {
        if !carries(
            carried.program,
            carried.sources,
            carried.vertices,
            &guard.source,
            ins,
            number,
        ) {
            let operation = call.operation;
            let subject = Subject::Input { operation, number };
            return broken(Rule::OtherInput, subject, spot_of(call));
        }
    }
    None
}

/// The first of the buffers that a call reads after those of so many guards which does not carry what the operation
/// takes there.
fn first_input(
    carried: &Carried,
    call: Call,
    guards: usize,
    ins: &[u32],
    inputs: &[Source],
) -> Option<Place>
    requires sources { carried.now.sources.now ≡
        follow_all carried.now.program.now (length carried.now.program.now.buffers) }
    requires many { guards + length inputs.now < 2 ^ 64 }
    ensures { result ≡ first_from (input_place carried.now.program.now carried.now.vertices.now
        call.operation call.sequence call.at guards ins.now) 0 inputs.now }
{
    for (place, source) in inputs.iter().enumerate() {
        if !carries(
            carried.program,
            carried.sources,
            carried.vertices,
            source,
            ins,
            place,
        ) {
            let operation = call.operation;
            let number = guards + place;
            let subject = Subject::Input { operation, number };
            return broken(Rule::OtherInput, subject, spot_of(call));
        }
    }
    None
}

/// Where the buffers are wrong that a call reads: as many as its guards and inputs, each with its source.
fn taken_place(carried: &Carried, call: Call, x: &Vertex, ins: &[u32]) -> Option<Place>
    requires { carried.now.sources.now ≡
        follow_all carried.now.program.now (length carried.now.program.now.buffers) }
    ensures { result ≡ taken_place carried.now.program.now carried.now.vertices.now call.operation
        x.now call.sequence call.at ins.now }
{
    let guards = x.guards.as_slice();
    let inputs = x.ins.as_slice();
    if ins.len() as u128 != guards.len() as u128 + inputs.len() as u128 {
        let subject = Subject::Operation(call.operation);
        return broken(Rule::UnequalInputs, subject, spot_of(call));
    }
    let count = guards.len();
    first_of(
        first_guard(carried, call, ins, guards),
        first_input(carried, call, count, &ins[count..], inputs),
    )
}

/// The first of the buffers that a call writes which does not carry its output, whose lengths are given.
fn first_output(carried: &Carried, call: Call, outs: &[u32], lens: &[u32]) -> Option<Place>
    requires { carried.now.sources.now ≡
        follow_all carried.now.program.now (length carried.now.program.now.buffers) }
    ensures { result ≡ first_from (output_place carried.now.program.now carried.now.vertices.now
        call.operation call.sequence call.at outs.now) 0 lens.now }
{
    for (number, len) in lens.iter().enumerate() {
        let operation = call.operation;
        if !gives_at(
            carried.program,
            carried.sources,
            operation,
            number,
            *len,
            outs,
        ) {
            let subject = Subject::Output { operation, number };
            return broken(Rule::OtherOutput, subject, spot_of(call));
        }
    }
    None
}

/// Where the buffers are wrong that a call writes: as many as the outputs of the operation, each with its output.
fn given_place(carried: &Carried, call: Call, x: &Vertex, outs: &[u32]) -> Option<Place>
    requires { carried.now.sources.now ≡
        follow_all carried.now.program.now (length carried.now.program.now.buffers) }
    ensures { result ≡ given_place carried.now.program.now carried.now.vertices.now call.operation
        x.now call.sequence call.at outs.now }
{
    let lens = x.outs.as_slice();
    let unequal = unless(
        outs.len() == lens.len(),
        broken(
            Rule::UnequalOutputs,
            Subject::Operation(call.operation),
            spot_of(call),
        ),
    );
    first_of(unequal, first_output(carried, call, outs, lens))
}

/// Where a call is wrong in what it takes or gives.
fn fit_place_at(carried: &Carried, call: Call, x: &Vertex) -> Option<Place>
    requires { carried.now.sources.now ≡
        follow_all carried.now.program.now (length carried.now.program.now.buffers) }
    ensures { result ≡ fit_place_at carried.now.program.now carried.now.vertices.now call.operation
        x.now call.sequence call.at }
{
    let turn = turn_of(carried.program, call.sequence);
    first_of(
        taken_place(carried, call, x, ins_of(turn, call.at)),
        given_place(carried, call, x, outs_of(turn, call.at)),
    )
}

/// Where the call of an operation is wrong in what it takes or gives. `marks` are the places at which it is called.
fn fit_place(carried: &Carried, operation: usize, x: &Vertex, marks: &[Mark]) -> Option<Place>
    requires sources { carried.now.sources.now ≡
        follow_all carried.now.program.now (length carried.now.program.now.buffers) }
    requires marks { marks.now ≡ marks_of carried.now.program.now Called operation }
    ensures { result ≡ fit_place carried.now.program.now carried.now.vertices.now operation x.now }
{
    let Stand { sequence, at } = call_of(carried.program, operation, marks);
    let call = Call {
        operation,
        sequence,
        at,
    };
    fit_place_at(carried, call, x)
}

/// The first call that is wrong in what it takes or gives.
pub fn first_fit(carried: &Carried, tables: &Tables) -> Option<Place>
    requires sources { carried.now.sources.now ≡
        follow_all carried.now.program.now (length carried.now.program.now.buffers) }
    requires tables { AreTables carried.now.program.now tables.now }
    requires all { length carried.now.vertices.now ≤ tables.now.operations }
    ensures { result ≡ first_from (fit_place carried.now.program.now carried.now.vertices.now) 0
        carried.now.vertices.now }
{
    for (operation, x) in carried.vertices.iter().enumerate() {
        if let Some(place) = fit_place(carried, operation, x, tables.calls.of(operation)) {
            return Some(place);
        }
    }
    None
}

/// Where a transfer receives something else than it sends.
fn kept_place(carried: &Carried, medium: usize, number: usize, ends: Crossing) -> Option<Place>
    requires sources { carried.now.sources.now ≡
        follow_all carried.now.program.now (length carried.now.program.now.buffers) }
    requires here { ends ≡ crossing carried.now.program.now medium number }
    requires low { (ends.sent < length carried.now.program.now.buffers) ×
        (ends.received < length carried.now.program.now.buffers) }
    ensures { result ≡ kept_place carried.now.program.now medium number }
{
    let subject = Subject::Transfer { medium, number };
    let spot = in_loop(ends.receiver, ends.receive_at);
    first_of(
        unless(
            is_as_long(carried.program, ends),
            broken(Rule::UnequalLengths, subject, spot),
        ),
        unless(
            carries_alike(carried.sources, ends),
            broken(Rule::OtherValue, subject, spot),
        ),
    )
}

/// The first of these transfers of a medium that receives something else than it sends.
fn first_kept_on(carried: &Carried, medium: usize, found: &[Crossing]) -> Option<Place>
    requires sources { carried.now.sources.now ≡
        follow_all carried.now.program.now (length carried.now.program.now.buffers) }
    requires here { found.now ≡ crossings_on carried.now.program.now medium }
    requires low { (t : ℕ) → t < length found.now →
        ((crossing carried.now.program.now medium t).sent < length carried.now.program.now.buffers) ×
        ((crossing carried.now.program.now medium t).received < length carried.now.program.now.buffers) }
    ensures { result ≡ first_on carried.now.program.now (kept_place carried.now.program.now) medium }
{
    for (number, ends) in found.iter().enumerate() {
        if let Some(place) = kept_place(carried, medium, number, *ends) {
            return Some(place);
        }
    }
    None
}

/// The first transfer that receives something else than it sends.
pub fn first_kept(carried: &Carried, found: &[Items<Crossing>], media: usize) -> Option<Place>
    requires sources { carried.now.sources.now ≡
        follow_all carried.now.program.now (length carried.now.program.now.buffers) }
    requires here { found.now ≡ crossings carried.now.program.now media }
    requires low { AreLow carried.now.program.now media }
    ensures { result ≡ first_over carried.now.program.now (kept_place carried.now.program.now) media }
{
    for (medium, on_it) in found.iter().enumerate() {
        if let Some(place) = first_kept_on(carried, medium, on_it.as_slice()) {
            return Some(place);
        }
    }
    None
}
