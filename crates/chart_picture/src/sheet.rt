//! What a picture is drawn from, and the names in it.
ghost use Rattle.std.specs.Prelude.{◌≡◌, ◌≤◌, ◌+◌, [], length};
ghost use Rattle.self_timed.specs.Graph.{operation_name};
ghost use Rattle.self_timed.specs.Archi.{operator_name, medium_name};

use self_timed::{Archi, Flat};
use svg_text::Scale;

/// The operations, the architecture, and the scale on which dates are drawn.
#[derive(Clone, Copy)]
pub struct Sheet<'a> {
    pub flat: &'a Flat,
    pub archi: &'a Archi,
    pub scale: Scale,
}

/// The name of an operation, empty where there is none of this number.
pub fn operation_name(flat: &Flat, op: u32) -> &[u8]
    ensures { result.now ≡ operation_name flat.now.vertices op }
{
    match flat.vertices().get(op as usize) {
        Some(vertex) => vertex.name.as_slice(),
        None => b"",
    }
}

/// The name of an operator, empty where there is none of this number.
pub fn operator_name(archi: &Archi, operator: u32) -> &[u8]
    ensures { result.now ≡ operator_name archi.now.operators operator }
{
    let operators = archi.operators();
    let operator = operator as usize;
    if operator < operators.len() {
        operators[operator].as_bytes()
    } else {
        b""
    }
}

/// The name of a medium, empty where there is none of this number.
pub fn medium_name(archi: &Archi, medium: u32) -> &[u8]
    ensures { result.now ≡ medium_name archi.now.media medium }
{
    match archi.media().get(medium as usize) {
        Some(medium) => medium.name.as_bytes(),
        None => b"",
    }
}

/// The number of operators, which is the number of the first lane of a medium.
#[tactic(auto, using(schedule::proofs::Archis::few_operators))]
pub fn operators_in(archi: &Archi) -> u64
    ensures same { result ≡ length archi.now.operators }
    ensures few { result ≤ 16 }
{
    archi.operators().len() as u64
}

/// The number of media.
#[tactic(auto, using(schedule::proofs::Archis::few_media))]
pub fn media_in(archi: &Archi) -> u64
    ensures same { result ≡ length archi.now.media }
    ensures few { result ≤ 16 }
{
    archi.media().len() as u64
}
