//! The outputs of an operation, written in their places. `operation` calls it.
ghost use Rattle.std.specs.Prelude.{◌≡◌, ◌+◌, ◌<◌, ◌≤◌, [], ◌∷◌, All, length, map, take, slice_set, sum};
ghost use Rattle.body_lang.specs.Expr.{view, function_outputs, vector_of, value_of, PortsBelow};
ghost use Rattle.flat_graph.specs.Put.{over};
ghost use Rattle.level_meaning.specs.Level.{all_joined};
ghost use Rattle.syn_base.specs.Vectors.{vector_at, zeros};
ghost use Rattle.syn_base.specs.Rows.{cut};

use body_lang::{Expr, Ins, value};

/// The zeros of the longest vector.
static ZEROS: [i64; 64] = [0; 64];

/// Puts a vector in the place of the only one.
pub fn put_only(vector: &[i64], outs: &mut Ins)
    requires { map length outs.old ≡ length vector.now ∷ [] }
    ensures { outs.new ≡ vector.now ∷ [] }
{
    outs.set_vector(0, vector);
}

/// Puts zeros everywhere.
pub fn put_zeros(lens: &[u32], outs: &mut Ins)
    requires short { All (λ n. n ≤ 64) lens.now }
    requires lens { map length outs.old ≡ lens.now }
    ensures { outs.new ≡ map zeros lens.now }
{
    for (port, len) in lens.iter().enumerate() {
        outs.set_vector(port, zero_vector(*len));
    }
}

/// This many zeros.
fn zero_vector(len: u32) -> &'static [i64]
    requires { len ≤ 64 }
    ensures { result.now ≡ zeros len }
{
    &ZEROS[..len as usize]
}

/// Puts the parts of a vector.
pub fn put_parts(lens: &[u32], whole: &[i64], outs: &mut Ins)
    requires lens { map length outs.old ≡ lens.now }
    requires whole { length whole.now ≡ sum lens.now }
    ensures { outs.new ≡ cut lens.now whole.now }
{
    let mut from = 0;
    for (port, len) in lens.iter().enumerate() {
        let to = from + *len as usize;
        outs.set_vector(port, &whole[from..to]);
        from = to;
    }
}

/// Puts the values of expressions, one for each output.
pub fn put_values(lens: &[u32], body: &[Expr], ins: &Ins, outs: &mut Ins)
    requires lens { map length outs.old ≡ lens.now }
    requires body { length body.now ≡ length lens.now }
    requires ports { All (λ e. PortsBelow (length ins.now) (view e)) body.now }
    ensures { outs.new ≡ function_outputs lens.now (map view body.now) ins.now }
{
    for (port, e) in body.iter().enumerate() {
        put_value(port, lens[port], e, ins, outs);
    }
}

/// Puts the value of one expression in the place of this output.
fn put_value(port: usize, len: u32, e: &Expr, ins: &Ins, outs: &mut Ins)
    requires port { port < length outs.old }
    requires len { length (vector_at outs.old port) ≡ len }
    requires ports { PortsBelow (length ins.now) (view e.now) }
    ensures { outs.new ≡ slice_set outs.old port (vector_of len (value_of (view e.now) ins.now)) }
{
    for j in 0..len {
        outs.set(port, j as usize, value(e, ins, j));
    }
}

/// Puts the first vectors, one after another.
pub fn put_joined(count: usize, ins: &Ins, outs: &mut Ins)
    requires count { count ≤ length ins.now }
    requires lens { map length outs.old ≡ sum (take count (map length ins.now)) ∷ [] }
    requires short { sum (take count (map length ins.now)) ≤ 64 }
    ensures { outs.new ≡ all_joined (take count ins.now) ∷ [] }
{
    let mut from = 0;
    for port in 0..count {
        let vector = ins.vector(port);
        put_over(from, vector, outs);
        from += vector.len();
    }
}

/// Writes a vector over the one output from this place on.
fn put_over(from: usize, vector: &[i64], outs: &mut Ins)
    requires port { 0 < length outs.old }
    requires len { from + length vector.now ≤ length (vector_at outs.old 0) }
    requires short { from + length vector.now ≤ 64 }
    ensures { outs.new ≡ slice_set outs.old 0 (over from vector.now (vector_at outs.old 0)) }
{
    for (j, element) in vector.iter().enumerate() {
        outs.set(0, from + j, *element);
    }
}
