//! Rows that are written into the store.
ghost use Rattle.std.specs.Prelude.{◌≡◌, ◌+◌, ◌≤◌, length, pos};
ghost use Rattle.flat_graph.specs.Level.{all_joined};
ghost use Rattle.syn_base.specs.Vectors.{zeros};
ghost use Rattle.expression_code.specs.Code.{words, FirstAre};
ghost use Rattle.expression_code.specs.Compiled.{AreBelow};
ghost use Rattle.graph_code.specs.Fired.{AreApart, IsPut, rows_of};

use expression_code::Span;

/// Writes a row from a place on.
pub fn put_row(start: usize, row: &[i64], store: &mut [i64])
    requires { start + length row.now ≤ length store.old }
    ensures { IsPut (length store.old) start row.now store.old store.new }
{
    store[start..start + row.len()].copy_from_slice(row);
}

/// Writes zeros.
pub fn put_zeros(to: Span, store: &mut [i64])
    requires { to.start + to.len ≤ length store.old }
    ensures { IsPut (length store.old) to.start (zeros to.len) store.old store.new }
{
    fill_zeros(&mut store[to.start..to.start + to.len]);
}

/// Writes zeros everywhere.
fn fill_zeros(row: &mut [i64])
    ensures { FirstAre (length row.old) row.new (λ _. pos 0) }
{
    for place in row.iter_mut() {
        *place = 0;
    }
}

/// Writes words that stand at another place. Most rows have one word, which is written without a call.
#[inline(always)]
pub fn put_words(from: usize, to: Span, store: &mut [i64])
    requires from { from + to.len ≤ length store.old }
    requires to { to.start + to.len ≤ length store.old }
    ensures { IsPut (length store.old) to.start (words store.old from to.len) store.old store.new }
{
    if to.len == 1 {
        store[to.start] = store[from];
    } else {
        store.copy_within(from..from + to.len, to.start);
    }
}

/// Writes the words of some spans one after another, from a place on; no span is written over.
pub fn put_joined(start: usize, spans: &[Span], store: &mut [i64])
    requires room { start + length (all_joined (rows_of store.old spans.now)) ≤ length store.old }
    requires below { AreBelow (length store.old) spans.now }
    requires apart { AreApart start (length (all_joined (rows_of store.old spans.now))) spans.now }
    ensures { IsPut (length store.old) start (all_joined (rows_of store.old spans.now))
        store.old store.new }
{
    let mut at = start;
    for span in spans {
        let to = Span {
            start: at,
            len: span.len,
        };
        put_words(span.start, to, store);
        at += span.len;
    }
}
