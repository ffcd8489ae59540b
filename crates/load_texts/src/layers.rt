//! The main graph of a load: layers of four functions, and what follows the last one.
ghost use Rattle.std.specs.Prelude.{◌≡◌, ◌+◌, ◌%◌, ◌<◌, ◌++◌, OnOk};
ghost use Rattle.load_texts.specs.Algorithm.{
  edge,
  edges_from_layer,
  edges_of_layers,
  layer_edges,
  layer_references,
  main_edges,
  main_graph,
  main_references,
  mix_edges,
  mix_name,
  mix_reference,
  output_end,
  references_of_layers,
};

use crate::lines::append_lines;
use syn_base::{OutOfMemory, append, append_count};

/// Appends the main graph with this many layers.
pub fn append_main(out: &mut Vec<u8>, layers: usize) -> Result<(), OutOfMemory>
    requires { layers < 9 }
    ensures { OnOk result (out.new.items ≡ out.old.items ++ main_graph layers) }
{
    append_main_references(out, layers)?;
    append_main_edges(out, layers)
}

/// Appends the head of the main graph and its references.
fn append_main_references(out: &mut Vec<u8>, layers: usize) -> Result<(), OutOfMemory>
    requires { layers < 9 }
    ensures { OnOk result (out.new.items ≡ out.old.items ++ main_references layers) }
{
    append_lines(out, &["graph main", "ref s Src"])?;
    append_references_of_layers(out, layers)?;
    append_lines(
        out,
        &[
            "ref g Bit",
            "ref w Sw",
            "ref z Z",
            "ref r Run",
            "ref a Dst",
            "ref b Dst",
        ],
    )
}

/// Appends the references of all layers.
fn append_references_of_layers(out: &mut Vec<u8>, layers: usize) -> Result<(), OutOfMemory>
    requires { layers < 9 }
    ensures { OnOk result (out.new.items ≡ out.old.items ++ references_of_layers layers) }
{
    for below in 0..layers {
        append_layer_references(out, below + 1)?;
    }
    Ok(())
}

/// Appends the references of a layer.
fn append_layer_references(out: &mut Vec<u8>, layer: usize) -> Result<(), OutOfMemory>
    ensures { OnOk result (out.new.items ≡ out.old.items ++ layer_references layer) }
{
    append_reference(out, layer, 0)?;
    append_reference(out, layer, 1)?;
    append_reference(out, layer, 2)?;
    append_reference(out, layer, 3)
}

/// Appends the reference to function i of a layer.
fn append_reference(out: &mut Vec<u8>, layer: usize, i: usize) -> Result<(), OutOfMemory>
    ensures { OnOk result (out.new.items ≡ out.old.items ++ mix_reference layer i) }
{
    append(out, b"ref ")?;
    append_name(out, layer, i)?;
    append(out, b" Mix\n")
}

/// Appends the name of function i of a layer.
fn append_name(out: &mut Vec<u8>, layer: usize, i: usize) -> Result<(), OutOfMemory>
    ensures { OnOk result (out.new.items ≡ out.old.items ++ mix_name layer i) }
{
    append(out, b"f")?;
    append_count(out, layer)?;
    append(out, b"_")?;
    append_count(out, i)
}

/// Appends the edges of the main graph and its end.
fn append_main_edges(out: &mut Vec<u8>, layers: usize) -> Result<(), OutOfMemory>
    requires { layers < 9 }
    ensures { OnOk result (out.new.items ≡ out.old.items ++ main_edges layers) }
{
    append_edges_of_layers(out, layers)?;
    append_edges_from_layer(out, layers)?;
    append_lines(
        out,
        &[
            "edge g.c w.c",
            "edge z.o r.z",
            "edge w.y a.i",
            "edge r.q b.i",
            "end",
        ],
    )
}

/// Appends the edges into all layers.
fn append_edges_of_layers(out: &mut Vec<u8>, layers: usize) -> Result<(), OutOfMemory>
    requires { layers < 9 }
    ensures { OnOk result (out.new.items ≡ out.old.items ++ edges_of_layers layers) }
{
    for below in 0..layers {
        append_layer_edges(out, below)?;
    }
    Ok(())
}

/// Appends the edges into the layer over `below`.
fn append_layer_edges(out: &mut Vec<u8>, below: usize) -> Result<(), OutOfMemory>
    requires { below < 8 }
    ensures { OnOk result (out.new.items ≡ out.old.items ++ layer_edges below) }
{
    append_mix_edges(out, below, 0)?;
    append_mix_edges(out, below, 1)?;
    append_mix_edges(out, below, 2)?;
    append_mix_edges(out, below, 3)
}

/// Appends the edges into function i of the layer over `below`.
fn append_mix_edges(out: &mut Vec<u8>, below: usize, i: usize) -> Result<(), OutOfMemory>
    requires below { below < 8 }
    requires place { i < 4 }
    ensures { OnOk result (out.new.items ≡ out.old.items ++ mix_edges below i) }
{
    append_mix_edge(out, (below, i), i, b".x")?;
    append_mix_edge(out, (below, (i + 1) % 4), i, b".y")
}

/// Appends the edge from an output of a layer to a port of function i of the next layer.
fn append_mix_edge(
    out: &mut Vec<u8>,
    from: (usize, usize),
    i: usize,
    port: &[u8],
) -> Result<(), OutOfMemory>
    requires { from.0 < 8 }
    ensures { OnOk result (out.new.items ≡ out.old.items ++
        edge (output_end from.0 from.1) (mix_name (from.0 + 1) i ++ port.now)) }
{
    append(out, b"edge ")?;
    append_output(out, from.0, from.1)?;
    append(out, b" ")?;
    append_name(out, from.0 + 1, i)?;
    append(out, port)?;
    append(out, b"\n")
}

/// Appends output i of a layer, where layer 0 is the sensor.
fn append_output(out: &mut Vec<u8>, layer: usize, i: usize) -> Result<(), OutOfMemory>
    ensures { OnOk result (out.new.items ≡ out.old.items ++ output_end layer i) }
{
    if layer == 0 {
        return append(out, b"s.o");
    }
    append_name(out, layer, i)?;
    append(out, b".z")
}

/// Appends the edges out of the last layer.
fn append_edges_from_layer(out: &mut Vec<u8>, last: usize) -> Result<(), OutOfMemory>
    ensures { OnOk result (out.new.items ≡ out.old.items ++ edges_from_layer last) }
{
    append_end_edge(out, last, 0, b"g.x")?;
    append_end_edge(out, last, 1, b"w.x")?;
    append_end_edge(out, last, 2, b"r.x")
}

/// Appends the edge from output i of a layer to this end.
fn append_end_edge(out: &mut Vec<u8>, layer: usize, i: usize, to: &[u8]) -> Result<(), OutOfMemory>
    ensures { OnOk result (out.new.items ≡ out.old.items ++ edge (output_end layer i) to.now) }
{
    append(out, b"edge ")?;
    append_output(out, layer, i)?;
    append(out, b" ")?;
    append(out, to)?;
    append(out, b"\n")
}
