//! The algorithm of a load.
ghost use Rattle.std.specs.Prelude.{◌≡◌, ◌++◌, IfOk, OnOk};
ghost use Rattle.load_texts.specs.Lines.{lines_text};
ghost use Rattle.load_texts.specs.Algorithm.{algorithm_text, compound_definitions, vector_definitions};

use crate::layers::append_main;
use crate::lines::append_lines;
use std::alloc::Global;
use syn_base::OutOfMemory;

/// The text of the algorithm of load `n`: its definitions, and its main graph of 1 + n mod 8 layers.
pub fn algorithm_of(alloc: Global, n: u32) -> Result<Vec<u8>, OutOfMemory>
    ensures { IfOk result (λ text. text.items ≡ algorithm_text n) }
{
    let mut text = Vec::new(alloc);
    append_vector_definitions(&mut text)?;
    append_compound_definitions(&mut text)?;
    append_main(&mut text, 1 + n as usize % 8)?;
    Ok(text)
}

/// Appends the ends, and the functions on vectors of four.
fn append_vector_definitions(out: &mut Vec<u8>) -> Result<(), OutOfMemory>
    ensures { OnOk result (out.new.items ≡ out.old.items ++ lines_text vector_definitions) }
{
    append_lines(
        out,
        &[
            "algorithm 1",
            "sensor Src 4",
            "actuator Dst 4",
            "function Mix",
            "in x 4",
            "in y 4",
            "out z 4 = add(mul(x[j],3),y[sub(3,j)])",
            "end",
            "function Bit",
            "in x 4",
            "out c 1 = rem(x[0],2)",
            "end",
            "function Same",
            "in x 4",
            "out y 4 = x[j]",
            "end",
            "function Flip",
            "in x 4",
            "out y 4 = neg(x[j])",
            "end",
        ],
    )
}

/// Appends the switch between two functions, and the repetition that adds up four elements.
fn append_compound_definitions(out: &mut Vec<u8>) -> Result<(), OutOfMemory>
    ensures { OnOk result (out.new.items ≡ out.old.items ++ lines_text compound_definitions) }
{
    append_lines(
        out,
        &[
            "function Acc",
            "in x 1",
            "in a 1",
            "out r 1 = add(x[0],a[0])",
            "end",
            "constant Z = 0",
            "switch Sw",
            "on c",
            "in x 4",
            "out y 4",
            "case 0 Same",
            "otherwise Flip",
            "end",
            "repeat Run 4 Acc",
            "fork x x",
            "iterate z a r t",
            "join r q",
            "end",
        ],
    )
}
