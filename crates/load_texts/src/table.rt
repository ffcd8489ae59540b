//! The sensor table of a load.
ghost use Rattle.std.specs.Prelude.{◌≡◌, ◌++◌, ◌≤◌, IfOk, OnOk};
ghost use Rattle.load_texts.specs.Table.{next_state, row, rows, state_after, table_text, value_field, value_fields};

use crate::generator::Generator;
use crate::lines::append_lines;
use std::alloc::Global;
use syn_base::{OutOfMemory, append, append_count, print_int};

/// The table of load `n`: its header and a row for each of its 100 + n reactions.
pub fn table_of(alloc: Global, n: u32) -> Result<Vec<u8>, OutOfMemory>
    requires { n ≤ 1000 }
    ensures { IfOk result (λ text. text.items ≡ table_text n) }
{
    let mut text = Vec::new(alloc);
    append_lines(&mut text, &["k,s.0,s.1,s.2,s.3"])?;
    append_rows(&mut text, u64::from(n), 100 + n as usize)?;
    Ok(text)
}

/// Appends the rows of the first `count` reactions, from the state that the generator begins with.
fn append_rows(out: &mut Vec<u8>, first: u64, count: usize) -> Result<(), OutOfMemory>
    ensures { OnOk result (out.new.items ≡ out.old.items ++ rows first count) }
{
    let mut generator = Generator { state: first };
    for reaction in 0..count {
        append_row(out, reaction, &mut generator)?;
    }
    Ok(())
}

/// Appends a row, and leaves the generator in the state before the next one.
fn append_row(
    out: &mut Vec<u8>,
    reaction: usize,
    generator: &mut Generator,
) -> Result<(), OutOfMemory>
    ensures text { OnOk result (out.new.items ≡ out.old.items ++ row reaction generator.old.state) }
    ensures state { OnOk result (generator.new.state ≡ state_after 4 generator.old.state) }
{
    append_count(out, reaction)?;
    append_fields(out, generator)?;
    append(out, b"\n")
}

/// Appends the fields of the generator's next four values.
fn append_fields(out: &mut Vec<u8>, generator: &mut Generator) -> Result<(), OutOfMemory>
    ensures text { OnOk result (out.new.items ≡ out.old.items ++ value_fields generator.old.state) }
    ensures state { OnOk result (generator.new.state ≡ state_after 4 generator.old.state) }
{
    append_field(out, generator)?;
    append_field(out, generator)?;
    append_field(out, generator)?;
    append_field(out, generator)
}

/// Appends a comma and the generator's next value.
fn append_field(out: &mut Vec<u8>, generator: &mut Generator) -> Result<(), OutOfMemory>
    ensures text { OnOk result (out.new.items ≡ out.old.items ++ value_field (next_state generator.old.state)) }
    ensures state { generator.new.state ≡ next_state generator.old.state }
{
    let value = generator.next_value();
    append(out, b",")?;
    print_int(value, out)
}
