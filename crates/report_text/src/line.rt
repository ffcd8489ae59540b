//! The lines of a report, which the other modules put one after the other.
ghost use Rattle.std.specs.Prelude.{◌≡◌, ◌++◌, ◌∷◌, ◌<◌, ◌+◌, ◌%◌, ◌/◌, [], OnOk, codes};
ghost use Rattle.std.specs.Fmt.{decimal};
ghost use Rattle.timing_chart.specs.Chart.{line_text, rest_of_line};
ghost use Rattle.report_text.specs.Text.{
  alone_line,
  digit,
  load_line,
  name_of,
  number_line,
  period_word,
  ratio_word,
  share_line,
  transfers_line,
};

use lower_bound::{Alone, Load, Ratio, Transfers, ratio_of};
use self_timed::{Period, Vertex};
use syn_base::{OutOfMemory, append, append_count};

/// Appends a line of a word and a number.
pub fn append_number(out: &mut Vec<u8>, word: &[u8], number: u64) -> Result<(), OutOfMemory>
    ensures { OnOk result (out.new.items ≡ out.old.items ++ line_text (number_line word.now number)) }
{
    append(out, word)?;
    append_end(out, number)
}

/// Appends a number at the end of a line.
pub fn append_end(out: &mut Vec<u8>, number: u64) -> Result<(), OutOfMemory>
    ensures { OnOk result (out.new.items ≡ out.old.items ++ rest_of_line (decimal number ∷ [])) }
{
    append(out, b" ")?;
    append_count(out, number as usize)?;
    append(out, b"\n")
}

/// Appends the line of an operator or a medium.
pub fn append_load(
    out: &mut Vec<u8>,
    word: &[u8],
    name: &[u8],
    load: Load,
) -> Result<(), OutOfMemory>
    ensures { OnOk result (out.new.items ≡ out.old.items ++ line_text (load_line word.now name.now load)) }
{
    append(out, word)?;
    append(out, b" ")?;
    append(out, name)?;
    append_busy(out, load)
}

/// Appends what stands after the name of an operator or a medium.
fn append_busy(out: &mut Vec<u8>, load: Load) -> Result<(), OutOfMemory>
    ensures { OnOk result (out.new.items ≡ out.old.items ++ rest_of_line (codes "busy" ∷
        decimal load.busy ∷ codes "share" ∷ ratio_word load.share ∷ [])) }
{
    append(out, b" busy ")?;
    append_count(out, load.busy as usize)?;
    append(out, b" share ")?;
    append_ratio(out, load.share)?;
    append(out, b"\n")
}

/// Appends the line of the transfers.
pub fn append_transfers(out: &mut Vec<u8>, transfers: Transfers) -> Result<(), OutOfMemory>
    ensures { OnOk result (out.new.items ≡ out.old.items ++ line_text (transfers_line transfers)) }
{
    append(out, b"transfers ")?;
    append_count(out, transfers.all as usize)?;
    append_constants(out, transfers.constants)?;
    append(out, b" delays")?;
    append_end(out, transfers.delays)
}

/// Appends how many transfers carry constants, in the midst of a line.
fn append_constants(out: &mut Vec<u8>, constants: u64) -> Result<(), OutOfMemory>
    ensures { OnOk result (out.new.items ≡ out.old.items ++ (codes " constants " ++ decimal constants)) }
{
    append(out, b" constants ")?;
    append_count(out, constants as usize)
}

/// Appends the line of an operator alone.
pub fn append_alone(out: &mut Vec<u8>, name: &[u8], alone: Alone) -> Result<(), OutOfMemory>
    ensures { OnOk result (out.new.items ≡ out.old.items ++ line_text (alone_line name.now alone)) }
{
    append(out, b"alone ")?;
    append(out, name)?;
    append(out, b" ")?;
    append_count(out, alone.time as usize)?;
    append_speed_up(out, alone.speed_up)
}

/// Appends the end of the line of an operator alone.
fn append_speed_up(out: &mut Vec<u8>, speed_up: Ratio) -> Result<(), OutOfMemory>
    ensures { OnOk result (out.new.items ≡ out.old.items ++ rest_of_line (codes "speed-up" ∷
        ratio_word speed_up ∷ [])) }
{
    append(out, b" speed-up ")?;
    append_ratio(out, speed_up)?;
    append(out, b"\n")
}

/// Appends the line of the operator or medium that is busiest.
pub fn append_share(
    out: &mut Vec<u8>,
    word: &[u8],
    name: &[u8],
    share: Ratio,
) -> Result<(), OutOfMemory>
    ensures { OnOk result (out.new.items ≡ out.old.items ++ line_text (share_line word.now name.now share)) }
{
    append(out, b"busiest ")?;
    append(out, word)?;
    append(out, b" ")?;
    append(out, name)?;
    append_part(out, share)
}

/// Appends a share at the end of a line.
fn append_part(out: &mut Vec<u8>, share: Ratio) -> Result<(), OutOfMemory>
    ensures { OnOk result (out.new.items ≡ out.old.items ++
        rest_of_line (codes "share" ∷ ratio_word share ∷ [])) }
{
    append(out, b" share ")?;
    append_ratio(out, share)?;
    append(out, b"\n")
}

/// Appends how long one reaction of a period takes.
pub fn append_period_word(out: &mut Vec<u8>, period: Period) -> Result<(), OutOfMemory>
    ensures { OnOk result (out.new.items ≡ out.old.items ++ period_word period) }
{
    append_ratio(out, ratio_of(period.ticks, period.reactions))
}

/// Appends a quotient: its whole part, a point, and three digits.
pub fn append_ratio(out: &mut Vec<u8>, ratio: Ratio) -> Result<(), OutOfMemory>
    ensures { OnOk result (out.new.items ≡ out.old.items ++ ratio_word ratio) }
{
    append_count(out, ratio.whole as usize)?;
    let digits = [
        b'.',
        digit(ratio.thousandths / 100),
        digit(ratio.thousandths / 10),
        digit(ratio.thousandths),
    ];
    append(out, &digits)
}

/// The name of an operation, empty where there is none of this number.
pub fn name_of(vertices: &[Vertex], op: u32) -> &[u8]
    ensures { result.now ≡ name_of vertices.now op }
{
    match vertices.get(op as usize) {
        Some(vertex) => vertex.name.as_slice(),
        None => b"",
    }
}

/// The last digit of a number.
fn digit(number: u64) -> u8
    ensures { result ≡ digit number }
{
    b'0' + (number % 10) as u8
}
