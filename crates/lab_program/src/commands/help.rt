//! The commands `help` and `--help`: the list of the commands. `commands` calls `list_text`.
ghost use Rattle.lab_plans.specs.Plans.{plan_for};
ghost use Rattle.lab_words.specs.Command.{help};
ghost use Rattle.top_plans.specs.Shelf.{Held};
ghost use Rattle.lab_program.specs.Texts.{Carries};

use lab_words::help_text;
use std::alloc::Global;
use top_plans::Status;

/// The list of the commands, or want of memory. Nothing is read.
pub fn list_text(alloc: Global) -> Result<Vec<u8>, Status>
    ensures { (held : Held) → Carries (plan_for help) held held result }
{
    Ok(help_text(alloc)?)
}
