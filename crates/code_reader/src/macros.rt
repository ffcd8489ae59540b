//! The macro of a name, with which a line begins.
ghost use Rattle.std.specs.Prelude.{◌≡◌, IfSome, Some, bytes_eq, map, slice_get};
ghost use Rattle.macro_code.specs.Macros.{word_of};
ghost use Rattle.macro_code.specs.Forms.{macro_of, macros};

use case_table::{CaseTable, case_arms};
use macro_code::Macro;

/// The macro of this name. Those of instructions are tried before a table of all is made.
pub fn find_macro(name: &[u8]) -> Option<Macro>
    ensures { result ≡ macro_of name.now }
{
    match find_instruction(name) {
        Some(found) => Some(found),
        None => find_any(name),
    }
}

/// The macro of an instruction of this name, with which most lines begin. Its first byte tells which are tried.
fn find_instruction(name: &[u8]) -> Option<Macro>
    ensures { IfSome result (λ found. macro_of name.now ≡ Some found) }
{
    match name {
        [b'S', ..] => find_among(name, &[Macro::Suc0, Macro::Suc1]),
        [b'P', ..] => find_among(name, &[Macro::Pre0, Macro::Pre1]),
        [b's', ..] => find_among(name, &[Macro::Sync, Macro::Send]),
        [b'r', ..] => find_among(name, &[Macro::Recv]),
        _ => None,
    }
}

/// The macro of this name, of those that are tried.
fn find_among(name: &[u8], tried: &[Macro]) -> Option<Macro>
    ensures { IfSome result (λ found. macro_of name.now ≡ Some found) }
{
    for found in tried {
        if is_name_of(name, *found) {
            return Some(*found);
        }
    }
    None
}

/// Whether a macro has this name.
fn is_name_of(name: &[u8], found: Macro) -> bool
    ensures { result ≡ bytes_eq name.now (word_of found) }
{
    name == found.word().as_bytes()
}

/// The macro of this name, of all macros.
fn find_any(name: &[u8]) -> Option<Macro>
    ensures { result ≡ macro_of name.now }
{
    match macro_table().find(name) {
        Some(place) => macro_at(place),
        None => None,
    }
}

/// The names of the macros, each once.
fn macro_table() -> CaseTable<'static, 18>
    ensures { result ≡ map word_of macros }
{
    let mut table = CaseTable::new();
    table.add(Macro::Processor.word().as_bytes());
    table.add(Macro::Semaphores.word().as_bytes());
    table.add(Macro::Alloc.word().as_bytes());
    table.add(Macro::Thread.word().as_bytes());
    table.add(Macro::EndThread.word().as_bytes());
    table.add(Macro::Main.word().as_bytes());
    table.add(Macro::EndMain.word().as_bytes());
    table.add(Macro::SpawnThread.word().as_bytes());
    table.add(Macro::WaitEndThread.word().as_bytes());
    table.add(Macro::Loop.word().as_bytes());
    table.add(Macro::EndLoop.word().as_bytes());
    table.add(Macro::Suc0.word().as_bytes());
    table.add(Macro::Suc1.word().as_bytes());
    table.add(Macro::Pre0.word().as_bytes());
    table.add(Macro::Pre1.word().as_bytes());
    table.add(Macro::Send.word().as_bytes());
    table.add(Macro::Recv.word().as_bytes());
    table.add(Macro::Sync.word().as_bytes());
    table
}

/// The macro at a place of the table.
fn macro_at(place: usize) -> Option<Macro>
    ensures { result ≡ slice_get macros place }
{
    let found = case_arms!(place;
        Macro::Processor,
        Macro::Semaphores,
        Macro::Alloc,
        Macro::Thread,
        Macro::EndThread,
        Macro::Main,
        Macro::EndMain,
        Macro::SpawnThread,
        Macro::WaitEndThread,
        Macro::Loop,
        Macro::EndLoop,
        Macro::Suc0,
        Macro::Suc1,
        Macro::Pre0,
        Macro::Pre1,
        Macro::Send,
        Macro::Recv,
        Macro::Sync;
        else return None);
    Some(found)
}
