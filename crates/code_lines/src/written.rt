//! An instruction as its line has it: its numbers of buffers and pairs may be wider than those of a program.

use syn_base::Items;

/// An instruction.
#[derive(Drop)]
pub enum Written {
    Suc0(u64),
    Suc1(u64),
    Pre0(u64),
    Pre1(u64),
    Call {
        vertex: u32,
        ins: Items<u64>,
        outs: Items<u64>,
    },
    Send {
        buffer: u64,
        to: u32,
    },
    Recv {
        buffer: u64,
        from: u32,
    },
    Sync {
        from: u32,
        to: u32,
    },
}
