//! A port's length by name, and a name as a tree has it, for the kinds and the frontiers of vertices.
ghost use Rattle.std.specs.Prelude.{◌≡◌, IfOk};
ghost use Rattle.algo_laws.specs.Ports.{len_of};

use body_lang::Port;
use std::alloc::Global;
use syn_base::{Items, Name, OutOfMemory};

/// The length of the port of a name, 0 where there is none.
pub fn port_len(ports: &[Port], name: &Name) -> u32
    ensures { result ≡ len_of ports.now name.now }
{
    for port in ports {
        if name.as_bytes() == port.name.as_bytes() {
            return port.len;
        }
    }
    0
}

/// The bytes of a name.
pub fn copy_name(alloc: Global, name: &Name) -> Result<Items<u8>, OutOfMemory>
    ensures { IfOk result (λ bytes. bytes ≡ name.now) }
{
    Ok(Items::new(Vec::from_slice(alloc, name.as_bytes())?))
}
