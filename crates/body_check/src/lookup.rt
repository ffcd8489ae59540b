//! The ports of a definition by name.
ghost use Rattle.std.specs.Prelude.{◌≡◌, ◌≤◌, IfSome};
ghost use Rattle.algo_rules.specs.Ports.{len_of};
ghost use Rattle.body_check.specs.Bounds.{AreShort};
ghost use Rattle.body_check.specs.Lines.{found_len};

use algo_rules::Port;
use syn_base::Name;

/// The length of the port of a name, if there is one.
pub fn port_len(ports: &[Port], name: &Name) -> Option<u32>
    requires { AreShort ports.now }
    ensures found { result ≡ found_len ports.now name.now }
    ensures short { IfSome result (λ len. len ≤ 64) }
{
    for port in ports {
        if name.as_bytes() == port.name.as_bytes() {
            return Some(port.len);
        }
    }
    None
}

/// The length of the port of a name, 0 where there is none.
#[tactic(auto, using(crate::proofs::PortsFound::len_or_zero))]
pub fn len_of(ports: &[Port], name: &Name) -> u32
    requires { AreShort ports.now }
    ensures len { result ≡ len_of ports.now name.now }
    ensures short { result ≤ 64 }
{
    port_len(ports, name).unwrap_or(0)
}
