//! Names of definitions, ports, references, operators and media, as texts give them.
ghost use Rattle.std.specs.Prelude.{◌≡◌, ◌↔◌, IsTrue, IfOk, false};
ghost use Rattle.syn_base.specs.Name.{begins_name, is_name, is_name_byte, is_digit};
ghost use Rattle.std.specs.List.{list_all};

use crate::memory::OutOfMemory;
use std::alloc::{AllocError, Global};
use std::marker::Model;

/// The most bytes of a name.
const LONGEST: usize = 32;

/// A name: 1 to 32 letters, digits and `_`, of which the first is no digit. Contracts see its bytes.
#[derive(Drop)]
pub struct Name {
    bytes: Vec<u8>,
}

impl Model for Name {
    ghost use Rattle.std.specs.Prelude.{ℕ, List, IsTrue};
    ghost use Rattle.syn_base.specs.Name.{is_name};

    ghost Value = { List ℕ };

    ghost view = { λ s. s.bytes.items };

    ghost invariant = { λ s. IsTrue (is_name s.bytes.items) };
}

/// Why a text was made no name.
#[derive(Clone, Copy, Debug, PartialEq, Eq)]
pub enum NameFault {
    /// The text is no name.
    BadName,
    OutOfMemory,
}

impl From<AllocError> for NameFault {
    ghost use Rattle.syn_base.specs.declared.name.NameFault.TheVariants.{OutOfMemory};

    ghost from_gives = { λ _ e. e ≡ OutOfMemory };

    fn from(_error: AllocError) -> NameFault {
        NameFault::OutOfMemory
    }
}

impl Name {
    /// The name that a text is. BadName comes exactly where it is none.
    pub fn new(alloc: Global, text: &[u8]) -> Result<Name, NameFault>
        ensures ok { IfOk result (λ n. n ≡ text.now) }
        ensures bad { (result ≡ Err NameFault.BadName) ↔ (is_name text.now ≡ false) }
    {
        if !is_allowed(text) {
            return Err(NameFault::BadName);
        }
        Ok(Name {
            bytes: Vec::from_slice(alloc, text)?,
        })
    }

    /// The same name once more.
    pub fn copy(&self, alloc: Global) -> Result<Name, OutOfMemory>
        ensures { IfOk result (λ n. n ≡ self.now) }
    {
        Ok(Name {
            bytes: Vec::from_slice(alloc, self.bytes.as_slice())?,
        })
    }

    /// Its bytes.
    pub fn as_bytes(&self) -> &[u8]
        ensures same { result.now ≡ self.now }
        ensures name { IsTrue (is_name self.now) }
    {
        self.bytes.as_slice()
    }
}

/// Whether a text is a name.
fn is_allowed(text: &[u8]) -> bool
    ensures { result ≡ is_name text.now }
{
    begins(text) && text.len() <= LONGEST && all_parts(text)
}

/// Whether a text is not empty and begins with no digit.
fn begins(text: &[u8]) -> bool
    ensures { result ≡ begins_name text.now }
{
    match text {
        [] => false,
        [first, ..] => !is_decimal(*first),
    }
}

/// Whether each byte of a text may stand in a name.
fn all_parts(text: &[u8]) -> bool
    ensures { result ≡ list_all is_name_byte text.now }
{
    text.iter().all(|byte| is_part(*byte))
}

/// Whether a byte may stand in a name: a letter, a digit or `_`.
fn is_part(byte: u8) -> bool
    ensures { result ≡ is_name_byte byte }
{
    byte.is_ascii_alphabetic() || is_decimal(byte) || byte == b'_'
}

/// Whether a byte is a digit.
fn is_decimal(byte: u8) -> bool
    ensures { result ≡ is_digit byte }
{
    byte.is_ascii_digit()
}
