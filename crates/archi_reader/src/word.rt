//! The words of a line, read as numbers and as kinds of media for `reader`.
ghost use Rattle.std.specs.Prelude.{◌≡◌};
ghost use Rattle.syn_base.specs.Integer.{integer_of};
ghost use Rattle.archi_defs.specs.Text.{depth_of, is_kind, kind_of, up_to, version_of};

use archi_defs::MediumKind;
use syn_base::read_int;

/// Whether the word names a kind of media.
pub fn is_kind(w: &[u8]) -> bool
    ensures { result ≡ is_kind w.now }
{
    w == b"p2p".as_slice() || w == b"multi".as_slice()
}

/// The kind of media that the word names, if it names one.
pub fn kind_of(w: &[u8]) -> MediumKind
    ensures { result ≡ kind_of w.now }
{
    if w == b"multi".as_slice() {
        MediumKind::Multipoint
    } else {
        MediumKind::PointToPoint
    }
}

/// The number from 0 up to a bound that a word is.
pub fn read_up_to(most: u32, w: &[u8]) -> Option<u32>
    ensures { result ≡ up_to most (integer_of w.now) }
{
    match read_int(w) {
        Ok(number) => {
            if 0 <= number && number <= i64::from(most) {
                Some(number as u32)
            } else {
                None
            }
        }
        Err(_) => None,
    }
}

/// The number of places, 1 to 4, that a word is.
pub fn read_depth(w: &[u8]) -> Option<u32>
    ensures { result ≡ depth_of (integer_of w.now) }
{
    match read_int(w) {
        Ok(number) => {
            if 1 <= number && number <= 4 {
                Some(number as u32)
            } else {
                None
            }
        }
        Err(_) => None,
    }
}

/// The version that a word is, 1 or 2.
pub fn read_version(w: &[u8]) -> Option<u32>
    ensures { result ≡ version_of w.now }
{
    match w {
        b"1" => Some(1),
        b"2" => Some(2),
        _ => None,
    }
}
