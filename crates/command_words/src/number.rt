//! Numbers in the words of a command: of workers, layers and reactions.
ghost use Rattle.std.specs.Prelude.{◌≡◌, ◌≤◌};
ghost use Rattle.command_words.specs.Command.{number_up_to};

/// The number that one or more digits write, where it is from 1 to `most`. Leading zeros are allowed.
#[tactic(auto, using(crate::proofs::Numbers::from_none, crate::proofs::Numbers::digit_read, crate::proofs::Numbers::no_digit, crate::proofs::Numbers::too_large))]
pub fn number_up_to(most: u32, text: &[u8]) -> Option<u32>
    requires { most ≤ 1000000 }
    ensures { result ≡ number_up_to most text.now }
{
    let mut number = 0;
    for byte in text {
        if !byte.is_ascii_digit() {
            return None;
        }
        number = 10 * number + u32::from(*byte - b'0');
        if number > most {
            return None;
        }
    }
    if number == 0 { None } else { Some(number) }
}
