//! Quotients in thousandths.
ghost use Rattle.std.specs.Prelude.{◌≡◌, ◌<◌, ◌*◌, ◌/◌};
ghost use Rattle.lower_bound.specs.Numbers.{ratio};

/// How often one number is in another, rounded down to thousandths: `whole` times, and so many
/// thousandths more.
#[derive(Clone, Copy, Debug, PartialEq, Eq)]
pub struct Ratio {
    pub whole: u64,
    pub thousandths: u64,
}

/// How often the second number is in the first; 0 where the second is 0.
pub fn ratio_of(number: u64, of: u64) -> Ratio
    ensures { result ≡ ratio number of }
{
    if of == 0 {
        return Ratio {
            whole: 0,
            thousandths: 0,
        };
    }
    Ratio {
        whole: number / of,
        thousandths: thousandths(number % of, of),
    }
}

/// A part in thousandths, rounded down.
#[tactic(auto, using(crate::proofs::Thousandths::below_thousand))]
fn thousandths(part: u64, of: u64) -> u64
    requires { part < of }
    ensures { result ≡ part * 1000 / of }
{
    let thousandths = u128::from(part) * 1000 / u128::from(of);
    thousandths as u64
}
