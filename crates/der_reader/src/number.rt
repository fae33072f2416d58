//! Numbers as bytes.
ghost use Rattle.std.specs.Prelude.{◌≡◌, ◌≤◌, ◌<◌, ◌^◌, length};
ghost use Rattle.der_reader.specs.Number.{number};

// The number that some bytes are, the first the highest.
#[tactic(auto, using(crate::proofs::NumberLemmas::number_steps))]
pub(crate) fn number_of(digits: &[u8]) -> u32
    requires { length digits.now ≤ 4 }
    ensures { result ≡ number digits.now }
{
    let mut number: u32 = 0;
    for digit in digits {
        number = number * 256 + u32::from(*digit);
    }
    number
}
