// The number in an argument of a program.
ghost use Rattle.std.specs.Prelude.{◌≡◌};
ghost use Rattle.input.specs.Argument.{number_in};

// The number that the bytes are in decimal, at most the largest of 64 bits; 0 where one of them is no digit.
#[tactic(auto, using(crate::proofs::Digits::others))]
pub fn number_in(bytes: &[u8]) -> u64
    ensures { result ≡ number_in bytes.now }
{
    let mut value: u64 = 0;
    for byte in bytes {
        match byte {
            b'0'..=b'9' => {
                value = value
                    .saturating_mul(10)
                    .saturating_add(u64::from(*byte - b'0'))
            }
            _ => return 0,
        }
    }
    value
}
