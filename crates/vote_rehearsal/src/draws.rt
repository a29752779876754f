// The numbers that a rehearsal draws.
ghost use Rattle.std.specs.Prelude.{◌≡◌};
ghost use Rattle.vote_rehearsal.specs.Draws as terms;

const MULTIPLIER: u128 = 6_364_136_223_846_793_005;

const INCREMENT: u128 = 1_442_695_040_888_963_407;

const MODULUS: u128 = 18_446_744_073_709_551_616;

/// The number after another.
fn next_number(number: u64) -> u64
    ensures { result ≡ terms.next_number number }
{
    ((number as u128 * MULTIPLIER + INCREMENT) % MODULUS) as u64
}

/// The number that stands so many draws after another.
#[tactic(auto, using(crate::proofs::Drawing::draws))]
pub(crate) fn number_after(number: u64, draws: u32) -> u64
    ensures { result ≡ terms.number_after number draws }
{
    let mut last = number;
    let mut done = 0;
    'draws: while done < draws {
        last = next_number(last);
        done += 1;
    }
    last
}

/// What is drawn so many draws after a number.
pub(crate) fn drawn(number: u64, draws: u32) -> u32
    ensures { result ≡ terms.drawn_number number draws }
{
    (next_number(number_after(number, draws)) / 4_294_967_296) as u32
}
