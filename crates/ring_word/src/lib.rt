// The words of a command that say how many peaks the protector remembers: `--ring N`.

#![tactic(auto)]

ghost use Rattle.std.specs.Prelude.{◌≡◌, ◌-◌, cond, Some, None};
ghost use Rattle.std.specs.Option.{unwrap_or};
ghost use Rattle.ring_word.specs.Words.{is_digit, is_ring, number_of, asked_by, granted};

use saturation_protector_buffer::{is_capacity, usual_capacity};

// What the first two words of a command ask for: the capacity, and the number of the first word behind them: 3, or 1
// where they say no capacity, and then it is the usual one.
#[derive(Clone, Copy)]
pub struct Wish {
    pub capacity: u32,
    pub from: usize,
}

// Whether a word is `--ring`.
fn is_ring(word: &[u8]) -> bool
    ensures { result ≡ is_ring word.now }
{
    word == b"--ring".as_slice()
}

// The number that a decimal digit is.
#[tactic(auto, unfolding(crate::specs::Words::is_digit))]
fn digit(byte: u8) -> Option<u32>
    ensures { result ≡ cond (is_digit byte) (Some (byte - 48)) None }
{
    if (b'0' <= byte) & (byte <= b'9') {
        Some(u32::from(byte - b'0'))
    } else {
        None
    }
}

// The number that a word of one or two digits is.
#[tactic(auto, unfolding(crate::specs::Words::number_of, crate::specs::Words::one_digit, crate::specs::Words::two_digits))]
fn spelled(word: &[u8]) -> Option<u32>
    ensures { unwrap_or result 0 ≡ number_of word.now }
{
    match word {
        [ones] => digit(*ones),
        [tens, ones] => Some(10 * digit(*tens)? + digit(*ones)?),
        _ => None,
    }
}

// The same, and 0 for what is no number: no ring has that capacity.
fn number_of(word: &[u8]) -> u32
    ensures { result ≡ number_of word.now }
{
    spelled(word).unwrap_or(0)
}

// What the first two words of a command ask for; a word that is not there is empty. Where no ring has that capacity, it is an Err.
#[tactic(auto, unfolding(crate::specs::Words::granted, crate::specs::Words::asked_by))]
pub fn ring_asked(first: &[u8], second: &[u8]) -> Result<Wish, Wish>
    ensures { result ≡ granted (asked_by first.now second.now) }
{
    if is_ring(first) {
        let capacity = number_of(second);
        let wish = Wish { capacity, from: 3 };
        if is_capacity(capacity) {
            Ok(wish)
        } else {
            Err(wish)
        }
    } else {
        Ok(Wish {
            capacity: usual_capacity(),
            from: 1,
        })
    }
}
