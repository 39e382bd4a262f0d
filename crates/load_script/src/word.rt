//! The word that says how long a load is.
ghost use Rattle.std.specs.Prelude.{◌≡◌, ◌↔◌, ℕ, IfSome, IfNone, IsTrue, decimal};
ghost use Rattle.load_script.specs.Load.{SpellsTurns};

use crate::generating::LOAD_MAX;
use itoa::Buffer;

/// How many writes and reads the word says, from 1 to `LOAD_MAX`. None where it is not such a number in decimal digits,
/// with no zero in front.
pub fn turns_in(word: &str) -> Option<u32>
    ensures spelled { IfSome result (λ turns. SpellsTurns word.now turns) }
    ensures none { IfNone result ((turns : ℕ) → SpellsTurns word.now turns → ⊥) }
{
    let Ok(turns) = u32::from_str_radix(word, 10) else {
        return None;
    };
    if turns < 1 {
        return None;
    }
    if turns > LOAD_MAX {
        return None;
    }
    if is_spelled(word, turns) {
        Some(turns)
    } else {
        None
    }
}

/// Whether the word has the digits of the number, and nothing else.
fn is_spelled(word: &str, number: u32) -> bool
    ensures { IsTrue result ↔ (word.now ≡ decimal number) }
{
    word == Buffer::new().format(number)
}
