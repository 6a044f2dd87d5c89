// Lower-case hex digits, read and written, and the newline.
ghost use Rattle.std.specs.Prelude.{◌≡◌, ◌%◌, ◌/◌, ◌<◌};
ghost use Rattle.text.specs.Hex.{digit, hex2, hex4, is_digit, value_of};

use crate::limits::BYTE_VALUES;

pub const NEWLINE: u8 = b'\n';

// Lower case alone: `is_ascii_hexdigit`, and `to_digit` below, take upper case too.
#[tactic(auto, using(std::proofs::lemmas::Bool::Decides::nat_tests), unfolding(crate::specs::Hex::is_digit))]
pub fn is_digit(b: u8) -> bool
    ensures { result ≡ is_digit b }
{
    matches!(b, b'0'..=b'9' | b'a'..=b'f')
}

// The number that a digit stands for; 0 for another byte. It is no Option: the definition says 0 too, and `is_digit` has been asked before.
#[tactic(auto, using(std::proofs::lemmas::Bool::Decides::nat_tests), unfolding(crate::specs::Hex::value_of))]
pub fn value_of(b: u8) -> u8
    ensures { (result ≡ value_of b) × (result < 16) }
{
    match b {
        b'0'..=b'9' => b - b'0',
        b'a'..=b'f' => b - b'a' + 10,
        _ => 0,
    }
}

const DIGITS: &[u8; 16] = b"0123456789abcdef";

// The last digit of a number.
pub fn last_digit(v: usize) -> u8
    ensures { result ≡ digit (v % 16) }
{
    DIGITS[v % 16]
}

// The last two digits of a number. Printed by hand: the crate `hex` would serve, but the library stands on `std` alone (README, "What is
// assumed"; scripts/test-axioms). What `write!` promises speaks of its Ok alone, so that the arm of its Err stays open.
pub fn two_digits(v: usize) -> [u8; 2]
    ensures { result ≡ hex2 v }
{
    [last_digit(v / 16), last_digit(v)]
}

// The last four.
pub fn four_digits(v: usize) -> [u8; 4]
    ensures { result ≡ hex4 v }
{
    let [a, b] = two_digits(v / BYTE_VALUES);
    let [c, d] = two_digits(v);
    [a, b, c, d]
}
