//! Number words: decimal digits without a leading zero.
ghost use Rattle.std.specs.Prelude.{◌≡◌, ◌+◌, ◌++◌, ◌<◌, ◌≤◌, ◌^◌, true, decimal, vec_len, vec_capacity, OnOk, OnErr};
ghost use Rattle.std.specs.Option.{SomeIff};
ghost use Rattle.std.specs.Str.{all_ascii_digits};
ghost use Rattle.std.specs.Str.Parse.{digits_value};
ghost use Rattle.json_lines.specs.Meaning.{number_of};
ghost use Rattle.json_lines.specs.Messages.{Keeps};

use itoa::Buffer;
use std::alloc::AllocError;

/// Writes a number word at the end. Memory is wanted only where there is no room for 20 bytes more, and the buffer keeps
/// the room that it has.
#[inline]
#[tactic(auto, using(crate::proofs::Writing::keeping, std::proofs::lemmas::Fmt::decimal_digit))]
pub fn put_number(out: &mut Vec<u8>, number: u64) -> Result<(), AllocError>
    ensures ok { OnOk result (out.new.items ≡ out.old.items ++ decimal number) }
    ensures err { OnErr result (Keeps out.old.items out.new.items) }
    ensures room { OnErr result (vec_capacity out.old < vec_len out.old + 20) }
    ensures capacity { vec_capacity out.old ≤ vec_capacity out.new }
{
    if number < 10 {
        out.push(b'0' + number as u8)?;
        return Ok(());
    }
    put_digits(out, number)
}

#[inline(never)]
#[tactic(auto, using(crate::proofs::Writing::keeping))]
fn put_digits(out: &mut Vec<u8>, number: u64) -> Result<(), AllocError>
    ensures ok { OnOk result (out.new.items ≡ out.old.items ++ decimal number) }
    ensures err { OnErr result (Keeps out.old.items out.new.items) }
    ensures room { OnErr result (vec_capacity out.old < vec_len out.old + 20) }
    ensures capacity { vec_capacity out.old ≤ vec_capacity out.new }
{
    let mut buffer = Buffer::new();
    out.extend_from_slice(buffer.format(number).as_bytes())
}

/// The number that a word is, from 0 to 18446744073709551615, or `None` where it is no number word.
#[tactic(auto, unfolding(crate::specs::Meaning::number_of))]
pub fn number_of(word: &[u8]) -> Option<u64>
    ensures { result ≡ number_of word.now }
{
    match word {
        [] => None,
        [b'0'] => Some(0),
        [b'0', ..] => None,
        _ => digits_value(word),
    }
}

/// The number that decimal digits write, where it fits.
fn digits_value(digits: &[u8]) -> Option<u64>
    ensures { SomeIff result (all_ascii_digits digits.now ≡ true × (digits_value 10 digits.now < 2 ^ 64)) (digits_value 10 digits.now) }
{
    let mut number: u64 = 0;
    for digit in digits {
        if !digit.is_ascii_digit() {
            return None;
        }
        let tens = number.checked_mul(10)?;
        number = tens.checked_add(u64::from(*digit - b'0'))?;
    }
    Some(number)
}
