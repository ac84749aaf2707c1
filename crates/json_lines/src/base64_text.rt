//! Base64 (RFC 4648, the standard alphabet with padding), written straight into a buffer.
ghost use Rattle.std.specs.Prelude.{◌≡◌, ◌++◌, ◌∷◌, [], ◌<◌, length, slice_index, OnOk, OnErr};
ghost use Rattle.base64.specs.Rfc4648.{encode_group};
ghost use Rattle.json_lines.specs.Messages.{Keeps, base64, symbols};

use std::alloc::AllocError;

/// The symbol of each six bits.
const SYMBOLS: [u8; 64] = *b"ABCDEFGHIJKLMNOPQRSTUVWXYZabcdefghijklmnopqrstuvwxyz0123456789+/";

/// Writes the base64 of bytes.
#[tactic(auto, using(crate::proofs::Writing::keeping))]
pub fn put_base64(out: &mut Vec<u8>, bytes: &[u8]) -> Result<(), AllocError>
    ensures ok { OnOk result (out.new.items ≡ out.old.items ++ base64 bytes.now) }
    ensures err { OnErr result (Keeps out.old.items out.new.items) }
{
    let mut rest = bytes;
    while rest.len() >= 3 {
        let (group, others) = rest.split_at(3);
        let text = symbols_of_three(group[0], group[1], group[2]);
        out.extend_from_slice(&text)?;
        rest = others;
    }
    put_last(out, rest)
}

/// Writes the base64 of the last bytes, with its padding.
#[tactic(auto, using(crate::proofs::Writing::keeping))]
fn put_last(out: &mut Vec<u8>, bytes: &[u8]) -> Result<(), AllocError>
    requires { length bytes.now < 3 }
    ensures ok { OnOk result (out.new.items ≡ out.old.items ++ base64 bytes.now) }
    ensures err { OnErr result (Keeps out.old.items out.new.items) }
{
    match bytes {
        [] => Ok(()),
        [a] => out.extend_from_slice(&symbols_of_one(*a)),
        [a, b, ..] => out.extend_from_slice(&symbols_of_two(*a, *b)),
    }
}

fn symbols_of_three(a: u8, b: u8, c: u8) -> [u8; 4]
    ensures { result ≡ encode_group symbols a b c }
{
    [
        symbol(a / 4),
        symbol(a % 4 * 16 + b / 16),
        symbol(b % 16 * 4 + c / 64),
        symbol(c % 64),
    ]
}

#[tactic(auto, using(crate::proofs::Base64::base64_two))]
fn symbols_of_two(a: u8, b: u8) -> [u8; 4]
    ensures { result ≡ base64 (a ∷ b ∷ []) }
{
    [
        symbol(a / 4),
        symbol(a % 4 * 16 + b / 16),
        symbol(b % 16 * 4),
        b'=',
    ]
}

#[tactic(auto, using(crate::proofs::Base64::base64_one))]
fn symbols_of_one(a: u8) -> [u8; 4]
    ensures { result ≡ base64 (a ∷ []) }
{
    [symbol(a / 4), symbol(a % 4 * 16), b'=', b'=']
}

fn symbol(bits: u8) -> u8
    requires { bits < 64 }
    ensures { result ≡ slice_index symbols bits }
{
    SYMBOLS[bits as usize]
}
