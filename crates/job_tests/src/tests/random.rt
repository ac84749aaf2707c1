//! Scripts of commands of all kinds, drawn by a fixed sequence.

use std::alloc::{AllocError, Global};

/// Numbers that look drawn at random, always the same ones (Marsaglia's xorshift).
#[derive(Drop)]
pub(crate) struct Dice {
    state: u64,
}

impl Dice {
    /// Draws from a seed, which is not 0.
    pub(crate) fn new(seed: u64) -> Dice {
        Dice { state: seed }
    }

    pub(crate) fn below(&mut self, limit: u64) -> u64 {
        self.state ^= self.state.wrapping_shl(13);
        self.state ^= self.state.wrapping_shr(7);
        self.state ^= self.state.wrapping_shl(17);
        self.state.checked_rem(limit).unwrap_or(0)
    }

    /// One of the words, which commas part.
    pub(crate) fn one_of(&mut self, words: &'static str) -> &'static str {
        let count = words.split(',').count() as u64;
        let index = self.below(count) as usize;
        words.split(',').nth(index).unwrap_or("-")
    }
}

/// Puts a form with its capital letters replaced, and ends the line: `A` by the first of the numbers and so on, and `V`
/// by the first of the words.
pub(crate) fn put_form(
    alloc: Global,
    out: &mut Vec<u8>,
    form: &str,
    numbers: &[u64],
    words: &[&str],
) -> Result<(), AllocError> {
    for byte in form.as_bytes() {
        match *byte {
            letter @ b'A'..=b'L' => put_number(alloc, out, numbers, letter.saturating_sub(b'A'))?,
            letter @ b'V'..=b'Z' => put_word(out, words, letter.saturating_sub(b'V'))?,
            other => out.push(other)?,
        }
    }
    out.push(b'\n')?;
    Ok(())
}

fn put_number(
    alloc: Global,
    out: &mut Vec<u8>,
    numbers: &[u64],
    place: u8,
) -> Result<(), AllocError> {
    let number = numbers.get(usize::from(place)).copied().unwrap_or(0);
    out.extend_from_slice(format!(in alloc; "{number}")?.as_bytes())
}

fn put_word(out: &mut Vec<u8>, words: &[&str], place: u8) -> Result<(), AllocError> {
    let word = words.get(usize::from(place)).copied().unwrap_or("-");
    out.extend_from_slice(word.as_bytes())
}

/// The shape of a script's timestamps.
#[derive(Clone, Copy)]
pub(crate) struct Shape {
    /// The dice's seed, which isn't 0.
    pub(crate) seed: u64,
    /// The number that all timestamps lie above.
    pub(crate) first: u64,
    /// How far two timestamps that follow one another lie apart.
    pub(crate) stride: u64,
}

impl Shape {
    /// A timestamp by its place from the first.
    fn at(self, place: u64) -> u64 {
        self.first.saturating_add(place.saturating_mul(self.stride))
    }
}

/// The forms of lines: a seat at A and a timestamp at B, one that is about closed at C, one before it at D, a feed or a
/// protection at E, a small number at F and a gap at G; a key at V, and bounds at W and X.
const FORMS: &str =
    "A begin B,A begin B,A begin B,A begin B,A begin B,A begin B,A begin B,A begin B,A put B V F,A put B V F,A put B V F,A put B V F,A put B V F,A put B V F,A del B V,A del B V,A get B V,A get B V,A get B V,A get B V,A scan B W X,A scan B W X,A commit B,A commit B,A commit B,A commit B,A abort B,A abort B,0 close C,0 close C,1 closehard C,1 closehard C,2 readat C V,2 readat C V,3 scanat D W X,3 scanat D W X,0 poll E 50,0 poll E 50,0 poll E F,0 poll E F,0 poll E F,0 poll E F,3 collect C,3 collect C,2 release E,2 release E,rarer,rarer";

/// The forms of what is rarer.
const RARER: &str =
    "0 open - - D,0 open a b C,0 openinitial - c D,0 openinitial a - C,0 openevery - - D G,0 openinitialevery - - D G,1 cancel E,1 protect C,1 protect C,3 stats";

/// A script of so many lines. Timestamps rise slowly with the turn, so that transactions cross one another and closings
/// meet them, and there are about as many feeds and protections as are asked for.
pub(crate) fn script(alloc: Global, shape: Shape, lines: u64) -> Result<Vec<u8>, AllocError> {
    let mut dice = Dice::new(shape.seed);
    let mut script = Vec::new(alloc);
    for turn in 0..lines {
        let numbers = numbers(&mut dice, shape, turn);
        let key = dice.one_of("a,b,c,%25,ab");
        let low = dice.one_of("-,a,b,%25");
        let high = dice.one_of("-,c,ac,b");
        let mut form = dice.one_of(FORMS);
        if form == "rarer" {
            form = dice.one_of(RARER);
        }
        put_form(alloc, &mut script, form, &numbers, &[key, low, high])?;
    }
    Ok(script)
}

/// The numbers of a line.
fn numbers(dice: &mut Dice, shape: Shape, turn: u64) -> [u64; 7] {
    let place = (turn / 8).saturating_add(dice.below(14)).saturating_sub(3);
    // The session of a timestamp, or now and then another.
    let seat = if dice.below(20) == 0 {
        dice.below(4)
    } else {
        place % 4
    };
    let closed = (turn / 8).saturating_sub(dice.below(6));
    let earlier = if dice.below(4) == 0 {
        dice.below(40)
    } else {
        dice.below(6)
    };
    [
        seat,
        shape.at(place),
        shape.at(closed),
        shape.at(closed.saturating_sub(earlier)),
        dice.below((turn / 72).saturating_add(2)),
        dice.below(6),
        dice.below(9).saturating_mul(shape.stride),
    ]
}
