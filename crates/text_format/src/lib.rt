//! The two formats of scripts, transcripts and messages as texts: how long a key, a value, a bound and a line may be,
//! and how a transcript begins.
//!
//! Readers of texts take a [`Format`] and ask it for its limits: `json_lines`, `word_lines`, `script` and `sessions`.
//! `command_line`, `jobs`, `follow`, `embedded`, `embedded_replica` and the examples choose one. Writers need none: they
//! write all that they are given.
//!
//! 1. Every script, command and message of format one is one of format two.
//! 2. Format one refuses a longer text, by the fault by which format two refuses a text beyond its own limit.
//!
//! ```text
//!                 key      value     bound     line      a transcript begins with
//! Format::One     1..=64   0..=1024  1..=65    4096      its first event
//! Format::Two     1..=256  0..=65536 1..=257   200000    the line "mvfeed 2"
//! ```
//!
//! Costs: each call is O(1), and takes no memory. Tests: `unit_tests`.
#![tactic(auto)]

ghost use Rattle.std.specs.Prelude.{◌≡◌, ◌≤◌, ◌+◌};
ghost use Rattle.text_format.specs.declared.Format.TheVariants.{Two};
ghost use Rattle.timestamps.specs.declared.key.TheConstants.{MAX_KEY_BYTES};
ghost use Rattle.timestamps.specs.declared.value.TheConstants.{MAX_VALUE_BYTES};
ghost use Rattle.spans.specs.declared.bound.TheConstants.{MAX_BOUND_BYTES};
ghost use Rattle.text_format.specs.Limits.{key_limit, value_limit, bound_limit, line_limit, header, header_lines, format_of};

use timestamps::{MAX_KEY_BYTES, MAX_VALUE_BYTES};

/// The format of a text.
#[derive(Clone, Copy, Debug, PartialEq, Eq)]
pub enum Format {
    /// Short keys, values and lines. A transcript begins with its first event.
    One,
    /// Keys and values as long as the database takes them, and lines that hold one of each, however they are spelled. A
    /// transcript begins with a line that names the format.
    Two,
}

impl Format {
    /// The format that a transcript is in: two exactly where it begins with that format's header.
    pub fn of_transcript(text: &[u8]) -> Format
        ensures { result ≡ format_of text.now }
    {
        if text.starts_with(Format::Two.header()) {
            return Format::Two;
        }
        Format::One
    }

    /// The most bytes that a key has.
    pub fn key_limit(self) -> usize
        ensures limit { result ≡ key_limit self }
        ensures fits { result ≤ MAX_KEY_BYTES }
        ensures whole { self ≡ Two → result ≡ MAX_KEY_BYTES }
    {
        match self {
            Format::One => 64,
            Format::Two => MAX_KEY_BYTES,
        }
    }

    /// The most bytes that a value has.
    pub fn value_limit(self) -> usize
        ensures limit { result ≡ value_limit self }
        ensures fits { result ≤ MAX_VALUE_BYTES }
        ensures whole { self ≡ Two → result ≡ MAX_VALUE_BYTES }
    {
        match self {
            Format::One => 1024,
            Format::Two => MAX_VALUE_BYTES,
        }
    }

    /// The most bytes that a bound has: one more than a key.
    pub fn bound_limit(self) -> usize
        ensures limit { result ≡ bound_limit self }
        ensures fits { result ≤ MAX_BOUND_BYTES }
        ensures next { result ≡ key_limit self + 1 }
    {
        self.key_limit() + 1
    }

    /// The most bytes that a line has before its newline.
    pub fn line_limit(self) -> usize
        ensures { result ≡ line_limit self }
    {
        match self {
            Format::One => 4096,
            Format::Two => 200000,
        }
    }

    /// The lines that a transcript begins with, before its first event.
    pub fn header(self) -> &'static [u8]
        ensures { result.now ≡ header self }
    {
        match self {
            Format::One => b"",
            Format::Two => b"mvfeed 2\n",
        }
    }

    /// How many lines the header has.
    pub fn header_lines(self) -> u64
        ensures lines { result ≡ header_lines self }
        ensures few { result ≤ 1 }
    {
        u64::from(self == Format::Two)
    }
}
