//! What is wrong with a line, in words that go on behind `line N`.
ghost use Rattle.std.specs.Prelude.{◌≡◌};
ghost use Rattle.command_line.specs.Sentences.{words_of_line, words_of_message};

use follow::FollowFault;
use word_lines::fault::LineFault;

/// The words for a fault of a script or of a transcript.
pub(crate) fn words_of_line(fault: LineFault) -> &'static str
    ensures { result.now ≡ words_of_line fault }
{
    match fault {
        LineFault::WordCount => "has too few words, too many, or an empty one",
        LineFault::UnknownCommand => "has a command that there isn't",
        LineFault::Number => "has no number where one belongs",
        LineFault::KeyLength => "has a key of no bytes, or a key or a bound that is too long",
        LineFault::ValueLength => "has a value that is too long",
        LineFault::Session => "has a session that isn't a number below the number of sessions",
        LineFault::NoNewline => "has no newline at its end",
        LineFault::LineTooLong => "is longer than the format lets it be",
        LineFault::BadByte => "has a byte outside printable ASCII, or a word that spells no bytes",
        LineFault::Reply => "has no answer behind its `=>`",
        LineFault::Follow => "isn't what has to follow the answer above it",
    }
}

/// The words for a fault of a feed that is followed.
pub(crate) fn words_of_message(fault: FollowFault) -> &'static str
    ensures { result.now ≡ words_of_message fault }
{
    match fault {
        FollowFault::NotJson => "is no JSON",
        FollowFault::Shape => "isn't written as a message is",
        FollowFault::Number => "has a timestamp that is no number, or out of range",
        FollowFault::Base64 => "has a key or a value that isn't base64",
        FollowFault::Length => "has a key of no bytes, or a key or a value that is too long",
        FollowFault::NoNewline => "has no newline at its end",
        FollowFault::LineTooLong => "is longer than the format lets it be",
        FollowFault::NotAfter => "has a row that doesn't come after the messages above it",
        FollowFault::OutsideSpan => "has a key outside the span",
        FollowFault::ResolvedBack => "resolves what the messages above it have passed",
    }
}
