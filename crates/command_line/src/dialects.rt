//! Which form a faulty line of a script or of a transcript should have, and what it is where it comes from elsewhere: a
//! line with an answer, a word of another program, a number with a zero in front.

use word_lines::commands::take_form;
use word_lines::fault::LineFault;
use word_lines::table::Verb;
use word_lines::words::words_in;

/// A text that a line belongs to.
#[derive(Clone, Copy, Debug, PartialEq, Eq)]
pub enum Dialect {
    Script,
    Transcript,
}

/// The form of a line whose command stands where it should, or what belongs there.
pub(crate) fn form_of(line: &[u8], fault: LineFault, dialect: Dialect) -> Option<&'static str> {
    if fault == LineFault::Session {
        return Some("a session is a number below how many sessions there are, 64 at most");
    }
    if fault == LineFault::Number && has_zero_in_front(line) {
        return Some("a number doesn't begin with a zero");
    }
    let is_transcript = dialect == Dialect::Transcript;
    let mut words = words_in(line);
    if is_transcript {
        let _position = words.take_word()?;
    }
    let _session = words.take_word()?;
    Some(match words.take_word() {
        None => "a command stands behind the session, as in `0 begin 10`",
        Some(_) if fault == LineFault::WordCount && is_transcript && !has_word(line, b"=>") => {
            "a transcript's line goes on with `=>` and the answer, as in `0 0 begin 10 => started`"
        }
        Some(name) => verb_of(name).map_or(COMMANDS, words_of_form),
    })
}

/// How many words a command takes, and which.
fn words_of_form(verb: Verb) -> &'static str {
    match verb {
        Verb::Begin => "begin takes 1 word: TS",
        Verb::Get => "get takes 2 words: TS KEY",
        Verb::Put => "put takes 3 words: TS KEY VALUE, with %20 for a space",
        Verb::Del => "del takes 2 words: TS KEY",
        Verb::Commit => "commit takes 1 word: TS",
        Verb::Abort => "abort takes 1 word: TS",
        Verb::Close => "close takes 1 word: TO",
        Verb::Scan => "scan takes 3 words: TS LO HI",
        Verb::CloseHard => "closehard takes 1 word: TO",
        Verb::ReadAt => "readat takes 2 words: T KEY",
        Verb::ScanAt => "scanat takes 3 words: T LO HI",
        Verb::Protect => "protect takes 1 word: T",
        Verb::Release => "release takes 1 word: ID",
        Verb::Collect => "collect takes 1 word: TO",
        Verb::Open => "open takes 3 words: LO HI CURSOR",
        Verb::OpenInitial => "openinitial takes 3 words: LO HI CURSOR",
        Verb::OpenEvery => "openevery takes 4 words: LO HI CURSOR GAP",
        Verb::OpenInitialEvery => "openinitialevery takes 4 words: LO HI CURSOR GAP",
        Verb::Poll => "poll takes 2 words: FEED MAX",
        Verb::Cancel => "cancel takes 1 word: FEED",
        Verb::Stats => "stats takes no word",
    }
}

const COMMANDS: &str =
    "the commands are begin, get, scan, put, del, commit, abort, close, closehard, readat, scanat, protect, release, collect, open, openinitial, openevery, openinitialevery, poll, cancel and stats";

/// The hint for a line that comes from elsewhere.
pub(crate) fn stranger(line: &[u8], dialect: Dialect) -> Option<&'static str> {
    let mut words = words_in(line);
    let first = words.take_word()?;
    let second = words.take_word().unwrap_or(b"");
    match dialect {
        Dialect::Script if is_command(first) => Some(without_session(line)),
        Dialect::Script => in_script(first, second, words.take_word().unwrap_or(b"")),
        Dialect::Transcript => in_transcript(first, second),
    }
}

/// The hint for a script's line that begins with a command.
fn without_session(line: &[u8]) -> &'static str {
    if has_word(line, b".") {
        "only a server's line has no session, and `.` for its timestamp: write both, as in `0 put 10 a 1`"
    } else {
        "a line begins with its session's number, as in `0 begin 10`"
    }
}

/// The hint for a script's line that begins with these words, of which the first is no command.
fn in_script(first: &[u8], second: &[u8], third: &[u8]) -> Option<&'static str> {
    if first == b"mvfeed".as_slice() {
        return Some(
            "a script of format two has no first line of its own: leave it out, and ask for --format 2",
        );
    }
    if is_command(second) && third == b".".as_slice() {
        return Some("only a server's line has `.` for its timestamp: write the number");
    }
    if is_number(first) && is_number(second) && is_command(third) {
        return Some(
            "a transcript's line isn't a script's: leave out its position, and `=>` with what follows it",
        );
    }
    None
}

/// The hint for a transcript's line that begins with these words.
fn in_transcript(first: &[u8], second: &[u8]) -> Option<&'static str> {
    if first == b"fault".as_slice() || first == b"spent".as_slice() {
        return Some(
            "a run ended here, at a line of its script: what stands above is the transcript of those before",
        );
    }
    if is_command(first) || is_number(first) && is_command(second) {
        return Some(
            "a script's line isn't a transcript's: `mvfeed run` makes the transcript of a script",
        );
    }
    None
}

fn is_command(word: &[u8]) -> bool {
    verb_of(word).is_some()
}

/// The command of this name.
fn verb_of(name: &[u8]) -> Option<Verb> {
    let mut words = words_in(name);
    match take_form(&mut words) {
        Ok(form) => Some(form.verb),
        Err(_) => None,
    }
}

/// Whether a word has digits alone.
pub(crate) fn is_number(word: &[u8]) -> bool {
    for byte in word {
        if !byte.is_ascii_digit() {
            return false;
        }
    }
    !word.is_empty()
}

/// Whether a word is digits, more than one, of which the first is a zero.
fn has_zero_in_front(line: &[u8]) -> bool {
    for word in line.split(is_space) {
        if word.len() > 1 && word.first() == Some(&b'0') && is_number(word) {
            return true;
        }
    }
    false
}

/// Whether a line has this word.
fn has_word(line: &[u8], wanted: &[u8]) -> bool {
    for word in line.split(is_space) {
        if word == wanted {
            return true;
        }
    }
    false
}

fn is_space(byte: &u8) -> bool {
    *byte == b' '
}
