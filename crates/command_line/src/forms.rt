//! The command line as a table: each command with its words, from which clap reads them and writes help.

use crate::examples::{CHECK, DUMP, FOLLOW, RACE, RUN, STATE};
use crate::version::VERSION;
use clap::builder::ValueParser;
use clap::{Arg, ArgAction, ArgGroup, Command};
use std::alloc::{AllocError, Global};

/// A word that a command may have behind its name.
#[derive(Clone, Copy)]
struct Word {
    name: &'static str,
    takes: Takes,
    help: &'static str,
}

/// How a word is written, with the name that help has for its value, and what the value has to be.
#[derive(Clone, Copy)]
enum Takes {
    /// `--name`
    Nothing,
    /// `--name VALUE`
    Value(&'static str, ValueParser<'static>),
    /// `VALUE` alone, which has to be there
    Place(&'static str, ValueParser<'static>),
    /// `--name FILE`, and none of these words
    FileWithout(&'static [&'static str]),
}

/// Words of which one at most is given, or exactly one where it is required.
#[derive(Clone, Copy)]
struct OneOf {
    name: &'static str,
    words: &'static [&'static str],
    required: bool,
}

/// A command.
#[derive(Clone, Copy)]
struct CommandForm {
    name: &'static str,
    about: &'static str,
    usage: &'static str,
    /// How its help ends.
    example: &'static str,
    words: &'static [Word],
    choices: &'static [OneOf],
}

const NUMBER: ValueParser<'static> = ValueParser::Unsigned(0, u64::MAX);

/// A timestamp, or 0.
const TIMESTAMP: ValueParser<'static> = ValueParser::Unsigned(0, 9223372036854775807);

const SESSIONS: ValueParser<'static> = ValueParser::Signed(1, 64);

const RING: Word = Word {
    name: "ring",
    takes: Takes::Value("N", ValueParser::Signed(1, 65536)),
    help: "1 to 65536, without effect: feeds once kept so many rows [default: 1024]",
};

const FORMAT: Word = Word {
    name: "format",
    takes: Takes::Value("N", ValueParser::Signed(1, 2)),
    help: "The format of the texts, 1 or 2 [default: 1]",
};

const FORMS: [CommandForm; 6] = [
    CommandForm {
        name: "run",
        about: "Make the calls of a script, and write what happened",
        usage: "mvfeed run [OPTIONS] < SCRIPT",
        example: RUN,
        words: &[
            Word {
                name: "seats",
                takes: Takes::Value("N", SESSIONS),
                help: "How many sessions a script may have, 1 to 64 [default: 64]",
            },
            RING,
            Word {
                name: "first",
                takes: Takes::Value("N", NUMBER),
                help: "The position of the first event [default: 0]",
            },
            FORMAT,
        ],
        choices: &[],
    },
    CommandForm {
        name: "race",
        about: "Make the calls of a script's sessions in threads, and write what happened",
        usage: "mvfeed race [OPTIONS] <N> < SCRIPT",
        example: RACE,
        words: &[
            Word {
                name: "sessions",
                takes: Takes::Place("N", SESSIONS),
                help: "How many sessions the script has, 1 to 64",
            },
            RING,
            FORMAT,
        ],
        choices: &[],
    },
    CommandForm {
        name: "check",
        about: "Say whether a transcript is right, or where it is not",
        usage: "mvfeed check [OPTIONS] < TRANSCRIPT",
        example: CHECK,
        words: &[Word {
            name: "events",
            takes: Takes::Value("N", NUMBER),
            help: "How many events the transcript has to have [default: any number]",
        }],
        choices: &[],
    },
    CommandForm {
        name: "state",
        about: "Write the state after a transcript: what holds closed and the horizon, and how far each feed has come",
        usage: "mvfeed state [OPTIONS] < TRANSCRIPT",
        example: STATE,
        words: &[Word {
            name: "live",
            takes: Takes::Nothing,
            help: "Leave out the two counts that a database in use can't tell",
        }],
        choices: &[],
    },
    CommandForm {
        name: "dump",
        about: "Write the script that rebuilds the database of a transcript",
        usage: "mvfeed dump [OPTIONS] < TRANSCRIPT",
        example: DUMP,
        words: &[Word {
            name: "at",
            takes: Takes::Value("T", TIMESTAMP),
            help: "Close at this timestamp at least [default: 0]",
        }],
        choices: &[],
    },
    CommandForm {
        name: "follow",
        about: "Apply a feed's messages to a replica of its span, and write it at each resolved message",
        usage: "mvfeed follow [OPTIONS] <--cursor <T>|--initial <T>|--seed <FILE>> < MESSAGES",
        example: FOLLOW,
        words: &FOLLOWER,
        choices: &[
            OneOf {
                name: "start",
                words: &["cursor", "initial", "seed"],
                required: true,
            },
            OneOf {
                name: "shown",
                words: &["view", "changes"],
                required: false,
            },
        ],
    },
];

const FOLLOWER: [Word; 10] = [
    Word {
        name: "lo",
        takes: Takes::Value("KEY", ValueParser::String),
        help: "The least key of the span [default: -, no bound]",
    },
    Word {
        name: "hi",
        takes: Takes::Value("KEY", ValueParser::String),
        help: "The key that the span ends below [default: -, no bound]",
    },
    Word {
        name: "cursor",
        takes: Takes::Value("T", TIMESTAMP),
        help: "Begin with no rows at this timestamp",
    },
    Word {
        name: "initial",
        takes: Takes::Value("T", TIMESTAMP),
        help: "Begin as an initial feed of this timestamp does",
    },
    Word {
        name: "seed",
        takes: Takes::FileWithout(&["lo", "hi"]),
        help: "Begin with the rows, the span and the timestamp of the last scanat of this transcript",
    },
    Word {
        name: "feed",
        takes: Takes::Value("N", NUMBER),
        help: "Take only what polls of this feed told [default: every message]",
    },
    Word {
        name: "view",
        takes: Takes::Nothing,
        help: "Write the rows at each resolved message, and not their number alone",
    },
    Word {
        name: "changes",
        takes: Takes::Nothing,
        help: "Write the rows at each resolved message whose keys changed since, or that they are gone",
    },
    Word {
        name: "complete",
        takes: Takes::Nothing,
        help: "Write when the rows are complete between resolved messages too",
    },
    FORMAT,
];

/// The program's command line, as clap is to read it. No function here has a way out while it holds a command, since that
/// is dear to prove.
pub fn command<'a>(alloc: Global) -> Result<Command<'a>, AllocError> {
    let commands = commands(alloc)?;
    Command::new(alloc, "mvfeed")
        .about("A multiversion timestamp database whose changes leave it as ordered streams")
        .after_help("The guide is docs/GUIDE.md. The help of each command ends with an example.")
        .version(VERSION)
        .subcommand_required(true)
        .subcommands(commands)
}

fn commands<'a>(alloc: Global) -> Result<Vec<Command<'a>>, AllocError> {
    let mut commands = Vec::new(alloc);
    for form in FORMS {
        put(&mut commands, command_of(alloc, form))?;
    }
    Ok(commands)
}

/// Adds what was made, unless memory was wanted.
fn put<T: Drop>(list: &mut Vec<T>, made: Result<T, AllocError>) -> Result<(), AllocError> {
    list.push(made?)?;
    Ok(())
}

fn command_of<'a>(alloc: Global, form: CommandForm) -> Result<Command<'a>, AllocError> {
    let groups = groups(alloc, form.choices)?;
    let arguments = arguments(alloc, form.words)?;
    head(alloc, form).args(arguments)?.groups(groups)
}

fn arguments<'a>(alloc: Global, words: &[Word]) -> Result<Vec<Arg<'a>>, AllocError> {
    let mut arguments = Vec::new(alloc);
    for word in words {
        put(&mut arguments, argument(alloc, *word))?;
    }
    Ok(arguments)
}

fn groups<'a>(alloc: Global, choices: &[OneOf]) -> Result<Vec<ArgGroup<'a>>, AllocError> {
    let mut groups = Vec::new(alloc);
    for choice in choices {
        put(&mut groups, group(alloc, *choice))?;
    }
    Ok(groups)
}

fn head<'a>(alloc: Global, form: CommandForm) -> Command<'a> {
    Command::new(alloc, form.name)
        .about(form.about)
        .override_usage(form.usage)
        .after_help(form.example)
}

fn group<'a>(alloc: Global, choice: OneOf) -> Result<ArgGroup<'a>, AllocError> {
    ArgGroup::new(alloc, choice.name)
        .required(choice.required)
        .args(choice.words)
}

fn argument<'a>(alloc: Global, word: Word) -> Result<Arg<'a>, AllocError> {
    let arg = Arg::new(alloc, word.name).help(word.help);
    match word.takes {
        Takes::Nothing => Ok(arg.long(word.name).action(ArgAction::SetTrue)),
        Takes::Value(name, parser) => Ok(with_value(arg.long(word.name), name, parser)),
        Takes::Place(name, parser) => Ok(with_value(arg.required(true), name, parser)),
        Takes::FileWithout(others) => {
            with_value(arg.long(word.name), "FILE", ValueParser::String).conflicts_with_all(others)
        }
    }
}

fn with_value<'a>(arg: Arg<'a>, name: &'static str, parser: ValueParser<'static>) -> Arg<'a> {
    arg.value_name(name)
        .action(ArgAction::Set)
        .value_parser(parser)
}
