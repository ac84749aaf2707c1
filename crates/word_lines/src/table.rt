//! The table of commands: the name of each, and how many arguments stand behind it.
ghost use Rattle.std.specs.Prelude.{◌≡◌, map};
ghost use Rattle.word_lines.specs.Table.{row_of, row_view, table};

/// A command's name, as a value.
#[derive(Clone, Copy, Debug, PartialEq, Eq)]
pub enum Verb {
    Begin,
    Get,
    Put,
    Del,
    Commit,
    Abort,
    Close,
    Scan,
    CloseHard,
    ReadAt,
    ScanAt,
    Protect,
    Release,
    Collect,
    Open,
    OpenInitial,
    OpenEvery,
    OpenInitialEvery,
    Poll,
    Cancel,
    Stats,
}

/// The command of a name, and how many arguments it takes.
#[derive(Clone, Copy)]
pub struct Form {
    pub verb: Verb,
    pub arguments: usize,
}

/// All commands, the most frequent first: the name of each, and its form.
static FORMS: [(&'static [u8], Verb, usize); 21] = [
    (b"begin", Verb::Begin, 1),
    (b"get", Verb::Get, 2),
    (b"put", Verb::Put, 3),
    (b"del", Verb::Del, 2),
    (b"commit", Verb::Commit, 1),
    (b"abort", Verb::Abort, 1),
    (b"close", Verb::Close, 1),
    (b"scan", Verb::Scan, 3),
    (b"closehard", Verb::CloseHard, 1),
    (b"readat", Verb::ReadAt, 2),
    (b"scanat", Verb::ScanAt, 3),
    (b"protect", Verb::Protect, 1),
    (b"release", Verb::Release, 1),
    (b"collect", Verb::Collect, 1),
    (b"open", Verb::Open, 3),
    (b"openinitial", Verb::OpenInitial, 3),
    (b"openevery", Verb::OpenEvery, 4),
    (b"openinitialevery", Verb::OpenInitialEvery, 4),
    (b"poll", Verb::Poll, 2),
    (b"cancel", Verb::Cancel, 1),
    (b"stats", Verb::Stats, 0),
];

/// The form of a name.
#[inline(always)]
pub(crate) fn form_of(name: &[u8]) -> Option<Form>
    ensures { result ≡ row_of table name.now }
{
    form_among(&FORMS, name)
}

#[inline(always)]
fn form_among(rows: &[(&'static [u8], Verb, usize)], name: &[u8]) -> Option<Form>
    ensures { result ≡ row_of (map row_view rows.now) name.now }
{
    for row in rows {
        if row.0 == name {
            return Some(Form {
                verb: row.1,
                arguments: row.2,
            });
        }
    }
    None
}
