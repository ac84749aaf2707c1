//! Transcripts that are dumped while a growth may be refused: one of a line, of the checker, or of what is written.
use super::growths::{are_granted, may_be_refused};
use super::made::text_of_form;
use super::playing::sum;
use jobs::{End, dump_io};
use sessions::{Reading, Writing};
use std::alloc::Global;
use std::io::Cursor;

/// The calls. One row has a key and a value that are too long to be held in place, and one version is dead.
const TRANSCRIPT: &[u8] = b"0 0 begin 10 => started
1 0 put 10 a 1 => written
2 0 put 10 aaaaaaaaaaaaaaaaaaaaaaaaaaaaaaaa bbbbbbbbbbbbbbbbbbbbbbbbbbbbbbbb => written
3 0 commit 10 => committed 2
4 0 begin 20 => started
5 0 del 20 a => written
6 0 commit 20 => committed 1
7 0 close 20 => closed 20 0
8 0 collect 15 => collected 15 0
9 1 begin 30 => started
10 1 put 30 b 2 => written
11 1 commit 30 => committed 1
12 0 collect 20 => collected 20 2
";

/// The script that rebuilds its database.
const DUMP: &[u8] = b"0 begin 10
0 put 10 aaaaaaaaaaaaaaaaaaaaaaaaaaaaaaaa bbbbbbbbbbbbbbbbbbbbbbbbbbbbbbbb
0 commit 10
0 begin 30
0 put 30 b 2
0 commit 30
0 close 30
0 collect 20
";

/// Transactions that write one key of all, which every fourth deletes, and one of their own: its name and its value are
/// long.
const HISTORY: &str = "@11 5 4 1
0 begin A => started
0 put A k A => written
0 put A kAL L => written
0 commit A => committed 2
0 begin B => started
0 del B k => written
0 put B kBL L => written
0 commit B => committed 2
0 begin C => started
0 put C k C => written
0 put C kCL L => written
0 commit C => committed 2
0 begin D => started
0 put D k D => written
0 put D kDL L => written
0 commit D => committed 2
@
0 close 30 => closed 30 0
0 collect 11 => collected 11 0
";

/// The script that rebuilds their database.
const SCRIPT: &str = "@11 5 4 1
0 begin A
0 put A k A
0 put A kAL L
0 commit A
0 begin B
0 del B k
0 put B kBL L
0 commit B
0 begin C
0 put C k C
0 put C kCL L
0 commit C
0 begin D
0 put D k D
0 put D kDL L
0 commit D
@
0 close 30
0 collect 11
";

/// Dumps the transcript twice. How often memory was wanting, unless one of the two writes anything else, or ends otherwise.
pub(super) fn dump_twice(alloc: Global) -> Option<u64> {
    sum(dump(alloc, TRANSCRIPT, DUMP), dump(alloc, TRANSCRIPT, DUMP))
}

/// Dumps a history that is made, and once more where memory was wanting. How often it was, unless one of the two writes
/// anything else, or ends otherwise.
pub(super) fn dump_history(alloc: Global) -> Option<u64> {
    are_granted(alloc);
    let history = text_of_form(alloc, HISTORY, Some(0)).ok()?;
    match text_of_form(alloc, SCRIPT, None) {
        Ok(script) => dump_refused(alloc, &history, &script),
        Err(_) => None,
    }
}

fn dump_refused(alloc: Global, transcript: &[u8], script: &[u8]) -> Option<u64> {
    may_be_refused(alloc);
    let first = dump(alloc, transcript, script);
    are_granted(alloc);
    match dump(alloc, transcript, script) {
        Some(0) => first,
        _ => None,
    }
}

/// Dumps a transcript. How often memory was wanting: then nothing was written, and else the whole script.
fn dump(alloc: Global, transcript: &[u8], script: &[u8]) -> Option<u64> {
    let mut input = Reading::new(transcript);
    // it has room for the script, and takes no memory
    let mut output = Writing::new(Cursor::new([0u8; 4096]));
    let end = dump_io(alloc, None, &mut input, &mut output);
    let count = output.writer.position() as usize;
    told_in(end, output.writer.get_ref().get(..count)?, script)
}

fn told_in(end: End, written: &[u8], script: &[u8]) -> Option<u64> {
    match end {
        End::Done if written == script => Some(0),
        End::Memory if written.is_empty() => Some(1),
        _ => None,
    }
}
