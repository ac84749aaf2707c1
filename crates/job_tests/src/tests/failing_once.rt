//! A read that failed isn't tried again, though a second try would give the rest.
use follow::{FollowEnd, FollowOptions, Shown, Start, follow_io};
use jobs::{DEFAULTS, End, RaceOptions, check_io, race_io, run_io};
use races::Open;
use sessions::{ReadFailed, Reading, Source, Writing};
use spans::Span;
use std::io::{Error, ErrorKind, Read, Result};
use std::test::Fail;
use text_format::Format;

/// Gives a text, fails once, and would give the other text then.
#[derive(Drop)]
struct FailingOnce<'a> {
    before: &'a [u8],
    behind: &'a [u8],
    fails: bool,
}

impl Read for FailingOnce<'_> {
    fn read(&mut self, buf: &mut [u8]) -> Result<usize> {
        if self.before.is_empty() && self.fails {
            self.fails = false;
            return Err(Error::from(ErrorKind::Interrupted));
        }
        if self.before.is_empty() {
            self.before = self.behind;
            self.behind = &[];
        }
        let count = self.before.len().min(buf.len());
        let (now, rest) = self.before.split_at(count);
        buf[..count].copy_from_slice(now);
        self.before = rest;
        Ok(count)
    }
}

/// The reader of a text that fails once, behind so many bytes.
fn failing(text: &'static str, length: usize) -> Reading<FailingOnce<'static>> {
    let (before, behind) = text.as_bytes().split_at(length.min(text.len()));
    Reading::new(FailingOnce {
        before,
        behind,
        fails: true,
    })
}

const SCRIPT: &str = "0 begin 10\n0 put 10 a 1\n0 commit 10\n";

// It fails within the second line.
#[test]
fn a_run_reads_no_more_once_a_read_has_failed(rt: HostRuntime) {
    let mut input = failing(SCRIPT, 16);
    let mut output = Writing::new(Vec::new(rt.alloc()));
    let end = run_io(
        &rt,
        rt.alloc(),
        DEFAULTS,
        Format::One,
        &mut input,
        &mut output,
    );
    assert!(rt; end == End::Input);
    assert!(rt; output.writer.as_slice() == b"0 0 begin 10 => started\n".as_slice());
    assert!(rt; input.reader.behind.len() == 20);
}

// Behind the first line, where what was read is a whole script.
#[test]
fn a_race_reads_no_more_once_a_read_has_failed(rt: HostRuntime) {
    let mut input = failing(SCRIPT, 11);
    let mut output = Writing::new(Vec::new(rt.alloc()));
    let options = RaceOptions {
        sessions: 1,
        ring: 1,
        format: Format::One,
    };
    let end = race_io(&rt, rt.alloc(), options, &Open, &mut input, &mut output);
    assert!(rt; end == End::Input);
    assert!(rt; output.writer.is_empty());
    assert!(rt; input.reader.behind.len() == 25);
}

// Behind the first line, where what was read is a whole transcript.
#[test]
fn a_check_reads_no_more_once_a_read_has_failed(rt: HostRuntime) {
    let mut input = failing(
        "0 0 begin 10 => started\n1 0 commit 10 => committed 0\n",
        24,
    );
    let mut output = Writing::new(Vec::new(rt.alloc()));
    let end = check_io(rt.alloc(), &mut input, &mut output);
    assert!(rt; end == End::Input);
    assert!(rt; output.writer.is_empty());
    assert!(rt; input.reader.behind.len() == 29);
}

#[test]
fn a_follower_reads_no_more_once_a_read_has_failed(rt: HostRuntime) {
    let mut input = failing("{\"resolved\":\"5\"}\n{\"resolved\":\"6\"}\n", 17);
    let mut output = Writing::new(Vec::new(rt.alloc()));
    let options = FollowOptions {
        span: Span { lo: None, hi: None },
        start: Start::Cursor(0),
        feed: None,
        shown: Shown::Count,
        complete: false,
        format: Format::One,
    };
    let end = follow_io(rt.alloc(), options, &mut input, &mut output);
    assert!(rt; end == FollowEnd::Input);
    assert!(rt; output.writer.as_slice() == b"resolved 5 0\n".as_slice());
    assert!(rt; input.reader.behind.len() == 17);
}

// An interrupted read is a failed one too: the adapter hands it on, and gives the rest to the next call alone.
#[test]
fn a_reader_that_fails_once_fails_its_source(rt: HostRuntime) {
    let mut input = failing("abc", 2);
    let mut block = [0u8; 8];
    assert!(rt; input.read(&mut block) == Ok(2) && &block[..2] == b"ab".as_slice());
    assert!(rt; input.read(&mut block) == Err(ReadFailed));
    assert!(rt; input.read(&mut block) == Ok(1) && &block[..1] == b"c".as_slice());
    assert!(rt; input.read(&mut block) == Ok(0));
}
