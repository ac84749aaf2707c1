//! What a script is read from and what a transcript is written to, with any reader as a source and any writer as a sink.
ghost use Rattle.std.specs.Prelude.{◌≡◌, ◌≤◌, ◌<◌, [], false, take, length, IfOk, OnErr};
ghost use Rattle.sessions.specs.Devices.{Reads, Writes, reads_of, writes_of, with_given, with_failed_read, with_taken, with_failed_write};
ghost use Rattle.std.specs.Io.KnownBytes.{ReadConsumes, WriteAppends};

use byte_log::{ByteLog, Growth};
use std::io::{Read, Write};

/// A device failed to read. It is not tried again.
#[derive(Clone, Copy, Debug, PartialEq, Eq)]
pub struct ReadFailed;

/// A device that gives bytes, read by read. Proofs know what it gave and how often it failed.
pub trait Source {
    ghost reads: { Self → Reads };

    /// Reads once, into the front of the block, which has 65536 bytes at least: a read costs as much however few it asks
    /// for. It may wait for the device. No bytes are its end.
    fn read(&mut self, block: &mut [u8]) -> Result<usize, ReadFailed>
        requires room { 65536 ≤ length block.old }
        ensures count { IfOk result (λ n. n ≤ length block.new) }
        ensures given { IfOk result (λ n. reads self.new ≡ with_given (reads self.old) (take n block.new)) }
        ensures failed { OnErr result (reads self.new ≡ with_failed_read (reads self.old)) };
}

/// A device failed to write, or took nothing. It is not tried again.
#[derive(Clone, Copy, Debug, PartialEq, Eq)]
pub struct WriteFailed;

/// A device that takes bytes, write by write. Proofs know what it took and how often it failed.
pub trait Sink {
    ghost writes: { Self → Writes };

    /// Writes once: as many bytes from the front as the device takes.
    fn write(&mut self, bytes: &[u8]) -> Result<usize, WriteFailed>
        requires some { 0 < length bytes.now }
        ensures least { IfOk result (λ n. 0 < n) }
        ensures most { IfOk result (λ n. n ≤ length bytes.now) }
        ensures taken { IfOk result (λ n. writes self.new ≡ with_taken (writes self.old) (take n bytes.now)) }
        ensures failed { OnErr result (writes self.new ≡ with_failed_write (writes self.old)) };
}

/// A reader, with what proofs know of its reads: what they gave, and one byte for each that found the end, or failed.
#[derive(Drop)]
pub struct Reading<R> {
    pub reader: R,
    ended: bool,
    given: ByteLog,
    ends: ByteLog,
    failed: ByteLog,
}

impl<R: Read> Reading<R> {
    /// The reader, of which nothing was read here.
    pub fn new(reader: R) -> Reading<R>
        ensures reader { result.reader ≡ reader }
        ensures ended { result.ended ≡ false }
        ensures given { result.given.bytes ≡ [] }
        ensures ends { result.ends.bytes ≡ [] }
        ensures failed { result.failed.bytes ≡ [] }
    {
        Reading {
            reader,
            ended: false,
            given: ByteLog::new(),
            ends: ByteLog::new(),
            failed: ByteLog::new(),
        }
    }
}

impl<R: Read> Source for Reading<R> {
    ghost reads = { reads_of };

    fn read(&mut self, block: &mut [u8]) -> Result<usize, ReadFailed>
        ensures count { IfOk result (λ n. n ≤ length block.new) }
        ensures given { IfOk result (λ n. reads_of self.new ≡ with_given (reads_of self.old) (take n block.new)) }
        ensures failed { OnErr result (reads_of self.new ≡ with_failed_read (reads_of self.old)) }
        // where the reader tells its bytes, these are they
        ensures known { ReadConsumes (R.remaining self.old.reader) (R.remaining self.new.reader) result block.new }
    {
        match self.reader.read(block) {
            Ok(count) => {
                let bytes = &block[..count];
                self.given = self.given.and(&Growth { bytes });
                self.ended = count == 0;
                if count == 0 {
                    self.ends = self.ends.and(&Growth { bytes: &[0] });
                }
                Ok(count)
            }
            Err(_) => {
                self.failed = self.failed.and(&Growth { bytes: &[0] });
                Err(ReadFailed)
            }
        }
    }
}

/// A writer, with what proofs know of its writes: what they took, and one byte for each that failed.
#[derive(Drop)]
pub struct Writing<W> {
    pub writer: W,
    taken: ByteLog,
    failed: ByteLog,
}

impl<W: Write> Writing<W> {
    /// The writer, to which nothing was written here.
    pub fn new(writer: W) -> Writing<W>
        ensures writer { result.writer ≡ writer }
        ensures taken { result.taken.bytes ≡ [] }
        ensures failed { result.failed.bytes ≡ [] }
    {
        Writing {
            writer,
            taken: ByteLog::new(),
            failed: ByteLog::new(),
        }
    }
}

impl<W: Write> Sink for Writing<W> {
    ghost writes = { writes_of };

    fn write(&mut self, bytes: &[u8]) -> Result<usize, WriteFailed>
        ensures least { IfOk result (λ n. 0 < n) }
        ensures most { IfOk result (λ n. n ≤ length bytes.now) }
        ensures taken { IfOk result (λ n. writes_of self.new ≡ with_taken (writes_of self.old) (take n bytes.now)) }
        ensures failed { OnErr result (writes_of self.new ≡ with_failed_write (writes_of self.old)) }
        // where the writer tells its bytes, these are they
        ensures known { WriteAppends (W.contents self.old.writer) (W.contents self.new.writer) result bytes.now }
    {
        match self.writer.write(bytes) {
            Ok(count) if count > 0 => {
                let bytes = &bytes[..count];
                self.taken = self.taken.and(&Growth { bytes });
                Ok(count)
            }
            _ => {
                self.failed = self.failed.and(&Growth { bytes: &[0] });
                Err(WriteFailed)
            }
        }
    }
}
