//! A test of running out of memory: scripts during which the refusal of any one growth of memory leaves no other trace than
//! `nomemory`.
//!
//! The test makes the calls of a transcript on an engine, twice. Wherever it runs out of memory once, each reply is the
//! transcript's, or `nomemory` where the command may lack memory and would have been accepted. Such a command is made
//! again at once, and then its reply and all later ones are the transcript's: so a refused growth has changed nothing.
//! Memory is refused at most once in both turns. So an engine that answers `nomemory` unasked in both fails. Of two
//! races one at most runs out of memory, and what the other leaves is a whole history that the checker finds right. Of two
//! followers of one feed one at most finds none, and has told a beginning of what the other tells. Of two dumps one at most
//! finds none, and has written nothing. Nothing depends on this crate.
//!
//! Some growths come only where much was called before: a list of 256 versions turns into blocks, a full block is
//! halved, reads go over blocks, a scan makes room in forty lone keys, and 16,384 marks are swept. Each has a story, which
//! is made and not typed: what prepares the engine, the calls in question, whose growths alone are refused, what is asked
//! behind a refusal, because all that stood has to stand, and what is asked in the end.
//!
//! ```text
//!                      the growth that is refused is this call's      and the reply again
//! open - - 0           nomemory                                       opened 1
//! begin 20             nomemory                                       started
//! put 20 a 2           nomemory                                       written
//! commit 20            committed 1      it takes no memory
//! close 30             closed 30 0      it takes no memory
//! poll 1 10            nomemory                                       messages 3
//! ```
//!
//! The script `refused-growths` at the top refuses the first growth, the second, and so on to the last.
#![tactic(auto)]

#[cfg(test)]
mod tests;
