//! Tests of crates by themselves: words and spans, texts, replicas, and what an engine is asked without a command. Most are
//! tables, whose lines say what is asked and which answer is wanted. Nothing depends on this crate.
//!
//! They stand in one crate apart from what they test, since the gate proves a crate that has tests two times, and joins
//! all that a test crate stands on.
//!
//! ```text
//! words       timestamps, keys, values, bounds: their limits and order; the parts of a span without some keys; leases
//! texts       texts that are read, with their faults, and texts that are written
//! replicas    which messages a replica takes, and the rows, keys and timestamp that it then has
//! consumers   with which rows a replica begins that is called by text
//! engines     a run of a list of calls; how far looks find room; which row a dump has still to write
//! ```
//!
//! **Words.** A case of `spans_of_keys` takes the keys b and d out of a span, and asks which keys the parts hold, of a,
//! b, b with a zero byte behind it (`x`), c, d, e:
//!
//! ```text
//! row              the span     its parts                           the keys that they hold
//! ,=3 a.xc.e       - -          - b, b%00 d, d%00 -                 a x c e
//! b,d=2 ..xc..     b d          b b, b%00 d                         x c
//! e,b=1 ......     e b          e b, which holds no key             none
//! ```
//!
//! **Texts.** A row says: read as a command (`c`), a script (`s`), a transcript (`t`), a message (`j`) or a word (`w`),
//! how many seats there are, the line and the code of the fault, and the text. In the text `|` ends a line, and `'` is a
//! quotation mark. A capital letter asks for format two. A text without a fault, at 0 0, comes back as it was once it is
//! written again.
//!
//! ```text
//! row                                        the text
//! c 64 0 0 0 begin 10|                       is a command, and is written so
//! c 64 1 3 0 begin 01|                       has fault 3 in line 1: `01` is no number word
//! s 4 3 6 0 stats|1 stats|4 stats|0 stats|   has fault 6 in line 3: of 4 seats none is 4
//! w - 1 9 %41                                has fault 9: `%41` is `A`, and spelled so
//! ```
//!
//! **Replicas.** A table begins with a replica `from` a cursor on, with two bounds, the cursor and its first rows, or
//! with an `initial` one. Each line has the wanted answer behind `=`: 0 where a message is taken, else the fault's code.
//!
//! ```text
//! line              the call                         the answer wanted
//! from - - 0=0      of all keys, from 0 on           0: made
//! receive 10 b 1=0  b is 1 at 10                     0: taken
//! receive 10 a 1=1  a is 1 at 10                     1: it doesn't come after b at 10
//! keys 1= b         the keys that have the value 1   b
//! ```
#![tactic(auto)]

#[cfg(test)]
mod tests;
