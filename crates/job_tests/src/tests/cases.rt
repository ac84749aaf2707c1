//! Cases of runs, checks and races: what is asked, the input, the end and the output.
//!
//! A case begins at `@`. Its first line asks for a run with its seats, its ring and its first position, for a check,
//! for a race with its sessions and its ring, or, as `cache`, to run a script and to follow a feed of what is written.
//! Then the texts are of a format, which else is one, and reads fail behind so many bytes, or the output has room for
//! so many. The input ends at `=`. In both texts `'` is a quotation mark, `~3*ab;` is `ababab`, and `$` at the end
//! takes the last newline away.

/// Faulty lines, the last of them behind others, whose events are kept.
pub(super) const FAULTS: &str = "@ run 64 1024 0
0 begin 10$
= faulty
fault 1 7 nonewline
@ run 64 1024 0
64 stats
= faulty
fault 1 6 session
@ run 64 1024 0
0  stats
= faulty
fault 1 1 wordcount
@ run 64 1024 0
0 begin
= faulty
fault 1 1 wordcount
@ run 64 1024 0
0 begin 01
= faulty
fault 1 3 number
@ run 64 1024 0
0 jump
= faulty
fault 1 2 unknowncommand
@ run 64 1024 0
0 get 10 %41
= faulty
fault 1 9 badbyte
@ run 64 1024 0
0 get 10 -
= faulty
fault 1 4 keylength
@ run 64 1024 0

= faulty
fault 1 1 wordcount
@ run 64 1024 0
0 stats 
= faulty
fault 1 1 wordcount
@ run 64 1024 0
0 stats\r
= faulty
fault 1 9 badbyte
@ run 64 1024 0
00 stats
= faulty
fault 1 6 session
@ run 64 1024 0
0 begin 18446744073709551616
= faulty
fault 1 3 number
@ run 64 1024 0
0 put 10 a %2d
= faulty
fault 1 9 badbyte
@ run 64 1024 0
0 put 10 a a%2D
= faulty
fault 1 9 badbyte
@ run 64 1024 0
~4096*a;$
= faulty
fault 1 7 nonewline
@ run 64 1024 0
~4097*a;$
= faulty
fault 1 8 linetoolong
@ run 64 1024 0
~4097*a;
= faulty
fault 1 8 linetoolong
@ run 64 1024 0
0 put 10 a ~1025*b;
= faulty
fault 1 5 valuelength
@ run 64 1024 0
0 get 10 ~65*a;
= faulty
fault 1 4 keylength
@ run 64 1024 0
0 open ~66*a; - 0
= faulty
fault 1 4 keylength
@ run 64 1024 0
0 begin 10
0 put 10 ~64*a; 1
0 put 10 ~65*a; 1
= faulty
0 0 begin 10 => started
1 0 put 10 ~64*a; 1 => written
fault 3 4 keylength
";

/// Numbers of seats, rings and first positions. Where no line comes nothing is written, also where no position is left.
/// A database that is not opened reads nothing.
pub(super) const OPTIONS: &str = "@ run 64 1024 0
= done
@ run 64 1024 18446744073709551615
= done
@ run 64 1024 18446744073709551613
0 begin 10
0 commit 10
0 stats
= spent
18446744073709551613 0 begin 10 => started
18446744073709551614 0 commit 10 => committed 0
spent 3
@ run 64 1024 18446744073709551614
0 begin 10
0 commit 10
0 stats
= spent
18446744073709551614 0 begin 10 => started
spent 2
@ run 64 1024 18446744073709551615
0 begin 10
0 commit 10
0 stats
= spent
spent 1
@ run 1 1024 0
0 begin 10
= done
0 0 begin 10 => started
@ run 1 1024 0
1 begin 10
= faulty
fault 1 6 session
@ run 3 1024 0
2 begin 10
= done
0 2 begin 10 => started
@ run 3 1024 0
3 begin 10
= faulty
fault 1 6 session
@ run 64 1024 0
63 begin 10
= done
0 63 begin 10 => started
@ run 64 1024 7
0 begin 10
1 close 5
= done
7 0 begin 10 => started
8 1 close 5 => closed 5 0
@ run 0 1 0
0 begin 10
= seats
@ run 65 1 0
0 begin 10
= seats
@ run 1 0 0
0 begin 10
= ring
@ run 1 65537 0
0 begin 10
= ring
";

/// Reads and writes that fail: the first reads give two lines and five bytes of the third.
pub(super) const FAILING: &str = "@ run 64 1024 0 fails 29
0 begin 10
0 put 10 a 1
0 commit 10
1 begin 20
1 get 20 a
= input
0 0 begin 10 => started
1 0 put 10 a 1 => written
@ run 64 1024 0 room 30
0 begin 10
0 put 10 a 1
0 commit 10
1 begin 20
1 get 20 a
= output
0 0 begin 10 => started
1 0 pu$
@ check fails 9
7 0 stats => stats 0 0 0 0 0
= input
@ check room 2
7 0 stats => stats 0 0 0 0 0
= output
ye$
@ race 2 1024 fails 40
0 begin 10
0 put 10 a 1
0 commit 10
1 begin 20
1 scan 20 - -
1 commit 20
= input
@ race 2 1024 room 2
0 begin 10
0 put 10 a 1
0 commit 10
1 begin 20
1 scan 20 - -
1 commit 20
= output
0 $
@ race 2 1024 room 2
0 jump
= output
fa$
";

/// Races: one session alone, faulty lines, which are all that is told, and a ring that is too long.
pub(super) const RACES: &str = "@ race 1 1024
0 begin 10
0 put 10 a 1
0 commit 10
= done
0 0 begin 10 => started
1 0 put 10 a 1 => written
2 0 commit 10 => committed 1
@ race 2 1024
0 begin 10
1 jump
0 stats
= faulty
fault 2 2 unknowncommand
@ race 2 1024
0 begin 10
2 stats
= faulty
fault 2 6 session
@ race 2 1024
0 begin 10
0 stats$
= faulty
fault 2 7 nonewline
@ race 2 65537
0 begin 10
0 put 10 a 1
0 commit 10
1 begin 20
1 scan 20 - -
1 commit 20
= ring
";

/// Checks with their verdicts: of no event, of events that begin anywhere, of faults, of a value that was never
/// written, of an event that is not there, and of running out of memory where it may be and where it may not.
pub(super) const VERDICTS: &str = "@ check
= done
yes
@ check
7 0 stats => stats 0 0 0 0 0
= done
yes
@ check
0 0 stats => started
= no
no 0
@ check
0 0 stats => startet
= faulty
fault 1 10 reply
@ check
0 0 stats
= faulty
fault 1 1 wordcount
@ check
0 0 scanat 0 - - => rows 18446744073709551615
= faulty
fault 2 11 follow
@ check
0 0 begin 10 => started
1 0 put 10 a 1 => written
2 0 commit 10 => committed 1
3 1 begin 20 => started
4 1 get 20 a => value 2
= no
no 4
@ check
0 0 begin 10 => started
1 0 put 10 a 1 => written
3 1 begin 20 => started
4 1 get 20 a => value 1
= no
no 3
@ check
0 0 begin 20 => started
1 0 scan 20 - - => nomemory
2 1 begin 10 => started
3 1 put 10 z 1 => written
= done
yes
@ check
0 0 begin 20 => started
1 0 commit 20 => nomemory
= no
no 1
@ check
0 0 get 5 a => nomemory
= no
no 0
@ check
0 0 stats => started
1 0 stats$
= faulty
fault 2 7 nonewline
@ check
7 0 begin 10 => started
8 0 commit 10 => committed 0
= done
yes
@ check
18446744073709551615 0 begin 10 => started
= done
yes
@ check
0 0 begin 10 => started
1 0 put 10 a 1 => nomemory
2 0 get 10 a => none
3 0 commit 10 => committed 0
= done
yes
";

/// Transcripts with a wrong event, whose position is told: a count of keys, a value that is not the transaction's own,
/// positions that are left out, come twice or go on behind the last, a seat that is not the owner, the reply of another
/// command, other rows, other messages, horizons that pass a feed and a protection, and a feed that was cancelled and
/// is not known.
pub(super) const WRONG: &str = "@ check
0 0 begin 10 => started
1 0 put 10 a 1 => written
2 0 commit 10 => committed 2
3 0 begin 20 => started
= no
no 2
@ check
0 0 begin 10 => started
1 0 put 10 a 1 => written
2 0 get 10 a => value 2
3 0 commit 10 => committed 1
= no
no 2
@ check
0 0 begin 10 => started
1 0 begin 20 => started
3 0 begin 30 => started
4 0 begin 40 => started
= no
no 3
@ check
5 0 begin 10 => started
6 0 begin 20 => started
6 0 begin 30 => started
= no
no 6
@ check
18446744073709551615 0 begin 10 => started
0 0 commit 10 => committed 0
= no
no 0
@ check
7 0 begin 10 => started
8 0 put 10 a 1 => written
9 0 commit 10 => committed 1
10 1 abort 10 => aborted
= no
no 10
@ check
0 0 begin 10 => started
1 0 commit 10 => aborted
= no
no 1
@ check
0 0 begin 10 => started
1 0 put 10 a 10 => written
2 0 scan 10 - - => rows 1
row a 11
= no
no 2
@ check
0 0 begin 10 => started
1 0 put 10 a 10 => written
2 0 scan 10 - - => rows 2
row a 10
row b 10
= no
no 2
@ check
0 0 begin 10 => started
1 0 put 10 a 10 => written
2 0 put 10 b 10 => written
3 0 scan 10 - - => rows 1
row a 10
= no
no 3
@ check
0 0 begin 10 => started
1 0 put 10 a 10 => written
2 0 scan 10 - - => written
= no
no 2
@ check
0 0 begin 10 => started
1 0 put 10 a 10 => written
2 0 commit 10 => committed 1
3 0 open - - 0 => opened 1
4 0 close 10 => closed 10 0
5 0 poll 1 1 => messages 1
{'after':'MTA=','key':'YQ==','updated':'11'}
= no
no 5
@ check
0 0 begin 10 => started
1 0 put 10 a 10 => written
2 0 commit 10 => committed 1
3 0 open - - 0 => opened 1
4 0 close 10 => closed 10 0
5 0 poll 1 1 => messages 1
{'after':null,'key':'YQ==','updated':'10'}
= no
no 5
@ check
0 0 begin 10 => started
1 0 put 10 a 10 => written
2 0 commit 10 => committed 1
3 0 open - - 0 => opened 1
4 0 close 10 => closed 10 0
5 0 poll 1 1 => messages 1
{'resolved':'10'}
= no
no 5
@ check
0 0 begin 10 => started
1 0 put 10 a 10 => written
2 0 commit 10 => committed 1
3 0 open - - 0 => opened 1
4 0 close 10 => closed 10 0
5 0 poll 1 1 => messages 1
{'after':'MTA=','key':'YQ==','updated':'10'}
6 0 poll 1 1 => messages 1
{'after':'MTA=','key':'YQ==','updated':'10'}
= no
no 6
@ check
0 0 begin 10 => started
1 0 put 10 a 10 => written
2 0 commit 10 => committed 1
3 0 open - - 0 => opened 1
4 0 close 10 => closed 10 0
5 0 collect 10 => collected 10 0
= no
no 5
@ check
0 0 close 30 => closed 30 0
1 0 protect 20 => protected 1
2 0 protect 25 => protected 2
3 0 release 1 => released
4 0 collect 30 => collected 30 0
= no
no 4
@ check
0 0 open - - 0 => opened 1
1 0 cancel 1 => cancelled
2 0 poll 1 0 => nofeed
= no
no 2
";
