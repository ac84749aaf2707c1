//! Closings, snapshots, protections and collections.

/// Transcripts of runs that end well, each behind what it is about.
pub(super) const TRANSCRIPTS: &str = "@ closing
0 0 begin 10 => started
1 0 close 100 => closed 9 0
2 0 commit 10 => committed 0
3 0 close 100 => closed 100 0
4 0 begin 50 => belowclosed 100
5 0 close 20 => closed 100 0
6 0 begin 100 => belowclosed 100
7 0 begin 101 => started
8 0 commit 50 => ended
@ a dropped delete keeps its mark
0 0 begin 3 => started
1 0 put 3 a 1 => written
2 0 commit 3 => committed 1
3 0 begin 5 => started
4 0 del 5 a => written
5 0 commit 5 => committed 1
6 1 begin 20 => started
7 2 begin 15 => started
8 0 close 10 => closed 10 0
9 1 get 20 a => none
10 0 collect 10 => collected 10 2
11 2 put 15 a 2 => toolate
12 0 stats => stats 0 1 0 10 10
@ hard closing, snapshots, protection
0 0 begin 10 => started
1 0 put 10 a 1 => written
2 1 begin 50 => started
3 1 put 50 b 2 => written
4 2 closehard 20 => closed 20 1
5 0 commit 10 => ended
6 1 commit 50 => committed 1
7 2 close 50 => closed 50 0
8 2 scanat 50 - - => rows 1
row b 2
9 2 scanat 50 c - => rows 0
10 2 protect 20 => protected 1
11 2 collect 50 => collected 20 0
12 0 release 1 => released
13 0 release 1 => noprotection
14 2 collect 50 => collected 50 0
15 2 protect 20 => belowhorizon 50
@ what holds the horizon back
0 0 close 40 => closed 40 0
1 0 protect 10 => protected 1
2 1 protect 30 => protected 2
3 0 collect 40 => collected 10 0
4 1 release 1 => released
5 0 collect 40 => collected 30 0
6 0 protect 29 => belowhorizon 30
7 0 open - - 29 => belowhorizon 30
8 0 open - - 30 => opened 1
9 0 release 2 => released
10 0 collect 40 => collected 30 0
11 1 cancel 1 => cancelled
12 0 collect 40 => collected 40 0
13 0 stats => stats 0 0 0 40 40
";
