//! Transactions: their reads, their scans, their writes and their ends.

/// Transcripts of runs that end well, each behind what it is about.
pub(super) const TRANSCRIPTS: &str = "@ two sessions
0 0 begin 10 => started
1 0 put 10 a 1 => written
2 0 commit 10 => committed 1
3 1 begin 20 => started
4 1 get 20 a => value 1
@ a write beneath a later read
0 0 begin 10 => started
1 1 begin 20 => started
2 1 get 20 a => none
3 0 put 10 a 1 => toolate
4 0 commit 10 => ended
5 1 commit 20 => committed 0
@ a write between two versions
0 0 begin 5 => started
1 0 put 5 a 1 => written
2 0 commit 5 => committed 1
3 0 begin 12 => started
4 0 put 12 a 2 => written
5 0 commit 12 => committed 1
6 1 begin 15 => started
7 1 get 15 a => value 2
8 0 begin 11 => started
9 0 put 11 a 3 => written
@ read, then write, by one transaction
0 0 begin 20 => started
1 0 get 20 a => none
2 0 put 20 a 1 => written
3 1 begin 10 => started
4 1 put 10 a 2 => toolate
@ an own read leaves no mark
0 0 begin 20 => started
1 0 put 20 a 1 => written
2 0 get 20 a => value 1
3 1 begin 10 => started
4 1 put 10 a 2 => written
@ an absent key was scanned
0 0 begin 20 => started
1 0 scan 20 - - => rows 0
2 1 begin 10 => started
3 1 put 10 z 1 => toolate
@ a blocked read
0 0 begin 10 => started
1 0 put 10 a 1 => written
2 1 begin 20 => started
3 2 begin 15 => started
4 1 get 20 a => blocked 10
5 0 commit 10 => committed 1
6 1 get 20 a => value 1
7 2 put 15 a 2 => toolate
@ scans that are blocked, and transactions that abort
0 0 begin 10 => started
1 0 put 10 a 1 => written
2 1 begin 20 => started
3 1 scan 20 - - => blocked 10
4 1 abort 10 => notowner
5 0 abort 10 => aborted
6 0 abort 10 => ended
7 1 scan 20 - - => rows 0
8 1 abort 20 => aborted
9 2 begin 15 => started
10 2 del 15 a => toolate
11 2 put 15 b 1 => ended
@ an own key in a scan
0 0 begin 20 => started
1 0 put 20 b 1 => written
2 0 scan 20 a c => rows 1
row b 1
3 1 begin 10 => started
4 1 put 10 b 2 => written
5 1 put 10 a 3 => toolate
@ reads and scans of many timestamps over two keys
0 0 begin 10 => started
1 0 put 10 b 1 => written
2 0 commit 10 => committed 1
3 0 begin 30 => started
4 0 scan 30 a - => rows 1
row b 1
5 0 begin 40 => started
6 0 get 40 b => value 1
7 1 begin 50 => started
8 1 put 50 b 2 => written
9 1 commit 50 => committed 1
10 0 begin 60 => started
11 0 get 60 b => value 2
12 2 begin 45 => started
13 2 put 45 b 3 => written
14 2 begin 35 => started
15 2 put 35 c 4 => written
16 2 put 35 b 5 => toolate
17 2 begin 25 => started
18 2 put 25 c 6 => toolate
@ ranges of timestamps
0 0 begin 0 => tsrange
1 0 begin 9223372036854775808 => tsrange
2 0 begin 9223372036854775807 => started
3 1 get 9223372036854775807 a => notowner
4 0 begin 9223372036854775807 => tsused
5 0 get 7 a => notxn
6 0 get 0 a => ended
7 0 close 9223372036854775808 => tsrange
8 0 close 9223372036854775807 => closed 9223372036854775806 0
9 0 closehard 9223372036854775808 => tsrange
10 0 commit 9223372036854775807 => committed 0
";
