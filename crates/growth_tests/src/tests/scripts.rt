//! The scripts, each with its replies where no growth is refused.

/// The transcripts, each behind what it is about.
pub(super) const TRANSCRIPTS: &str = "@ An absent key is scanned, and a write to it comes too late
0 0 begin 20 => started
1 0 scan 20 - - => rows 0
2 1 begin 10 => started
3 1 put 10 z 1 => toolate
@ The order of commits is not that of the stream
0 0 open - - 0 => opened 1
1 1 begin 20 => started
2 1 put 20 a 2 => written
3 1 commit 20 => committed 1
4 2 begin 10 => started
5 2 put 10 b 1 => written
6 2 commit 10 => committed 1
7 0 poll 1 10 => messages 0
8 0 close 30 => closed 30 0
9 0 poll 1 10 => messages 3
{\"after\":\"MQ==\",\"key\":\"Yg==\",\"updated\":\"10\"}
{\"after\":\"Mg==\",\"key\":\"YQ==\",\"updated\":\"20\"}
{\"resolved\":\"30\"}
@ A transaction is split over polls, with a commit and a closing between
0 0 open - - 0 => opened 1
1 1 begin 10 => started
2 1 put 10 a 1 => written
3 1 put 10 b 2 => written
4 1 commit 10 => committed 2
5 0 close 10 => closed 10 0
6 0 poll 1 1 => messages 1
{\"after\":\"MQ==\",\"key\":\"YQ==\",\"updated\":\"10\"}
7 1 begin 12 => started
8 1 put 12 c 3 => written
9 1 commit 12 => committed 1
10 0 close 15 => closed 15 0
11 0 poll 1 10 => messages 3
{\"after\":\"Mg==\",\"key\":\"Yg==\",\"updated\":\"10\"}
{\"after\":\"Mw==\",\"key\":\"Yw==\",\"updated\":\"12\"}
{\"resolved\":\"15\"}
@ A feed that lags holds the horizon back
0 0 begin 5 => started
1 0 put 5 a 1 => written
2 0 commit 5 => committed 1
3 0 begin 10 => started
4 0 put 10 a 2 => written
5 0 commit 10 => committed 1
6 0 begin 20 => started
7 0 put 20 a 3 => written
8 0 commit 20 => committed 1
9 0 open - - 5 => opened 1
10 0 close 30 => closed 30 0
11 0 poll 1 1 => messages 1
{\"after\":\"Mg==\",\"key\":\"YQ==\",\"updated\":\"10\"}
12 0 collect 30 => collected 9 0
13 0 poll 1 10 => messages 2
{\"after\":\"Mw==\",\"key\":\"YQ==\",\"updated\":\"20\"}
{\"resolved\":\"30\"}
14 0 collect 30 => collected 30 2
15 0 stats => stats 1 0 1 30 30
16 0 readat 29 a => belowhorizon 30
17 0 readat 30 a => value 3
18 0 readat 31 a => notclosed 30
@ A delete that is dropped keeps its mark
0 0 begin 3 => started
1 0 put 3 a 1 => written
2 0 commit 3 => committed 1
3 0 begin 5 => started
4 0 del 5 a => written
5 0 commit 5 => committed 1
6 1 begin 20 => started
7 2 begin 15 => started
8 0 close 10 => closed 10 0
9 1 get 20 a => none
10 0 collect 10 => collected 10 2
11 2 put 15 a 2 => toolate
12 0 stats => stats 0 1 0 10 10
@ A hard closing, snapshots and a protection
0 0 begin 10 => started
1 0 put 10 a 1 => written
2 1 begin 50 => started
3 1 put 50 b 2 => written
4 2 closehard 20 => closed 20 1
5 0 commit 10 => ended
6 1 commit 50 => committed 1
7 2 close 50 => closed 50 0
8 2 scanat 50 - - => rows 1
row b 2
9 2 scanat 50 c - => rows 0
10 2 protect 20 => protected 1
11 2 collect 50 => collected 20 0
12 0 release 1 => released
13 0 release 1 => noprotection
14 2 collect 50 => collected 50 0
15 2 protect 20 => belowhorizon 50
@ Keys too long for a start to hold in place are read, and writes to them come too late
0 0 begin 20 => started
1 0 get 20 aaaaaaaaaaaaaaaaaaaaaaaaaaaaaaaaaaaaaaaaaaaaaaaaaaaaaaaaaaab => none
2 0 get 20 aaaaaaaaaaaaaaaaaaaaaaaaaaaaaaaaaaaaaaaaaaaaaaaaaaaaaaaaaaaa => none
3 1 begin 10 => started
4 1 put 10 aaaaaaaaaaaaaaaaaaaaaaaaaaaaaaaaaaaaaaaaaaaaaaaaaaaaaaaaaaaa 1 => toolate
5 1 begin 15 => started
6 1 put 15 aaaaaaaaaaaaaaaaaaaaaaaaaaaaaaaaaaaaaaaaaaaaaaaaaaaaaaaaaaab 1 => toolate
7 1 begin 12 => started
8 1 put 12 a 1 => written
9 1 commit 12 => committed 1
@ An initial feed tells what its span holds, and a collection waits for it
0 0 begin 5 => started
1 0 put 5 a 1 => written
2 0 put 5 b 2 => written
3 0 put 5 c 3 => written
4 0 commit 5 => committed 3
5 0 begin 8 => started
6 0 del 8 b => written
7 0 put 8 c 4 => written
8 0 commit 8 => committed 2
9 0 close 9 => closed 9 0
10 1 openinitial - - 10 => notclosed 9
11 1 openinitial - - 7 => opened 1
12 1 poll 1 2 => messages 2
{\"after\":\"MQ==\",\"key\":\"YQ==\",\"updated\":\"7\"}
{\"after\":\"Mg==\",\"key\":\"Yg==\",\"updated\":\"7\"}
13 0 collect 9 => collected 7 0
14 1 poll 1 10 => messages 4
{\"after\":\"Mw==\",\"key\":\"Yw==\",\"updated\":\"7\"}
{\"after\":null,\"key\":\"Yg==\",\"updated\":\"8\"}
{\"after\":\"NA==\",\"key\":\"Yw==\",\"updated\":\"8\"}
{\"resolved\":\"9\"}
15 0 collect 9 => collected 9 3
16 1 openinitial - - 9 => opened 2
17 1 poll 2 10 => messages 3
{\"after\":\"MQ==\",\"key\":\"YQ==\",\"updated\":\"9\"}
{\"after\":\"NA==\",\"key\":\"Yw==\",\"updated\":\"9\"}
{\"resolved\":\"9\"}
18 1 openinitial - - 8 => belowhorizon 9
@ A least gap between resolved messages
0 0 openevery - - 0 10 => opened 1
1 0 close 9 => closed 9 0
2 0 poll 1 5 => messages 0
3 0 close 10 => closed 10 0
4 0 poll 1 5 => messages 1
{\"resolved\":\"10\"}
5 1 begin 15 => started
6 1 put 15 a 1 => written
7 1 commit 15 => committed 1
8 0 close 19 => closed 19 0
9 0 poll 1 5 => messages 1
{\"after\":\"MQ==\",\"key\":\"YQ==\",\"updated\":\"15\"}
10 0 collect 19 => collected 14 0
11 0 close 20 => closed 20 0
12 0 poll 1 5 => messages 1
{\"resolved\":\"20\"}
13 0 openevery - - 20 0 => gaprange
@ An initial feed with a least gap
0 0 begin 5 => started
1 0 put 5 a 1 => written
2 0 commit 5 => committed 1
3 0 close 9 => closed 9 0
4 1 openinitialevery - - 7 10 => opened 1
5 1 poll 1 1 => messages 1
{\"after\":\"MQ==\",\"key\":\"YQ==\",\"updated\":\"7\"}
6 1 poll 1 5 => messages 0
7 0 close 15 => closed 15 0
8 1 poll 1 5 => messages 0
9 0 close 16 => closed 16 0
10 1 poll 1 5 => messages 1
{\"resolved\":\"16\"}
@ An abort takes back what was written, and its reads keep their marks
0 0 begin 10 => started
1 0 put 10 a 1 => written
2 0 put 10 b 2 => written
3 1 begin 20 => started
4 1 get 20 c => none
5 1 abort 20 => aborted
6 0 put 10 c 3 => toolate
7 0 commit 10 => ended
8 1 begin 30 => started
9 1 scan 30 - - => rows 0
10 1 put 30 a 4 => written
11 1 abort 30 => aborted
12 0 close 40 => closed 40 0
13 0 scanat 40 - - => rows 0
14 0 stats => stats 0 0 0 40 0
@ A third reader of a key, by a get and by a scan
0 0 begin 10 => started
1 0 get 10 a => none
2 0 get 10 b => none
3 0 begin 20 => started
4 0 put 20 a 1 => written
5 0 put 20 b 1 => written
6 0 commit 20 => committed 2
7 0 begin 30 => started
8 0 get 30 a => value 1
9 0 get 30 b => value 1
10 0 begin 40 => started
11 0 put 40 a 2 => written
12 0 put 40 b 2 => written
13 0 commit 40 => committed 2
14 0 begin 50 => started
15 0 get 50 a => value 2
16 0 scan 50 b - => rows 1
row b 2
17 1 begin 5 => started
18 1 put 5 a 3 => toolate
19 1 begin 6 => started
20 1 put 6 b 3 => toolate
21 1 begin 25 => started
22 1 put 25 a 3 => toolate
23 1 begin 26 => started
24 1 put 26 b 3 => toolate
25 1 begin 45 => started
26 1 put 45 a 3 => toolate
27 1 begin 46 => started
28 1 put 46 b 3 => toolate
29 1 begin 35 => started
30 1 put 35 a 3 => written
31 1 put 35 b 3 => written
32 1 commit 35 => committed 2
";
