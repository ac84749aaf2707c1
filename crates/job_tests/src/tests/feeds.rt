//! Feeds.

/// Transcripts of runs that end well, each behind what it is about.
pub(super) const TRANSCRIPTS: &str = "@ the order of commits is not that of the stream
0 0 open - - 0 => opened 1
1 1 begin 20 => started
2 1 put 20 a 2 => written
3 1 commit 20 => committed 1
4 2 begin 10 => started
5 2 put 10 b 1 => written
6 2 commit 10 => committed 1
7 0 poll 1 10 => messages 0
8 0 close 30 => closed 30 0
9 0 poll 1 10 => messages 3
{'after':'MQ==','key':'Yg==','updated':'10'}
{'after':'Mg==','key':'YQ==','updated':'20'}
{'resolved':'30'}
@ a closing over many timestamps, of which some were committed before the feed was opened
0 1 begin 20 => started
1 1 put 20 b 1 => written
2 1 put 20 a 2 => written
3 1 commit 20 => committed 2
4 0 open - - 0 => opened 1
5 1 begin 30 => started
6 1 put 30 c 3 => written
7 1 commit 30 => committed 1
8 2 begin 10 => started
9 2 put 10 z 4 => written
10 2 commit 10 => committed 1
11 2 begin 25 => started
12 2 put 25 a 5 => written
13 2 abort 25 => aborted
14 2 begin 40 => started
15 2 put 40 a 6 => written
16 0 close 50 => closed 39 0
17 0 poll 1 9 => messages 5
{'after':'NA==','key':'eg==','updated':'10'}
{'after':'Mg==','key':'YQ==','updated':'20'}
{'after':'MQ==','key':'Yg==','updated':'20'}
{'after':'Mw==','key':'Yw==','updated':'30'}
{'resolved':'39'}
18 2 commit 40 => committed 1
19 0 close 50 => closed 50 0
20 0 poll 1 9 => messages 2
{'after':'Ng==','key':'YQ==','updated':'40'}
{'resolved':'50'}
@ a transaction split over polls, with a closing between
0 0 open - - 0 => opened 1
1 1 begin 10 => started
2 1 put 10 a 1 => written
3 1 put 10 b 2 => written
4 1 commit 10 => committed 2
5 0 close 10 => closed 10 0
6 0 poll 1 1 => messages 1
{'after':'MQ==','key':'YQ==','updated':'10'}
7 0 close 15 => closed 15 0
8 0 poll 1 1 => messages 1
{'after':'Mg==','key':'Yg==','updated':'10'}
9 0 poll 1 1 => messages 1
{'resolved':'15'}
10 0 poll 1 1 => messages 0
@ a transaction split over polls, with a commit and a closing between
0 0 open - - 0 => opened 1
1 1 begin 10 => started
2 1 put 10 a 1 => written
3 1 put 10 b 2 => written
4 1 commit 10 => committed 2
5 0 close 10 => closed 10 0
6 0 poll 1 1 => messages 1
{'after':'MQ==','key':'YQ==','updated':'10'}
7 1 begin 12 => started
8 1 put 12 c 3 => written
9 1 commit 12 => committed 1
10 0 close 15 => closed 15 0
11 0 poll 1 10 => messages 3
{'after':'Mg==','key':'Yg==','updated':'10'}
{'after':'Mw==','key':'Yw==','updated':'12'}
{'resolved':'15'}
@ the floor of a feed that lags
0 0 begin 5 => started
1 0 put 5 a 1 => written
2 0 commit 5 => committed 1
3 0 begin 10 => started
4 0 put 10 a 2 => written
5 0 commit 10 => committed 1
6 0 begin 20 => started
7 0 put 20 a 3 => written
8 0 commit 20 => committed 1
9 0 open - - 5 => opened 1
10 0 close 30 => closed 30 0
11 0 poll 1 1 => messages 1
{'after':'Mg==','key':'YQ==','updated':'10'}
12 0 collect 30 => collected 9 0
13 0 poll 1 10 => messages 2
{'after':'Mw==','key':'YQ==','updated':'20'}
{'resolved':'30'}
14 0 collect 30 => collected 30 2
15 0 stats => stats 1 0 1 30 30
16 0 readat 29 a => belowhorizon 30
17 0 readat 30 a => value 3
18 0 readat 31 a => notclosed 30
@ cancellation
0 0 open - - 0 => opened 1
1 1 poll 1 1 => notowner
2 1 cancel 1 => cancelled
3 0 poll 1 1 => feedcancelled
4 1 cancel 1 => feedcancelled
5 0 poll 2 1 => nofeed
@ last write of a transaction, empty value, delete, span
0 0 open b c 0 => opened 1
1 1 begin 10 => started
2 1 put 10 a 1 => written
3 1 put 10 b 2 => written
4 1 put 10 b - => written
5 1 commit 10 => committed 2
6 1 begin 20 => started
7 1 del 20 b => written
8 1 commit 20 => committed 1
9 0 close 20 => closed 20 0
10 0 poll 1 10 => messages 3
{'after':'','key':'Yg==','updated':'10'}
{'after':null,'key':'Yg==','updated':'20'}
{'resolved':'20'}
@ a feed that begins below closed
0 1 begin 5 => started
1 1 put 5 a 1 => written
2 1 commit 5 => committed 1
3 1 begin 8 => started
4 1 put 8 b 2 => written
5 1 put 8 a 3 => written
6 1 commit 8 => committed 2
7 0 close 8 => closed 8 0
8 0 open - - 4 => opened 1
9 0 poll 1 2 => messages 2
{'after':'MQ==','key':'YQ==','updated':'5'}
{'after':'Mw==','key':'YQ==','updated':'8'}
10 1 begin 9 => started
11 1 put 9 a 4 => written
12 1 commit 9 => committed 1
13 0 close 9 => closed 9 0
14 0 poll 1 2 => messages 2
{'after':'Mg==','key':'Yg==','updated':'8'}
{'after':'NA==','key':'YQ==','updated':'9'}
15 0 poll 1 2 => messages 1
{'resolved':'9'}
@ a snapshot at a cursor, and then what came after
0 0 begin 5 => started
1 0 put 5 a 1 => written
2 0 put 5 b 2 => written
3 0 put 5 c 3 => written
4 0 commit 5 => committed 3
5 0 begin 8 => started
6 0 del 8 b => written
7 0 put 8 c 4 => written
8 0 commit 8 => committed 2
9 0 close 9 => closed 9 0
10 1 openinitial - - 10 => notclosed 9
11 1 openinitial - - 7 => opened 1
12 1 poll 1 2 => messages 2
{'after':'MQ==','key':'YQ==','updated':'7'}
{'after':'Mg==','key':'Yg==','updated':'7'}
13 0 collect 9 => collected 7 0
14 1 poll 1 10 => messages 4
{'after':'Mw==','key':'Yw==','updated':'7'}
{'after':null,'key':'Yg==','updated':'8'}
{'after':'NA==','key':'Yw==','updated':'8'}
{'resolved':'9'}
15 0 collect 9 => collected 9 3
16 1 openinitial - - 9 => opened 2
17 1 poll 2 10 => messages 3
{'after':'MQ==','key':'YQ==','updated':'9'}
{'after':'NA==','key':'Yw==','updated':'9'}
{'resolved':'9'}
18 1 openinitial - - 8 => belowhorizon 9
@ a snapshot collected between its polls: the cursor holds the horizon until a row above it is told
0 0 begin 2 => started
1 0 put 2 a 1 => written
2 0 put 2 b 1 => written
3 0 put 2 c - => written
4 0 commit 2 => committed 3
5 0 begin 5 => started
6 0 put 5 a 2 => written
7 0 del 5 b => written
8 0 commit 5 => committed 2
9 0 begin 8 => started
10 0 put 8 a 3 => written
11 0 commit 8 => committed 1
12 0 closehard 9 => closed 9 0
13 1 openinitial - - 5 => opened 1
14 0 collect 9 => collected 5 3
15 1 poll 1 1 => messages 1
{'after':'Mg==','key':'YQ==','updated':'5'}
16 0 collect 9 => collected 5 0
17 1 poll 1 2 => messages 2
{'after':'','key':'Yw==','updated':'5'}
{'after':'Mw==','key':'YQ==','updated':'8'}
18 0 collect 9 => collected 7 0
19 1 poll 1 1 => messages 1
{'resolved':'9'}
20 1 openinitial b c 9 => opened 2
21 1 poll 2 5 => messages 1
{'resolved':'9'}
22 1 openinitial - c 9 => opened 3
23 1 poll 3 1 => messages 1
{'after':'Mw==','key':'YQ==','updated':'9'}
24 0 cancel 3 => cancelled
25 1 poll 3 1 => feedcancelled
26 0 collect 9 => collected 9 1
@ an initial feed resolves its cursor, once; where its span holds no key, too
0 0 close 9 => closed 9 0
1 0 openinitial - - 9 => opened 1
2 0 poll 1 5 => messages 1
{'resolved':'9'}
3 0 poll 1 5 => messages 0
4 0 openinitial b b 9 => opened 2
5 0 poll 2 5 => messages 1
{'resolved':'9'}
6 0 poll 2 5 => messages 0
@ a least gap between resolved messages
0 0 openevery - - 0 10 => opened 1
1 0 close 9 => closed 9 0
2 0 poll 1 5 => messages 0
3 0 close 10 => closed 10 0
4 0 poll 1 5 => messages 1
{'resolved':'10'}
5 1 begin 15 => started
6 1 put 15 a 1 => written
7 1 commit 15 => committed 1
8 0 close 19 => closed 19 0
9 0 poll 1 5 => messages 1
{'after':'MQ==','key':'YQ==','updated':'15'}
10 0 collect 19 => collected 14 0
11 0 close 20 => closed 20 0
12 0 poll 1 5 => messages 1
{'resolved':'20'}
13 0 openevery - - 20 0 => gaprange
@ a gap lies above the cursor at first, and isn't counted in multiples
0 0 openevery - - 3 10 => opened 1
1 0 close 12 => closed 12 0
2 0 poll 1 5 => messages 0
3 0 close 15 => closed 15 0
4 0 poll 1 0 => messages 0
5 0 poll 1 1 => messages 1
{'resolved':'15'}
6 0 close 24 => closed 24 0
7 0 poll 1 5 => messages 0
8 0 close 25 => closed 25 0
9 0 poll 1 5 => messages 1
{'resolved':'25'}
10 0 poll 1 5 => messages 0
11 0 openevery - - 25 1 => opened 2
12 0 poll 2 5 => messages 0
13 0 close 26 => closed 26 0
14 0 poll 2 5 => messages 1
{'resolved':'26'}
@ an initial feed with a gap: its snapshot at once, and then resolved messages the gap apart, from below the cursor on
0 0 begin 5 => started
1 0 put 5 a 1 => written
2 0 commit 5 => committed 1
3 0 close 7 => closed 7 0
4 0 openinitialevery - - 7 3 => opened 1
5 0 poll 1 9 => messages 1
{'after':'MQ==','key':'YQ==','updated':'7'}
6 0 close 8 => closed 8 0
7 0 poll 1 9 => messages 0
8 1 begin 9 => started
9 1 put 9 b 2 => written
10 1 commit 9 => committed 1
11 0 close 9 => closed 9 0
12 0 poll 1 1 => messages 1
{'after':'Mg==','key':'Yg==','updated':'9'}
13 0 poll 1 9 => messages 1
{'resolved':'9'}
14 0 close 11 => closed 11 0
15 0 poll 1 9 => messages 0
16 0 close 12 => closed 12 0
17 0 poll 1 9 => messages 1
{'resolved':'12'}
@ the cursor 0 has nothing below it; a gap of 1 is that of an initial feed without one
0 0 openinitialevery - - 0 2 => opened 1
1 0 openinitialevery - - 0 1 => opened 2
2 0 close 1 => closed 1 0
3 0 poll 1 5 => messages 0
4 0 poll 2 5 => messages 1
{'resolved':'1'}
5 0 openinitialevery - - 1 1 => opened 3
6 0 poll 3 5 => messages 1
{'resolved':'1'}
7 0 close 2 => closed 2 0
8 0 poll 1 5 => messages 1
{'resolved':'2'}
9 0 poll 3 5 => messages 1
{'resolved':'2'}
@ the tests of an initial feed with a gap in their order
0 0 close 9 => closed 9 0
1 0 collect 4 => collected 4 0
2 0 openinitialevery - - 9223372036854775808 0 => tsrange
3 0 openinitialevery - - 10 0 => gaprange
4 0 openinitialevery - - 3 9223372036854775808 => gaprange
5 0 openinitialevery - - 3 1 => belowhorizon 4
6 0 openinitialevery - - 10 1 => notclosed 9
7 0 openinitialevery - - 9 9223372036854775807 => opened 1
8 0 poll 1 5 => messages 0
9 0 stats => stats 0 0 1 9 4
@ the greatest cursor and the greatest gap, and what is above them
0 0 openinitial - - 9223372036854775808 => tsrange
1 0 openevery - - 9223372036854775808 0 => tsrange
2 0 openevery - - 0 9223372036854775808 => gaprange
3 0 openevery - - 9223372036854775807 9223372036854775807 => opened 1
4 0 openinitial - - 0 => opened 2
5 0 open - - 9 => opened 3
6 1 poll 1 1 => notowner
7 0 stats => stats 0 0 3 0 0
@ the tests of openings in their order
0 0 close 30 => closed 30 0
1 0 collect 20 => collected 20 0
2 0 openevery - - 19 0 => gaprange
3 0 openevery - - 19 1 => belowhorizon 20
4 0 openinitial - - 19 => belowhorizon 20
5 0 openinitial - - 31 => notclosed 30
6 0 openevery - - 31 1 => opened 1
7 0 openinitial - - 20 => opened 2
@ many rows, and polls that leave some
0 0 open - - 0 => opened 1
1 1 begin 20 => started
2 1 put 20 a 2 => written
3 1 commit 20 => committed 1
4 2 begin 10 => started
5 2 put 10 b 5 => written
6 2 commit 10 => committed 1
7 0 close 30 => closed 30 0
8 0 poll 1 0 => messages 0
9 0 poll 1 1 => messages 1
{'after':'NQ==','key':'Yg==','updated':'10'}
10 1 begin 40 => started
11 1 put 40 a 3 => written
12 1 commit 40 => committed 1
13 0 close 50 => closed 50 0
14 0 poll 1 1 => messages 1
{'after':'Mg==','key':'YQ==','updated':'20'}
15 0 poll 1 1 => messages 1
{'after':'Mw==','key':'YQ==','updated':'40'}
16 0 poll 1 9 => messages 1
{'resolved':'50'}
17 1 begin 60 => started
18 1 put 60 a 4 => written
19 1 put 60 b 6 => written
20 1 commit 60 => committed 2
21 0 close 70 => closed 70 0
22 0 poll 1 9 => messages 3
{'after':'NA==','key':'YQ==','updated':'60'}
{'after':'Ng==','key':'Yg==','updated':'60'}
{'resolved':'70'}
";

/// The floor of a feed that lags, which devices that fail leave in part.
pub(super) const LAGGING: &str = "0 0 begin 5 => started
1 0 put 5 a 1 => written
2 0 commit 5 => committed 1
3 0 begin 10 => started
4 0 put 10 a 2 => written
5 0 commit 10 => committed 1
6 0 begin 20 => started
7 0 put 20 a 3 => written
8 0 commit 20 => committed 1
9 0 open - - 5 => opened 1
10 0 close 30 => closed 30 0
11 0 poll 1 1 => messages 1
{'after':'Mg==','key':'YQ==','updated':'10'}
12 0 collect 30 => collected 9 0
13 0 poll 1 10 => messages 2
{'after':'Mw==','key':'YQ==','updated':'20'}
{'resolved':'30'}
14 0 collect 30 => collected 30 2
15 0 stats => stats 1 0 1 30 30
16 0 readat 29 a => belowhorizon 30
17 0 readat 30 a => value 3
18 0 readat 31 a => notclosed 30
";
