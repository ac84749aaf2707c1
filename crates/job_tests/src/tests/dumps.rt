//! Transcripts, with the dump of each, which were written by hand from the definitions, and texts that have none.

/// Dumps. In this order: nothing happened; what is dead, undecided or aborted is left out, and each version keeps its
/// timestamp, above closed too; a transaction that wrote nothing, which is where a dump closes; a later closing; format two.
pub(super) const DUMPS: &str = "@ dump 0
= done
0 close 0
0 collect 0
@ dump 0
0 0 begin 10 => started
1 0 put 10 b 1 => written
2 0 put 10 a 1 => written
3 0 put 10 a 2 => written
4 0 commit 10 => committed 2
5 1 begin 20 => started
6 1 put 20 a 3 => written
7 1 del 20 c => written
8 1 commit 20 => committed 2
9 2 begin 30 => started
10 2 del 30 a => written
11 2 put 30 d 4 => written
12 2 commit 30 => committed 2
13 3 begin 40 => started
14 3 put 40 a 5 => written
15 4 begin 50 => started
16 4 put 50 a 6 => written
17 4 abort 50 => aborted
18 0 close 25 => closed 25 0
19 0 open - - 20 => opened 1
20 0 collect 25 => collected 20 2
= done
0 begin 10
0 put 10 b 1
0 commit 10
0 begin 20
0 put 20 a 3
0 commit 20
0 begin 30
0 del 30 a
0 put 30 d 4
0 commit 30
0 close 50
0 collect 20
@ dump 3
7 0 begin 5 => started
8 0 commit 5 => committed 0
= done
0 close 5
0 collect 0
@ dump 90
7 0 begin 5 => started
8 0 put 5 a 1 => written
9 0 commit 5 => committed 1
10 0 close 60 => closed 60 0
= done
0 begin 5
0 put 5 a 1
0 commit 5
0 close 90
0 collect 0
@ dump 0
mvfeed 2
0 0 begin 5 => started
1 0 put 5 ~256*a; %00%20 => written
2 0 commit 5 => committed 1
= done
0 begin 5
0 put 5 ~256*a; %00%20
0 commit 5
0 close 5
0 collect 0
@ dump 0
0 0 begin 10 => started
1 0 put 10 a 1 => toolate
2 0 commit 10 => ended
= no
no 1
@ dump 0
0 0 begin 10 => started
1 0 commit 10
= faulty
fault 2 1 wordcount
@ dump 0 fails 9
7 0 stats => stats 0 0 0 0 0
= input
@ dump 0 room 3
0 0 stats => stats 0 0 0 0 0
= output
0 c$
";
