//! Transcripts, with the state after each, which were written by hand from the definitions, and texts that have none.

/// States, whole. In this order: nothing happened; undecided transactions; a feed that lags; the same feed, which has
/// caught up; a protection; ties, and what was released or cancelled; an initial feed in its snapshot; timestamps above
/// closed; the greatest timestamp; format two; and `examples/operator.transcript`.
pub(super) const STATES: &str = "@ state
= done
{'kind':'database','closed':'0','horizon':'0','limit':'0','holder':'closed','holder_number':null,'oldest':null,'oldest_seat':null,'versions':'0','removable':'0'}
@ state
1000 3 begin 20 => started
1001 3 put 20 a 1 => written
1002 3 put 20 a 2 => written
1003 3 del 20 b => written
1004 5 begin 12 => started
1005 0 begin 15 => started
1006 0 put 15 c 1 => written
1007 0 commit 15 => committed 1
1008 0 close 100 => closed 11 0
= done
{'kind':'database','closed':'11','horizon':'0','limit':'11','holder':'closed','holder_number':null,'oldest':'12','oldest_seat':'5','versions':'3','removable':'0'}
{'kind':'transaction','timestamp':'12','seat':'5','keys':'0'}
{'kind':'transaction','timestamp':'20','seat':'3','keys':'2'}
@ state
0 0 begin 5 => started
1 0 put 5 a 1 => written
2 0 commit 5 => committed 1
3 0 begin 10 => started
4 0 put 10 a 2 => written
5 0 commit 10 => committed 1
6 0 begin 20 => started
7 0 put 20 a 3 => written
8 0 commit 20 => committed 1
9 0 open - - 5 => opened 1
10 0 close 30 => closed 30 0
11 0 poll 1 1 => messages 1
{'after':'Mg==','key':'YQ==','updated':'10'}
12 0 collect 30 => collected 9 0
= done
{'kind':'database','closed':'30','horizon':'9','limit':'9','holder':'feed','holder_number':'1','oldest':null,'oldest_seat':null,'versions':'3','removable':'0'}
{'kind':'feed','number':'1','seat':'0','initial':false,'gap':null,'lo':null,'hi':null,'cursor':'5','updated':'10','key':'YQ==','resolved':null,'complete':'9','floor':'9','behind':'21','untold':'1'}
@ state
0 0 begin 5 => started
1 0 put 5 a 1 => written
2 0 commit 5 => committed 1
3 0 begin 10 => started
4 0 put 10 a 2 => written
5 0 commit 10 => committed 1
6 0 begin 20 => started
7 0 put 20 a 3 => written
8 0 commit 20 => committed 1
9 0 open - - 5 => opened 1
10 0 close 30 => closed 30 0
11 0 poll 1 1 => messages 1
{'after':'Mg==','key':'YQ==','updated':'10'}
12 0 collect 30 => collected 9 0
13 0 poll 1 10 => messages 2
{'after':'Mw==','key':'YQ==','updated':'20'}
{'resolved':'30'}
= done
{'kind':'database','closed':'30','horizon':'9','limit':'30','holder':'closed','holder_number':null,'oldest':null,'oldest_seat':null,'versions':'3','removable':'2'}
{'kind':'feed','number':'1','seat':'0','initial':false,'gap':null,'lo':null,'hi':null,'cursor':'5','updated':'20','key':'YQ==','resolved':'30','complete':'30','floor':'30','behind':'0','untold':'0'}
@ state
0 0 begin 10 => started
1 0 put 10 a 1 => written
2 1 begin 50 => started
3 1 put 50 b 2 => written
4 2 closehard 20 => closed 20 1
5 0 commit 10 => ended
6 1 commit 50 => committed 1
7 2 close 50 => closed 50 0
8 2 scanat 50 - - => rows 1
row b 2
9 2 scanat 50 c - => rows 0
10 2 protect 20 => protected 1
11 2 collect 50 => collected 20 0
= done
{'kind':'database','closed':'50','horizon':'20','limit':'20','holder':'protection','holder_number':'1','oldest':null,'oldest_seat':null,'versions':'1','removable':'0'}
{'kind':'protection','number':'1','timestamp':'20'}
@ state
0 0 begin 3 => started
1 0 put 3 a 1 => written
2 0 put 3 b 1 => written
3 0 commit 3 => committed 2
4 0 begin 5 => started
5 0 put 5 a 2 => written
6 0 del 5 b => written
7 0 commit 5 => committed 2
8 0 begin 9 => started
9 0 put 9 a 3 => written
10 0 commit 9 => committed 1
11 0 close 10 => closed 10 0
12 1 open b - 2 => opened 1
13 1 open - - 6 => opened 2
14 2 protect 4 => protected 1
15 2 protect 6 => protected 2
16 2 protect 6 => protected 3
17 2 release 1 => released
18 1 cancel 1 => cancelled
19 1 openevery - c 6 4 => opened 3
= done
{'kind':'database','closed':'10','horizon':'0','limit':'6','holder':'protection','holder_number':'2','oldest':null,'oldest_seat':null,'versions':'5','removable':'3'}
{'kind':'protection','number':'2','timestamp':'6'}
{'kind':'protection','number':'3','timestamp':'6'}
{'kind':'feed','number':'2','seat':'1','initial':false,'gap':null,'lo':null,'hi':null,'cursor':'6','updated':null,'key':null,'resolved':null,'complete':'6','floor':'6','behind':'4','untold':'1'}
{'kind':'feed','number':'3','seat':'1','initial':false,'gap':'4','lo':null,'hi':'Yw==','cursor':'6','updated':null,'key':null,'resolved':null,'complete':'6','floor':'6','behind':'4','untold':'1'}
@ state
0 0 begin 5 => started
1 0 put 5 a 1 => written
2 0 put 5 b 2 => written
3 0 put 5 c 3 => written
4 0 commit 5 => committed 3
5 0 begin 8 => started
6 0 del 8 b => written
7 0 put 8 c 4 => written
8 0 commit 8 => committed 2
9 0 close 9 => closed 9 0
10 1 openinitial - - 10 => notclosed 9
11 1 openinitial - - 7 => opened 1
12 1 poll 1 2 => messages 2
{'after':'MQ==','key':'YQ==','updated':'7'}
{'after':'Mg==','key':'Yg==','updated':'7'}
13 0 collect 9 => collected 7 0
= done
{'kind':'database','closed':'9','horizon':'7','limit':'7','holder':'feed','holder_number':'1','oldest':null,'oldest_seat':null,'versions':'5','removable':'0'}
{'kind':'feed','number':'1','seat':'1','initial':true,'gap':null,'lo':null,'hi':null,'cursor':'7','updated':'7','key':'Yg==','resolved':null,'complete':null,'floor':'7','behind':'2','untold':'3'}
@ state
0 0 open - - 40 => opened 1
1 0 begin 10 => started
2 0 put 10 a 1 => written
3 0 commit 10 => committed 1
4 0 close 20 => closed 20 0
5 0 poll 1 10 => messages 0
6 0 protect 30 => protected 1
7 0 protect 25 => nomemory
= done
{'kind':'database','closed':'20','horizon':'0','limit':'20','holder':'closed','holder_number':null,'oldest':null,'oldest_seat':null,'versions':'1','removable':'0'}
{'kind':'protection','number':'1','timestamp':'30'}
{'kind':'feed','number':'1','seat':'0','initial':false,'gap':null,'lo':null,'hi':null,'cursor':'40','updated':null,'key':null,'resolved':null,'complete':'40','floor':'40','behind':'0','untold':'0'}
@ state
0 1 begin 9223372036854775807 => started
1 1 put 9223372036854775807 %FF 1 => written
2 1 commit 9223372036854775807 => committed 1
3 0 openevery - - 0 9223372036854775807 => opened 1
4 0 openinitial - - 0 => opened 2
5 0 close 9223372036854775807 => closed 9223372036854775807 0
6 0 poll 1 1 => messages 1
{'after':'MQ==','key':'/w==','updated':'9223372036854775807'}
7 0 poll 1 1 => messages 1
{'resolved':'9223372036854775807'}
= done
{'kind':'database','closed':'9223372036854775807','horizon':'0','limit':'0','holder':'feed','holder_number':'2','oldest':null,'oldest_seat':null,'versions':'1','removable':'0'}
{'kind':'feed','number':'1','seat':'0','initial':false,'gap':'9223372036854775807','lo':null,'hi':null,'cursor':'0','updated':'9223372036854775807','key':'/w==','resolved':'9223372036854775807','complete':'9223372036854775807','floor':'9223372036854775807','behind':'0','untold':'0'}
{'kind':'feed','number':'2','seat':'0','initial':true,'gap':null,'lo':null,'hi':null,'cursor':'0','updated':null,'key':null,'resolved':null,'complete':'0','floor':'0','behind':'9223372036854775807','untold':'1'}
@ state
mvfeed 2
0 0 open - - 0 => opened 1
1 1 begin 10 => started
2 1 put 10 aaaaaaaaaaaaaaaaaaaaaaaaaaaaaaaaaaaaaaaaaaaaaaaaaaaaaaaaaaaaaaaaaa 1 => written
3 1 put 10 b 2 => written
4 1 commit 10 => committed 2
5 0 close 5 => closed 5 0
6 0 poll 1 9 => messages 1
{'resolved':'5'}
7 0 close 15 => closed 15 0
8 0 poll 1 1 => messages 1
{'after':'MQ==','key':'YWFhYWFhYWFhYWFhYWFhYWFhYWFhYWFhYWFhYWFhYWFhYWFhYWFhYWFhYWFhYWFhYWFhYWFhYWFhYWFhYWFhYWFh','updated':'10'}
9 2 begin 16 => started
10 2 abort 16 => aborted
11 0 collect 99 => collected 9 0
12 0 poll 1 0 => messages 0
= done
{'kind':'database','closed':'15','horizon':'9','limit':'9','holder':'feed','holder_number':'1','oldest':null,'oldest_seat':null,'versions':'2','removable':'0'}
{'kind':'feed','number':'1','seat':'0','initial':false,'gap':null,'lo':null,'hi':null,'cursor':'0','updated':'10','key':'YWFhYWFhYWFhYWFhYWFhYWFhYWFhYWFhYWFhYWFhYWFhYWFhYWFhYWFhYWFhYWFhYWFhYWFhYWFhYWFhYWFhYWFh','resolved':'5','complete':'9','floor':'9','behind':'6','untold':'1'}
@ state
0 0 begin 5 => started
1 0 put 5 a 1 => written
2 0 commit 5 => committed 1
3 0 begin 10 => started
4 0 put 10 a 2 => written
5 0 commit 10 => committed 1
6 1 open - - 5 => opened 1
7 2 begin 40 => started
8 2 put 40 b 1 => written
9 0 close 30 => closed 30 0
10 1 poll 1 1 => messages 1
{'after':'Mg==','key':'YQ==','updated':'10'}
11 0 protect 20 => protected 1
12 0 collect 30 => collected 9 0
= done
{'kind':'database','closed':'30','horizon':'9','limit':'9','holder':'feed','holder_number':'1','oldest':'40','oldest_seat':'2','versions':'3','removable':'0'}
{'kind':'transaction','timestamp':'40','seat':'2','keys':'1'}
{'kind':'protection','number':'1','timestamp':'20'}
{'kind':'feed','number':'1','seat':'1','initial':false,'gap':null,'lo':null,'hi':null,'cursor':'5','updated':'10','key':'YQ==','resolved':null,'complete':'9','floor':'9','behind':'21','untold':'0'}
";

/// Texts without a state, and devices that fail.
pub(super) const STATELESS: &str = "@ state
0 0 begin 10 => started
1 0 put 10 a 1 => toolate
2 0 commit 10 => ended
= no
no 1
@ state live
7 0 stats => stats 0 0 0 0 0
9 0 stats => stats 0 0 0 0 0
= no
no 9
@ state
0 0 begin 10 => started
1 0 put 10 a 1 => toolate
2 0 commit 10
= faulty
fault 3 1 wordcount
@ state live
0 0 begin 10 => started$
= faulty
fault 1 7 nonewline
@ state
mvfeed 2
0 0 poll 1 1 => messages 1
= faulty
fault 3 11 follow
@ state fails 9
7 0 stats => stats 0 0 0 0 0
= input
@ state live room 3
0 0 stats => stats 0 0 0 0 0
= output
{'k$
";
