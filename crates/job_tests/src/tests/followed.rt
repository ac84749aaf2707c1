//! Cases of feeds that are followed, as in `cases`: `follow` with the bounds of its span, how it starts, its cursor,
//! the feed or `-` for every message, and whether the rows are told.

/// Inputs that end with a fault, and lines of the greatest length and of a byte more.
pub(super) const NOT_FOLLOWED: &str = "@ follow a c cursor 5 - no
{'resolved':'5'}
= faulty
fault 1 23 resolvedback
@ follow a c cursor 5 - no
{'resolved':'6'}
{'resolved':'6'}
= faulty
resolved 6 0
fault 2 23 resolvedback
@ follow a c cursor 5 - no
{'after':'MQ==','key':'YQ==','updated':'9'}
{'resolved':'8'}
= faulty
fault 2 23 resolvedback
@ follow a c cursor 5 - no
{'after':'MQ==','key':'YQ==','updated':'5'}
= faulty
fault 1 21 notafter
@ follow a c cursor 5 - no
{'after':'MQ==','key':'Yg==','updated':'6'}
{'after':'MQ==','key':'YQ==','updated':'6'}
= faulty
fault 2 21 notafter
@ follow a c cursor 5 - no
{'after':'MQ==','key':'Yg==','updated':'6'}
{'after':'MQ==','key':'Yg==','updated':'6'}
= faulty
fault 2 21 notafter
@ follow a c cursor 5 - no
{'resolved':'6'}
{'after':null,'key':'YQ==','updated':'6'}
= faulty
resolved 6 0
fault 2 21 notafter
@ follow a c cursor 5 - no
{'after':'MQ==','key':'Yw==','updated':'6'}
= faulty
fault 1 22 outsidespan
@ follow a c cursor 5 - no
{'after':'MQ==','key':'QQ==','updated':'6'}
= faulty
fault 1 22 outsidespan
@ follow a c cursor 5 - no
{'after':'MQ==','key':'Yw==','updated':'5'}
= faulty
fault 1 21 notafter
@ follow a c cursor 5 - no
{
= faulty
fault 1 1 notjson
@ follow a c cursor 5 - no
{}
= faulty
fault 1 2 shape
@ follow a c cursor 5 - no
{'resolved':'6'} 
= faulty
fault 1 2 shape
@ follow a c cursor 5 - no
{'resolved':'06'}
= faulty
fault 1 3 number
@ follow a c cursor 5 - no
{'resolved':'0'}
= faulty
fault 1 3 number
@ follow a c cursor 5 - no
{'resolved':'9223372036854775808'}
= faulty
fault 1 3 number
@ follow a c cursor 5 - no
{'after':'M','key':'YQ==','updated':'6'}
= faulty
fault 1 4 base64
@ follow a c cursor 5 - no
{'after':'','key':'','updated':'6'}
= faulty
fault 1 5 length
@ follow a c cursor 5 - no
{'resolved':'6'}$
= faulty
fault 1 7 nonewline
@ follow a c cursor 5 - no
{'resolved':'6'}
0 0 stats$
= faulty
resolved 6 0
fault 2 7 nonewline
@ follow a c cursor 5 - no
{'resolved':'6'}
{$
= faulty
resolved 6 0
fault 2 7 nonewline
@ follow a c cursor 5 - no
row a 1

  
{'resolved':'5'}
= faulty
fault 4 23 resolvedback
@ follow a c cursor 5 - no
x$
= faulty
fault 1 7 nonewline
@ follow a c cursor 5 - no
{'after':'MQ==','key':'YQ==','updated':'6'}
{'resolved':'6'}
{'resolved':'5'}
{'resolved':'7'}
= faulty
resolved 6 1
fault 3 23 resolvedback
@ follow - - cursor 5 - yes
x~4095*x;
{'resolved':'6'}
= done
resolved 6 0
@ follow - - cursor 5 - yes
x~4096*x;
{'resolved':'6'}
= faulty
fault 1 8 linetoolong
@ follow - - cursor 5 - yes
{~4095*x;
{'resolved':'6'}
= faulty
fault 1 1 notjson
@ follow - - cursor 5 - yes
{~4096*x;
{'resolved':'6'}
= faulty
fault 1 8 linetoolong
";

/// Inputs that are followed to their end; an initial feed alone tells a row of its cursor; and the polls of one feed of
/// a transcript, with lines that look like polls.
pub(super) const FOLLOWED: &str = "@ follow - - cursor 5 - yes
= nothing
@ follow - - cursor 5 - yes

0 0 stats => stats 0 0 0 0 0
 \u{e9}
row a 1
= nothing
@ follow - - cursor 5 - yes
{'resolved':'9223372036854775807'}
= done
resolved 9223372036854775807 0
@ follow - - cursor 5 - yes
{'after':'','key':'LQ==','updated':'6'}
{'after':'LQ==','key':'JQ==','updated':'7'}
{'resolved':'7'}
= done
resolved 7 2
row %25 %2D
row %2D -
@ follow - - cursor 5 - yes
{'after':'MQ==','key':'YQ==','updated':'6'}
{'resolved':'6'}
{'resolved':'7'}
{'after':null,'key':'YQ==','updated':'8'}
{'resolved':'9'}
= done
resolved 6 1
row a 1
resolved 7 1
row a 1
resolved 9 0
@ follow - - initial 5 - yes
{'after':'MQ==','key':'YQ==','updated':'5'}
{'resolved':'5'}
= done
resolved 5 1
row a 1
@ follow - - initial 6 - yes
{'after':'MQ==','key':'YQ==','updated':'5'}
{'resolved':'5'}
= faulty
fault 1 21 notafter
@ follow - - cursor 5 - yes
{'after':'MQ==','key':'YQ==','updated':'5'}
{'resolved':'5'}
= faulty
fault 1 21 notafter
@ follow - - cursor 4 - yes
{'after':'MQ==','key':'YQ==','updated':'5'}
{'resolved':'5'}
= done
resolved 5 1
row a 1
@ follow - - initial 5 1 yes
0 0 poll 1 9 => messages 1
{'resolved':'6'}
1 0 poll 2 9 => messages 1
{'resolved':'5'}
2 0 poll 1 9 => messages 1
{'resolved':'7'}
3 0 poll 11 9 => messages 1
{'resolved':'5'}
0 poll 1 9
{'resolved':'5'}
4 0 poll 1 9 => messages 0
row a 1
{'resolved':'5'}
5 0  poll 1 9 => messages 1
{'resolved':'5'}
6 0 poll 1
{'resolved':'8'}
7 0 poll 1 \x01
{'resolved':'5'}
8 0 polls 1 9
{'resolved':'5'}
9 0 poll 01 9
{'resolved':'5'}
= done
resolved 6 0
resolved 7 0
resolved 8 0
@ follow - - initial 5 2 yes
0 0 poll 1 9 => messages 1
{'resolved':'6'}
1 0 poll 2 9 => messages 1
{'resolved':'5'}
2 0 poll 1 9 => messages 1
{'resolved':'7'}
3 0 poll 11 9 => messages 1
{'resolved':'5'}
0 poll 1 9
{'resolved':'5'}
4 0 poll 1 9 => messages 0
row a 1
{'resolved':'5'}
5 0  poll 1 9 => messages 1
{'resolved':'5'}
6 0 poll 1
{'resolved':'8'}
7 0 poll 1 \x01
{'resolved':'5'}
8 0 polls 1 9
{'resolved':'5'}
9 0 poll 01 9
{'resolved':'5'}
= done
resolved 5 0
@ follow - - initial 5 11 yes
0 0 poll 1 9 => messages 1
{'resolved':'6'}
1 0 poll 2 9 => messages 1
{'resolved':'5'}
2 0 poll 1 9 => messages 1
{'resolved':'7'}
3 0 poll 11 9 => messages 1
{'resolved':'5'}
0 poll 1 9
{'resolved':'5'}
4 0 poll 1 9 => messages 0
row a 1
{'resolved':'5'}
5 0  poll 1 9 => messages 1
{'resolved':'5'}
6 0 poll 1
{'resolved':'8'}
7 0 poll 1 \x01
{'resolved':'5'}
8 0 polls 1 9
{'resolved':'5'}
9 0 poll 01 9
{'resolved':'5'}
= done
resolved 5 0
@ follow - - initial 5 3 yes
0 0 poll 1 9 => messages 1
{'resolved':'6'}
1 0 poll 2 9 => messages 1
{'resolved':'5'}
2 0 poll 1 9 => messages 1
{'resolved':'7'}
3 0 poll 11 9 => messages 1
{'resolved':'5'}
0 poll 1 9
{'resolved':'5'}
4 0 poll 1 9 => messages 0
row a 1
{'resolved':'5'}
5 0  poll 1 9 => messages 1
{'resolved':'5'}
6 0 poll 1
{'resolved':'8'}
7 0 poll 1 \x01
{'resolved':'5'}
8 0 polls 1 9
{'resolved':'5'}
9 0 poll 01 9
{'resolved':'5'}
= nothing
";

/// The examples of the guide to caches, and messages without a transcript.
pub(super) const CACHES: &str = "@ cache - - initial 10 1 yes
0 begin 10
0 put 10 apple 3
0 put 10 pear 5
0 commit 10
0 close 10
1 openinitial - - 10
1 poll 1 10
0 begin 20
0 put 20 apple 4
0 del 20 pear
0 commit 20
1 poll 1 10
0 close 25
1 poll 1 10
= done
resolved 10 2
row apple 3
row pear 5
resolved 25 1
row apple 4
@ cache - - initial 10 1 yes
0 begin 10
0 put 10 apple 3
0 put 10 pear 5
0 commit 10
0 close 10
1 openinitialevery - - 10 5
1 poll 1 10
0 begin 12
0 put 12 apple 4
0 commit 12
0 close 13
1 poll 1 10
0 close 14
1 poll 1 10
= done
resolved 14 2
row apple 4
row pear 5
@ cache - - cursor 0 1 yes
0 open - - 0
1 begin 10
1 put 10 a 1
1 commit 10
0 close 10
0 poll 1 10
= done
resolved 10 1
row a 1
@ cache - - initial 25 2 yes
0 begin 10
0 put 10 apple 3
0 put 10 pear 5
0 commit 10
0 close 10
1 openinitial - - 10
1 poll 1 10
0 begin 20
0 put 20 apple 4
0 del 20 pear
0 commit 20
1 poll 1 10
0 close 25
1 poll 1 10
2 cancel 1
1 poll 1 10
1 openinitial - - 25
1 poll 2 10
= done
resolved 25 1
row apple 4
@ cache - - initial 10 1 yes
0 begin 10
0 put 10 apple 3
0 put 10 pear 5
0 commit 10
0 close 10
1 openinitial - - 10
1 poll 1 10
0 begin 20
0 put 20 apple 4
0 del 20 pear
0 commit 20
1 poll 1 10
0 close 25
1 poll 1 10
2 cancel 1
1 poll 1 10
1 openinitial - - 25
1 poll 2 10
= done
resolved 10 2
row apple 3
row pear 5
resolved 25 1
row apple 4
@ follow - - initial 10 - no
{'after':'Mw==','key':'YXBwbGU=','updated':'10'}
{'after':'NQ==','key':'cGVhcg==','updated':'10'}
{'resolved':'10'}
{'after':'NA==','key':'YXBwbGU=','updated':'20'}
{'after':null,'key':'cGVhcg==','updated':'20'}
{'resolved':'25'}
= done
resolved 10 2
resolved 25 1
@ follow - - initial 10 - no
{'after':'Mw==','key':'YXBwbGU=','updated':'10'}
{'after':'NQ==','key':'cGVhcg==','updated':'10'}
{'resolved':'10'}
{'after':'NA==','key':'YXBwbGU=','updated':'20'}
{'after':null,'key':'cGVhcg==','updated':'20'}
{'resolved':'25'}
{'after':'Mw==','key':'YXBwbGU=','updated':'10'}
{'after':'NQ==','key':'cGVhcg==','updated':'10'}
{'resolved':'10'}
{'after':'NA==','key':'YXBwbGU=','updated':'20'}
{'after':null,'key':'cGVhcg==','updated':'20'}
{'resolved':'25'}
= faulty
resolved 10 2
resolved 25 1
fault 7 21 notafter
@ follow - - initial 10 - yes
{'after':'MQ==','key':'YQ==','updated':'10'}
{'resolved':'10'}
4 1 protect 10 => protected 1
5 1 scanat 10 - - => rows 1
row a 1
6 1 open - - 10 => opened 1
13 1 poll 1 100 => messages 3
{'after':null,'key':'YQ==','updated':'20'}
{'after':'Mg==','key':'Yg==','updated':'20'}
{'resolved':'25'}
14 1 poll 1 100 => messages 0
= done
resolved 10 1
row a 1
resolved 25 1
row b 2
";

/// Reads and writes that fail.
pub(super) const FAILING: &str = "@ follow - - cursor 5 - yes fails 0
{'after':'MQ==','key':'YQ==','updated':'6'}
{'resolved':'6'}
{'resolved':'7'}
= input
@ follow - - cursor 5 - yes fails 60
{'after':'MQ==','key':'YQ==','updated':'6'}
{'resolved':'6'}
{'resolved':'7'}
= input
@ follow - - cursor 5 - yes fails 61
{'after':'MQ==','key':'YQ==','updated':'6'}
{'resolved':'6'}
{'resolved':'7'}
= input
resolved 6 1
row a 1
@ follow - - cursor 5 - yes fails 77
{'after':'MQ==','key':'YQ==','updated':'6'}
{'resolved':'6'}
{'resolved':'7'}
= input
resolved 6 1
row a 1
@ follow - - cursor 5 - yes fails 78
{'after':'MQ==','key':'YQ==','updated':'6'}
{'resolved':'6'}
{'resolved':'7'}
= input
resolved 6 1
row a 1
resolved 7 1
row a 1
@ follow - - cursor 5 - yes room 5
{'after':'MQ==','key':'YQ==','updated':'6'}
{'resolved':'6'}
{'resolved':'7'}
= output
resol$
@ follow - - cursor 5 - yes room 5
{
= output
fault$
";

/// The script of the first cache.
pub(super) const CACHE: &str = "0 begin 10
0 put 10 apple 3
0 put 10 pear 5
0 commit 10
0 close 10
1 openinitial - - 10
1 poll 1 10
0 begin 20
0 put 20 apple 4
0 del 20 pear
0 commit 20
1 poll 1 10
0 close 25
1 poll 1 10
";
