//! Cases of texts of format two, written as the others are.

/// Texts of format two, beside the same of format one: the header, and keys, values and lines at their limits.
pub(super) const FORMATS: &str = "@ run 64 1024 0 format 2
= done
mvfeed 2
@ run 64 1024 0 format 2
0 begin 10
0 put 10 ~256*a; 1
0 put 10 ~257*a; 1
= faulty
mvfeed 2
0 0 begin 10 => started
1 0 put 10 ~256*a; 1 => written
fault 3 4 keylength
@ run 64 1024 0 format 1
0 begin 10
0 put 10 ~256*a; 1
0 put 10 ~257*a; 1
= faulty
0 0 begin 10 => started
fault 2 4 keylength
@ run 64 1024 0 format 2
0 begin 10
0 put 10 ~256*%00; ~65536*%FF;
0 scan 10 - -
0 put 10 a ~65537*a;
= faulty
mvfeed 2
0 0 begin 10 => started
1 0 put 10 ~256*%00; ~65536*%FF; => written
2 0 scan 10 - - => rows 1
row ~256*%00; ~65536*%FF;
fault 4 5 valuelength
@ run 64 1024 0 format 2
0 stats
~200001*x;
= faulty
mvfeed 2
0 0 stats => stats 0 0 0 0 0
fault 2 8 linetoolong
@ run 64 1024 0 format 2
~200000*x;$
= faulty
mvfeed 2
fault 1 7 nonewline
@ run 64 1024 0 format 2
mvfeed 2
= faulty
mvfeed 2
fault 1 6 session
@ run 0 1024 0 format 2
0 stats
= seats
@ run 64 1024 18446744073709551615 format 2
0 stats
= spent
mvfeed 2
spent 1
@ run 64 1024 0 format 2 fails 0
0 stats
= input
mvfeed 2
@ run 64 1024 0 format 2 room 3
0 stats
= output
mvf$
@ race 1 1024 format 2
0 begin 10
= done
mvfeed 2
0 0 begin 10 => started
@ race 1 1024 format 2
0 begin 10
0 jump
= faulty
mvfeed 2
fault 2 2 unknowncommand
@ race 2 0 format 2
0 begin 10
= ring
@ check
mvfeed 2
= done
yes
@ check
mvfeed 2$
= faulty
fault 1 7 nonewline
@ check
mvfeed 3
= faulty
fault 1 1 wordcount
@ check
mvfeed 2
0 0 begin 10 => started
1 0 put 10 a 1 => written
2 0 commit 10 => committed 1
3 1 begin 20 => started
4 1 get 20 a => value 2
= no
no 4
@ check
mvfeed 2
0 0 begin 10 => started
mvfeed 2
= faulty
fault 3 1 wordcount
@ check
0 0 begin 10 => started
mvfeed 2
= faulty
fault 2 1 wordcount
@ check
mvfeed 2
0 0 begin 10 => started
1 0 put 10 ~256*a; ~65536*a; => written
= done
yes
@ check
0 0 begin 10 => started
1 0 put 10 ~65*a; 1 => written
= faulty
fault 2 4 keylength
@ follow - - cursor 0 - yes format 2
{'after':'MQ==','key':'~85*YWFh;YQ==','updated':'10'}
{'resolved':'10'}
= done
resolved 10 1
row ~256*a; 1
@ follow - - cursor 0 - yes format 1
{'after':'MQ==','key':'~85*YWFh;YQ==','updated':'10'}
{'resolved':'10'}
= faulty
fault 1 5 length
";
