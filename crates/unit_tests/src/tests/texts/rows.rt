//! Texts, a row each: what is read, how many seats there are, the line and the code of its fault, and the text.
//!
//! What is read is a command (`c`), a script (`s`), a transcript (`t`), a message (`j`) or a word that spells bytes
//! (`w`), in format one, or in format two where that is a capital letter. A text without a fault, at 0 0, comes back as
//! it was once it is written again. In a text `|` ends a line, `'` is a quotation mark, `^` the byte 255, and `~3*ab;`
//! is `ababab`.

/// Lines of commands. The last of them have two faults, of which the first is told.
pub(super) const COMMANDS: &str = "c 64 0 0 0 begin 10|
c 64 0 0 1 get 20 a|
c 64 0 0 63 scan 20 - -|
c 64 0 0 0 put 10 a 1|
c 64 0 0 0 put 10 %2D -|
c 64 0 0 0 put 10 a =>|
c 64 0 0 2 del 15 a%00%FF|
c 64 0 0 0 commit 10|
c 64 0 0 0 abort 10|
c 64 0 0 0 close 18446744073709551615|
c 64 0 0 2 closehard 0|
c 64 0 0 0 readat 29 a|
c 64 0 0 2 scanat 50 c -|
c 64 0 0 2 protect 20|
c 64 0 0 0 release 1|
c 64 0 0 0 collect 30|
c 64 0 0 0 open b c 0|
c 64 0 0 0 open %2D - 5|
c 64 0 0 0 openinitial - - 7|
c 64 0 0 1 openinitial %2D c%00 18446744073709551615|
c 64 0 0 0 openevery - - 0 10|
c 64 0 0 63 openevery b %2D 18446744073709551615 0|
c 64 0 0 0 openinitialevery - - 7 10|
c 64 0 0 63 openinitialevery %2D c%00 18446744073709551615 0|
c 64 0 0 0 poll 1 10|
c 64 0 0 1 cancel 1|
c 64 0 0 0 stats|
c 64 0 0 0 begin 10|
c 64 1 7 0 begin 10
c 64 1 7 
c 64 1 1 |
c 64 1 6 64 stats|
c 64 1 1 0  stats|
c 64 1 1 0 begin|
c 64 1 3 0 begin 01|
c 64 1 2 0 jump|
c 64 1 9 0 get 10 %41|
c 64 1 4 0 get 10 -|
c 64 1 1 0 stats |
c 64 1 9 0 stats\r|
c 64 1 6 00 stats|
c 64 1 3 0 begin 18446744073709551616|
c 64 1 9 0 put 10 a %2d|
c 64 1 9 0 stats|x|
c 64 1 1 0 stats 1|
c 64 1 1 0|
c 64 1 1 0 openinitial - -|
c 64 1 1 0 openinitial - - 7 1|
c 64 1 1 0 openevery - - 7|
c 64 1 1 0 openevery - - 7 1 1|
c 64 1 1 0 openinitialevery - - 7|
c 64 1 1 0 openinitialevery - - 7 1 1|
c 64 1 2 0 openinitials - - 7|
c 64 1 2 0 openevery7 - - 7 1|
c 64 1 2 0 openinitialever - - 7 1|
c 64 1 2 0 openeveryinitial - - 7 1|
c 64 1 3 0 openinitial - - 07|
c 64 1 3 0 openinitial - - 18446744073709551616|
c 64 1 3 0 openevery - - x 1|
c 64 1 3 0 openevery - - 7 x|
c 64 1 3 0 openinitialevery - - 07 1|
c 64 1 3 0 openinitialevery - - 7 x|
c 64 1 9 0 openinitial %41 - 7|
c 64 1 9 0 openinitial - %2d 7|
c 64 1 9 0 openevery %41 - 7 1|
c 64 1 9 0 openevery - %2d 7 1|
c 64 1 9 0 openinitialevery %41 - 7 1|
c 64 1 9 0 openinitialevery - %2d 7 1|
c 64 1 6 64 openevery - - 7|
c 64 1 1 0 openinitial - - x 1|
c 64 1 1 0 openevery - - x|
c 64 1 1 0 openinitialevery - - x|
c 64 1 9 0 openinitial %41 - x|
c 64 1 9 0 openevery - %41 x 1|
c 64 1 9 0 openinitialevery - %41 x 1|
c 64 1 1 0 openevery - - x |
c 64 1 9 0 openevery - - x 1\r|
c 64 1 6 64 jump|
c 64 1 2 0 jump 01 -|
c 64 1 1 0 put 01 - |
c 64 1 3 0 put 01 - %41|
c 64 1 4 0 put 10 - %41|
c 64 1 9 x jump \r|
c 1 0 0 0 put 10 a 1|
c 1 1 6 1 put 10 a 1|
";

/// Scripts. Of two faulty lines the first is told.
pub(super) const SCRIPTS: &str = "s 4 0 0 
s 4 0 0 0 begin 10|3 get 10 a|
s 4 0 0 0 stats|1 stats|3 stats|
s 4 3 2 0 stats|1 stats|3 jump|0 stats|
s 4 3 6 0 stats|1 stats|4 stats|0 stats|
s 4 3 1 0 stats|1 stats||0 stats|
s 4 1 6 4 stats|
s 4 2 7 0 stats|1 stats
s 4 1 7 0 stats
s 4 1 1 |
s 4 1 9 0 stats\r|
s 4 2 3 0 stats|0 begin x|0 jump|
s 4 1 3 0 begin x|0 stats
s 0 1 6 0 stats|
s 255 0 0 254 stats|
s 255 1 6 255 stats|
s 64 0 0 ~3000*63 begin 7|;
s 64 3001 6 ~3000*63 begin 7|;64 begin 3000|
";

/// Events with a reply of each kind, also with no row, no message, no value and words that look like an arrow.
pub(super) const REPLIES: &str = "t - 0 0 
t - 0 0 0 0 begin 10 => started|
t - 0 0 1 1 get 20 a => none|
t - 0 0 2 63 get 20 a => value -|
t - 0 0 3 0 scan 20 - - => rows 0|
t - 0 0 4 0 scan 20 b %2D => rows 2|row b 2|row c%00%FF -|
t - 0 0 5 0 put 10 a => => written|
t - 0 0 6 0 commit 10 => committed 2|
t - 0 0 7 0 abort 10 => aborted|
t - 0 0 8 0 close 18446744073709551615 => closed 9 0|
t - 0 0 9 2 closehard 0 => closed 9 1|
t - 0 0 10 2 protect 20 => protected 1|
t - 0 0 11 0 release 1 => released|
t - 0 0 12 0 collect 30 => collected 30 2|
t - 0 0 13 0 open b c 0 => opened 1|
t - 0 0 14 0 poll 1 10 => messages 0|
t - 0 0 15 1 cancel 1 => cancelled|
t - 0 0 16 0 stats => stats 1 0 1 30 18446744073709551615|
t - 0 0 17 0 openinitial - %2D 7 => opened 2|
t - 0 0 18 0 openevery a - 7 10 => opened 3|
t - 0 0 19 0 openinitialevery a %2D 7 10 => opened 4|
t - 0 0 18446744073709551615 0 stats => nomemory|
t - 0 0 0 0 begin 0 => tsrange|
t - 0 0 1 0 begin 5 => belowclosed 100|
t - 0 0 2 0 begin 5 => tsused|
t - 0 0 3 0 get 5 a => blocked 10|
t - 0 0 4 0 get 5 a => value =>|
t - 0 0 5 0 del 5 a => notxn|
t - 0 0 6 0 put 5 a - => notowner|
t - 0 0 7 0 commit 5 => ended|
t - 0 0 8 0 put 5 a - => toolate|
t - 0 0 9 0 readat 40 a => notclosed 30|
t - 0 0 10 0 scanat 4 - - => belowhorizon 30|
t - 0 0 11 0 release 9 => noprotection|
t - 0 0 12 0 poll 9 1 => nofeed|
t - 0 0 13 0 cancel 9 => feedcancelled|
t - 0 0 14 0 stats => value =>|
t - 0 0 15 0 openinitial - - 31 => notclosed 30|
t - 0 0 16 0 openevery - - 7 0 => gaprange|
t - 0 0 17 0 openinitialevery - - 31 1 => notclosed 30|
t - 0 0 0 0 begin 10 => started|1 1 get 20 a => none|2 63 get 20 a => value -|3 0 scan 20 - - => rows 0|4 0 scan 20 b %2D => rows 2|row b 2|row c%00%FF -|5 0 put 10 a => => written|6 0 commit 10 => committed 2|
";

/// First lines of transcripts. The last of them have two faults, of which the first is told.
pub(super) const EVENTS: &str = "t - 0 0 0 0 stats => nofeed|
t - 1 7 0 0 stats => nofeed
t - 1 1 |
t - 1 9 0 0 stats => nofeed\r|
t - 1 1 0  stats => nofeed|
t - 1 1  0 0 stats => nofeed|
t - 1 1 0 0 stats => nofeed |
t - 1 1 0 0|
t - 1 3 x 0 stats => nofeed|
t - 1 3 00 0 stats => nofeed|
t - 1 3 18446744073709551616 0 stats => nofeed|
t - 1 6 0 64 stats => nofeed|
t - 1 6 0 x stats => nofeed|
t - 1 2 0 0 jump => nofeed|
t - 1 1 0 0 put 1 a|
t - 1 1 0 0 put 1 a v|
t - 1 1 0 0 put 1 a v w => written|
t - 1 1 0 0 put 1 a => written|
t - 1 1 0 0 stats x => nofeed|
t - 1 3 0 0 begin x => started|
t - 1 9 0 0 get 1 %41 => none|
t - 1 4 0 0 get 1 - => none|
t - 1 10 0 0 stats =>|
t - 1 10 0 0 stats => jump|
t - 1 10 0 0 stats => nofeed 1|
t - 1 10 0 0 stats => closed 1|
t - 1 10 0 0 stats => closed 1 x|
t - 1 10 0 0 stats => value %41|
t - 1 10 0 0 stats => rows|
t - 1 10 0 0 stats => rows 01|
t - 0 0 0 0 openinitial - - 7 => gaprange|
t - 0 0 0 0 openevery - - 7 0 => gaprange|
t - 0 0 0 0 openinitialevery - - 7 0 => gaprange|
t - 1 10 0 0 openevery - - 7 0 => gaprange 0|
t - 1 10 0 0 openevery - - 7 0 => gapranges|
t - 1 1 0 0 openinitial - - => opened 1|
t - 1 1 0 0 openinitial - - 7 1 => opened 1|
t - 1 1 0 0 openevery - - 7 => opened 1|
t - 1 1 0 0 openevery - - 7 1 1 => opened 1|
t - 1 1 0 0 openinitialevery - - 7 => opened 1|
t - 1 1 0 0 openinitialevery - - 7 1 1 => opened 1|
t - 1 3 0 0 openinitial - - x => opened 1|
t - 1 3 0 0 openevery - - x 1 => opened 1|
t - 1 3 0 0 openevery - - 7 x => gaprange 0|
t - 1 3 0 0 openinitialevery - - 7 x => opened 1|
t - 1 9 0 0 openinitial - %41 x => opened 1|
t - 1 3 x 64 stats => nofeed|
t - 1 6 0 64 jump => nofeed|
t - 1 2 0 0 jump - nofeed|
t - 1 1 0 0 begin x nofeed|
t - 1 3 0 0 put x - %41 => jump|
t - 1 4 0 0 put 1 - %41 => jump|
t - 1 9 0 0 put 1 a %41 => jump|
";

/// Lines that follow an event: as many as it says, which may be more than there is room for.
pub(super) const FOLLOWING: &str = "t - 0 0 0 0 scan 1 - - => rows 2|row a 1|row b -|
t - 2 11 0 0 scan 1 - - => rows 2|
t - 3 11 0 0 scan 1 - - => rows 2|row a 1|
t - 3 7 0 0 scan 1 - - => rows 2|row a 1|row b -
t - 3 11 0 0 scan 1 - - => rows 2|row a 1|row b - |
t - 3 11 0 0 scan 1 - - => rows 2|row a 1|row - b|
t - 3 11 0 0 scan 1 - - => rows 2|row a 1|row b|
t - 3 11 0 0 scan 1 - - => rows 2|row a 1|row b 1 2|
t - 3 11 0 0 scan 1 - - => rows 2|row a 1|row b %41|
t - 3 11 0 0 scan 1 - - => rows 2|row a 1|Row b 1|
t - 3 11 0 0 scan 1 - - => rows 2|row a 1||
t - 3 11 0 0 scan 1 - - => rows 2|row a 1|row b ^|
t - 2 11 0 0 scan 1 - - => rows 2|row|
t - 2 7 0 0 scan 1 - - => rows 2|^
t - 4 3 0 0 scan 1 - - => rows 2|row a 1|row b -|row c -|
t - 4 1 0 0 scan 1 - - => rows 2|row a 1|row b -||
t - 4 7 0 0 scan 1 - - => rows 2|row a 1|row b -|1 0 stats => nofeed
t - 0 0 0 0 poll 1 2 => messages 2|{'after':null,'key':'Yg==','updated':'20'}|{'resolved':'30'}|
t - 2 11 0 0 poll 1 2 => messages 2|
t - 2 11 0 0 poll 1 2 => messages 2|{ 'resolved':'30'}|{'resolved':'30'}|
t - 2 11 0 0 poll 1 2 => messages 2|{'resolved':'030'}|{'resolved':'30'}|
t - 3 11 0 0 poll 1 2 => messages 2|{'resolved':'30'}|
t - 3 7 0 0 poll 1 2 => messages 2|{'resolved':'30'}|{'resolved':'30'
t - 3 11 0 0 poll 1 2 => messages 2|{'resolved':'30'}|{'resolved':'30'|
t - 3 11 0 0 poll 1 2 => messages 2|{'resolved':'30'}|{'resolved':30}|
t - 3 11 0 0 poll 1 2 => messages 2|{'resolved':'30'}|row a 1|
t - 3 11 0 0 poll 1 2 => messages 2|{'resolved':'30'}||
t - 2 11 0 0 scan 1 - - => rows 1000000|
t - 2 11 0 0 scan 1 - - => rows 18446744073709551615|
t - 2 11 0 0 poll 1 1 => messages 1000000|
t - 2 11 0 0 poll 1 1 => messages 18446744073709551615|
t - 3 11 0 0 scan 1 - - => rows 18446744073709551615|row a 1|
t - 3 11 0 0 poll 1 1 => messages 18446744073709551615|{'resolved':'30'}|
";

/// Lines of messages. The last of them have several faults, of which the first is told.
pub(super) const MESSAGES: &str = "j - 0 0 {'after':'MQ==','key':'Yg==','updated':'10'}|
j - 0 0 {'after':'','key':'Yg==','updated':'10'}|
j - 0 0 {'after':null,'key':'Yg==','updated':'20'}|
j - 0 0 {'resolved':'30'}|
j - 0 0 {'resolved':'1'}|
j - 0 0 {'resolved':'9223372036854775807'}|
j - 1 2 {'resolved':'30'}
j - 1 2 { 'resolved':'30'}|
j - 1 2 {'key':'Yg==','after':null,'updated':'20'}|
j - 1 2 {'resolved':30}|
j - 1 2 []|
j - 1 1 {'resolved':'30'|
j - 1 3 {'resolved':'030'}|
j - 1 3 {'resolved':'0'}|
j - 1 3 {'resolved':'9223372036854775808'}|
j - 1 4 {'after':'Y','key':'Yg==','updated':'10'}|
j - 1 4 {'after':'MR==','key':'Yg==','updated':'10'}|
j - 1 5 {'after':'MQ==','key':'','updated':'10'}|
j - 1 1 
j - 1 1 |
j - 1 1 ^|
j - 1 1 {'resolved':'^'}|
j - 1 1 {'resolved':'30'}|{'resolved':'30'}|
j - 1 2 null|
j - 1 2 {}|
j - 1 2 {'resolve':'30'}|
j - 1 2 {'resolved':null}|
j - 1 2 {'key':'Yg==','resolved':'30'}|
j - 1 2 {'key':'Yg==','updated':'20'}|
j - 1 2 {'after':1,'key':'Yg==','updated':'20'}|
j - 1 2 {'after':null,'key':null,'updated':'20'}|
j - 1 2 {'after':null,'key':'Yg==','updated':20}|
j - 1 2 {'after':null,'key':'Yg==','resolved':'20'}|
j - 1 2 {'after':null,'before':null,'key':'Yg==','updated':'20'}|
j - 1 2 {'resolved':'30'}||
j - 1 2 {'resolved':'30'}\r|
j - 1 2  {'resolved':'30'}|
j - 1 2 {'resolved': '30'}|
j - 1 2 {'resolved':'\\u0033\\u0030'}|
j - 1 2 {'after':null,'updated':'20','key':'Yg=='}|
j - 1 3 {'after':'Y','key':'','updated':'0'}|
j - 1 4 {'after':'Y','key':'','updated':'1'}|
j - 1 4 {'after':null,'key':'MR==','updated':'1'}|
j - 1 4 {'after':null,'key':'MQ','updated':'1'}|
j - 1 4 {'after':null,'key':'M Q=','updated':'1'}|
j - 1 3 {'resolved':''}|
j - 1 3 {'resolved':'-1'}|
j - 1 3 {'resolved':'+1'}|
j - 1 3 {'resolved':'18446744073709551616'}|
";

/// Lines with a name that stands twice.
pub(super) const TWICE: &str = "{'resolved':'30','resolved':'30'}|
{'after':null,'after':null,'key':'Yg==','updated':'20'}|
{'after':null,'key':'Yg==','key':'Yg==','updated':'20'}|
";

/// Words, and texts that spell no bytes.
pub(super) const WORDS: &str = "w - 0 0 -
w - 0 0 a
w - 0 0 %2D
w - 0 0 --
w - 0 0 %20
w - 0 0 %25
w - 0 0 %00%FF
w - 0 0 =>
w - 1 9 
w - 1 9 %41
w - 1 9 a%2D
w - 1 9 %2d
w - 1 9 %
w - 1 9 %4
w - 1 9 a b
w - 1 9 \x7f
w - 1 9 %2D-
w - 1 9 %0
w - 1 9 %GG
";

/// Texts of format two: its header, and keys, values and lines of the greatest length that is read, and of a byte more.
pub(super) const FORMAT_TWO: &str = "T - 0 0 mvfeed 2|
T - 1 1 
T - 1 1 |
T - 1 1 mvfeed 2
T - 1 1 mvfeed 3|
T - 1 1 mvfeed  2|
T - 1 1 mvfeed 2 |
T - 1 1  mvfeed 2|
T - 1 1 0 0 begin 10 => started|
t - 1 1 mvfeed 2|
t - 1 1 mvfeed 2|0 0 begin 10 => started|
T - 0 0 mvfeed 2|0 0 begin 10 => started|1 1 get 20 a => none|
T - 2 1 mvfeed 2|mvfeed 2|
T - 2 1 mvfeed 2||
T - 2 7 mvfeed 2|0 0 stats => nofeed
T - 3 10 mvfeed 2|0 0 begin 10 => started|1 1 get 20 a => jump|
T - 3 11 mvfeed 2|0 0 scan 1 - - => rows 1|
T - 2 7 mvfeed 2|~200000*x;
T - 2 1 mvfeed 2|~200000*x;|
T - 2 8 mvfeed 2|~200001*x;
T - 2 8 mvfeed 2|~200001*x;|
T - 0 0 mvfeed 2|0 0 get 1 ~256*a; => value ~65536*a;|
T - 2 10 mvfeed 2|0 0 get 1 ~256*a; => value ~65537*a;|
T - 2 4 mvfeed 2|0 0 get 1 ~257*a; => value ~65536*a;|
T - 0 0 mvfeed 2|0 0 scan 1 - - => rows 1|row ~256*%00; ~65536*%FF;|
T - 3 11 mvfeed 2|0 0 scan 1 - - => rows 1|row ~257*a; a|
T - 3 11 mvfeed 2|0 0 scan 1 - - => rows 1|row a ~65537*a;|
T - 0 0 mvfeed 2|0 0 poll 1 1 => messages 1|{'after':'~21845*YWFh;YQ==','key':'~85*YWFh;YQ==','updated':'10'}|
T - 3 11 mvfeed 2|0 0 poll 1 1 => messages 1|{'after':null,'key':'~85*YWFh;YWE=','updated':'10'}|
C 64 0 0 0 get 1 ~256*a;|
C 64 1 4 0 get 1 ~257*a;|
C 64 1 4 0 get 1 -|
C 64 0 0 0 put 1 ~256*%00; ~65536*%FF;|
C 64 0 0 0 put 1 a ~65536*a;|
C 64 1 5 0 put 1 a ~65537*a;|
C 64 1 4 0 put 1 ~257*a; ~65537*a;|
C 64 0 0 0 open ~257*a; ~257*b; 0|
C 64 1 4 0 open ~258*a; - 0|
C 64 1 4 0 open - ~258*a; 0|
C 64 0 0 0 openinitialevery ~257*a; ~257*b; 0 1|
C 64 1 4 0 openinitialevery ~258*a; - 0 1|
C 64 1 4 0 openinitialevery - ~258*a; 0 x|
C 64 0 0 0 scan 1 ~257*%00; ~257*%FF;|
C 64 1 1 ~200000*x;|
C 64 1 7 ~200000*x;
C 64 1 8 ~200001*x;|
C 64 1 8 ~200001*x;
C 64 1 8 ~200001*^;|
C 64 1 6 mvfeed 2|
S 4 0 0 
S 4 1 6 mvfeed 2|
S 4 0 0 0 put 1 ~256*a; ~65536*a;|3 get 1 a|
S 4 2 4 0 put 1 ~256*a; ~65536*a;|3 get 1 ~257*a;|
J - 0 0 {'after':null,'key':'~85*YWFh;YQ==','updated':'10'}|
j - 1 5 {'after':null,'key':'~85*YWFh;YQ==','updated':'10'}|
J - 1 5 {'after':null,'key':'~85*YWFh;YWE=','updated':'10'}|
J - 1 5 {'after':null,'key':'','updated':'10'}|
J - 0 0 {'after':'~21845*YWFh;YQ==','key':'YQ==','updated':'10'}|
J - 1 5 {'after':'~21845*YWFh;YWE=','key':'YQ==','updated':'10'}|
J - 0 0 {'resolved':'30'}|
J - 1 2 {'resolved':'30'}
";

/// Keys, values and lines of the greatest length that is read, and of a byte more. Four letters `a` or `A` are the
/// base64 of three bytes; one more byte stands in `aQ==` or `AA==`, and two in `aaY=` or `AAA=`.
pub(super) const LIMITS: &str = "c 64 1 4 0 get 1 -|
c 64 0 0 0 get 1 a|
c 64 0 0 0 get 1 ~64*a;|
c 64 1 4 0 get 1 ~65*a;|
c 64 0 0 0 put 1 a -|
c 64 0 0 0 put 1 a ~1024*a;|
c 64 1 5 0 put 1 a ~1025*a;|
c 64 0 0 0 put 1 a %00~1023*a;|
c 64 1 5 0 put 1 a %00~1024*a;|
c 64 0 0 0 open ~65*a; - 0|
c 64 1 4 0 open ~66*a; - 0|
c 64 0 0 0 open - ~65*a; 0|
c 64 1 4 0 open - ~66*a; 0|
c 64 0 0 0 openinitial ~65*a; - 0|
c 64 1 4 0 openinitial ~66*a; - x|
c 64 0 0 0 openinitial - ~65*a; 0|
c 64 1 4 0 openinitial - ~66*a; x|
c 64 0 0 0 openevery ~65*a; - 0 1|
c 64 1 4 0 openevery ~66*a; - x 1|
c 64 0 0 0 openevery - ~65*a; 0 1|
c 64 1 4 0 openevery - ~66*a; 0 x|
c 64 0 0 0 openinitialevery ~65*a; ~65*b; 0 1|
c 64 1 4 0 openinitialevery ~66*a; - x 1|
c 64 1 4 0 openinitialevery - ~66*a; 0 x|
c 64 1 7 ~4096*a;
c 64 1 8 ~4097*a;
c 64 1 1 ~4096*a;|
c 64 1 8 ~4097*a;|
c 64 1 5 0 put 1 a ~4086*a;|
c 64 1 8 0 put 1 a ~4087*a;|
t - 0 0 0 0 get 1 a => none|
t - 0 0 0 0 get 1 ~64*a; => none|
t - 1 4 0 0 get 1 ~65*a; => none|
t - 0 0 0 0 open ~65*a; - 0 => opened 1|
t - 1 4 0 0 open ~66*a; - 0 => opened 1|
t - 0 0 0 0 openinitial ~65*a; - 0 => opened 1|
t - 1 4 0 0 openinitial - ~66*a; x => opened 1|
t - 0 0 0 0 openevery - ~65*a; 0 1 => opened 1|
t - 1 4 0 0 openevery ~66*a; - 0 x => opened 1|
t - 0 0 0 0 openinitialevery - ~65*a; 0 1 => opened 1|
t - 1 4 0 0 openinitialevery - ~66*a; 0 x => opened 1|
t - 0 0 0 0 scan 1 - ~65*a; => rows 0|
t - 1 4 0 0 scan 1 - ~66*a; => rows 0|
t - 0 0 0 0 put 1 a ~1024*a; => written|
t - 1 5 0 0 put 1 a ~1025*a; => written|
t - 0 0 0 0 get 1 a => value ~1024*a;|
t - 1 10 0 0 get 1 a => value ~1025*a;|
t - 0 0 0 0 scan 1 - - => rows 1|row ~64*a; -|
t - 2 11 0 0 scan 1 - - => rows 1|row ~65*a; -|
t - 0 0 0 0 scan 1 - - => rows 1|row a ~1024*a;|
t - 2 11 0 0 scan 1 - - => rows 1|row a ~1025*a;|
t - 1 7 ~4096*a;
t - 1 8 ~4097*a;
t - 1 1 ~4096*a;|
t - 1 8 ~4097*a;|
t - 2 7 0 0 scan 1 - - => rows 1|~4096*a;
t - 2 8 0 0 scan 1 - - => rows 1|~4097*a;
t - 2 11 0 0 scan 1 - - => rows 1|~4096*a;|
t - 2 8 0 0 scan 1 - - => rows 1|~4097*a;|
t - 2 7 0 0 poll 1 1 => messages 1|~4096*a;
t - 2 8 0 0 poll 1 1 => messages 1|~4097*a;
t - 2 11 0 0 poll 1 1 => messages 1|~4096*a;|
t - 2 8 0 0 poll 1 1 => messages 1|~4097*a;|
t - 2 11 0 0 poll 1 1 => messages 1|{'after':null,'key':'','updated':'7'}|
t - 0 0 0 0 poll 1 1 => messages 1|{'after':null,'key':'aQ==','updated':'7'}|
t - 0 0 0 0 poll 1 1 => messages 1|{'after':null,'key':'~84*a;aQ==','updated':'7'}|
t - 2 11 0 0 poll 1 1 => messages 1|{'after':null,'key':'~84*a;aaY=','updated':'7'}|
t - 0 0 0 0 poll 1 1 => messages 1|{'after':'','key':'Yg==','updated':'7'}|
t - 0 0 0 0 poll 1 1 => messages 1|{'after':'~1364*a;aQ==','key':'Yg==','updated':'7'}|
t - 2 11 0 0 poll 1 1 => messages 1|{'after':'~1364*a;aaY=','key':'Yg==','updated':'7'}|
t - 0 0 0 0 put 1 a ~1024*%00; => value ~1002*a;|
t - 1 8 0 0 put 1 a ~1024*%00; => value ~1003*a;|
j - 1 5 {'after':null,'key':'','updated':'7'}|
j - 0 0 {'after':'','key':'Yg==','updated':'7'}|
j - 0 0 {'after':null,'key':'AA==','updated':'7'}|
j - 0 0 {'after':'AA==','key':'Yg==','updated':'7'}|
j - 0 0 {'after':null,'key':'~21*AAAA;AA==','updated':'7'}|
j - 0 0 {'after':'~21*AAAA;AA==','key':'Yg==','updated':'7'}|
j - 1 5 {'after':null,'key':'~21*AAAA;AAA=','updated':'7'}|
j - 0 0 {'after':'~21*AAAA;AAA=','key':'Yg==','updated':'7'}|
j - 1 5 {'after':null,'key':'~341*AAAA;AA==','updated':'7'}|
j - 0 0 {'after':'~341*AAAA;AA==','key':'Yg==','updated':'7'}|
j - 1 5 {'after':null,'key':'~341*AAAA;AAA=','updated':'7'}|
j - 1 5 {'after':'~341*AAAA;AAA=','key':'Yg==','updated':'7'}|
";

/// The rows that are read.
pub(super) const TABLES: [&str; 9] = [
    COMMANDS, SCRIPTS, REPLIES, EVENTS, FOLLOWING, MESSAGES, WORDS, LIMITS, FORMAT_TWO,
];

/// Bytes, and their words.
pub(super) const BYTES: [&[u8]; 8] = [b"", b"a", b"-", b"--", b" ", b"%", b"\x00\xff", b"=>"];

pub(super) const SPELLED: &str = "- a %2D -- %20 %25 %00%FF => ";

/// The test vectors of RFC 4648, section 10, the last symbols of the alphabet, and then all 64 in their order; and the
/// lines of their deletes.
pub(super) const KEYS: [&[u8]; 8] = [
    b"f",
    b"fo",
    b"foo",
    b"foob",
    b"fooba",
    b"foobar",
    b"\xfb\xff\xbf",
    b"\x00\x10\x83\x10Q\x87 \x92\x8b0\xd3\x8fA\x14\x93QU\x97a\x96\x9bq\xd7\x9f\x82\x18\xa3\x92Y\xa7\xa2\x9a\xab\xb2\xdb\xaf\xc3\x1c\xb3\xd3]\xb7\xe3\x9e\xbb\xf3\xdf\xbf",
];

pub(super) const VECTORS: &str =
    "before {'after':null,'key':'Zg==','updated':'7'}|{'after':null,'key':'Zm8=','updated':'7'}|{'after':null,'key':'Zm9v','updated':'7'}|{'after':null,'key':'Zm9vYg==','updated':'7'}|{'after':null,'key':'Zm9vYmE=','updated':'7'}|{'after':null,'key':'Zm9vYmFy','updated':'7'}|{'after':null,'key':'+/+/','updated':'7'}|{'after':null,'key':'ABCDEFGHIJKLMNOPQRSTUVWXYZabcdefghijklmnopqrstuvwxyz0123456789+/','updated':'7'}|";

pub(super) const FAULTS: &str = "fault 1 1 wordcount
wordcount wordcount
fault 1 2 unknowncommand
unknowncommand unknowncommand
fault 1 3 number
number number
fault 1 4 keylength
keylength keylength
fault 1 5 valuelength
valuelength valuelength
fault 1 6 session
session session
fault 1 7 nonewline
nonewline nonewline
fault 1 8 linetoolong
linetoolong linetoolong
fault 1 9 badbyte
badbyte badbyte
fault 1 10 reply
reply reply
fault 1 11 follow
follow follow
1 notjson
2 shape
3 number
4 base64
5 length
6 nomemory
";

pub(super) const OTHER_LINES: &str = "3: follow
nomemory
nomemory
spent 3
";
