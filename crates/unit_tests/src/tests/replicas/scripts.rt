//! Scripts of calls, each a line with what it is answered behind `=`. An empty line ends a script.

/// Each script begins with a replica `from` a cursor on, with two bounds, the cursor and the rows to begin with, or
/// `initial` with two bounds and a cursor; `-` is no bound. What it may `receive` is a row, with its timestamp, key and
/// value, or `-` for a delete. Where a replica is made, and a message applied, the answer is 0 or the number of the
/// fault. `at` has the timestamp at which the replica is complete, `through` that through which it was told all, `before` that
/// at which its rows are the map before the message, and `keys` those that have a value.
pub(super) const SCRIPTS: &str = "from a c 7 a 1 b 1=0
at=7
len=2
rows= a1 b1
keys 1= a b

from a c 7 b 1 a 1=1

from a c 7 a 1 a 2=1

from a c 7 d 1 a 1=1

from a c 7 a 1 d 1=2

from a c 7 b 1=0
receive 10 b 2=0
receive 7 a 2=1
at=none
rows= b2
keys 1=
keys 2= b
receive 10 a -=1
rows= b2
keys 2= b
receive 10 b -=1
rows= b2
keys 2= b
receive 11 d 2=2
rows= b2
keys 2= b
resolved 7=3
at=none
resolved 9=3
at=none
rows= b2
keys 1=
keys 2= b
resolved 10=0
at=10
resolved 10=3
at=10
receive 11 a 1=0
rows= a1 b2

from - - 0=0
len=none
receive 1 k 1=0
rows= k1
keys 1= k
keys 2=
receive 2 k 1=0
rows= k1
keys 1= k
keys 2=
receive 3 k 2=0
rows= k2
keys 1=
keys 2= k
receive 4 k -=0
rows=
keys 1=
keys 2=
receive 5 k -=0
rows=
len=none
receive 6 k 2=0
rows= k2
keys 1=
keys 2= k
len=1

from - - 0=0
at=0
receive 10 b 1=0
at=none
receive 10 a 1=1
at=none
receive 20 a 1=0
at=none
keys 1= a b
resolved 19=3
at=none
resolved 20=0
at=20
resolved 20=3
at=20
receive 20 c 1=1
at=20
receive 25 b -=0
at=none
keys 1= a
rows= a1
get a=1
get b=none

from b c 0=0
receive 5 d 1=2
at=0
receive 5 b 1=0
at=none
receive 5 a 1=1
at=none

initial - - 7=0
at=none
receive 6 a 1=1
at=none
receive 7 a 1=0
at=none
receive 7 b 2=0
at=none
rows= a1 b2
receive 7 c 3=0
receive 8 b -=0
receive 8 c 4=0
at=none
resolved 9=0
at=9
rows= a1 c4

from - - 5=0
through=5
before 6 a 1=5
before 9 a 1=8
before 9=none
before 5 a 1=none
receive 9 a 1=0
through=8
before 9 b 1=none
before 9 a 1=none
receive 9 b 1=0
through=8
before 10 a 2=9
rows= a1 b1
receive 20 a 2=0
through=19
receive 19 b 2=1
before 19 b 2=none
resolved 19=3
through=19
resolved 22=0
through=22
before 23 c 3=22
before 22 c 3=none
receive 23 c 3=0
at=none
through=22

from b c 5=0
before 9 a 1=none
before 9 b 1=8
receive 9 a 1=2
through=5

initial - - 7=0
through=none
before 7 a 1=none
before 8 a 1=7
receive 7 a 1=0
through=none
before 7 b 1=none
receive 7 b 1=0
through=none
before 8 a 2=7
receive 8 a 2=0
through=7
before 8 b 2=none
before 12 b 2=11
resolved 11=0
through=11

initial - - 7=0
resolved 7=0
at=7
through=7

initial - - 0=0
at=none
through=0
before 1 a 1=0

initial - - 9=0
receive 9 a 1=0
at=none
receive 9 c 4=0
at=none
resolved 8=3
at=none
resolved 9=0
at=9
receive 9 d 1=1
at=9";
