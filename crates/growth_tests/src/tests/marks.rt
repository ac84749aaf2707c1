//! Lone keys with as many readers as lie in place, when a scan makes room for more; and so many marks that they are swept.
use super::crowds::{Crowd, NONE};
use super::prepared::Story;

/// A scan over forty keys that were read by themselves, below their version and above it. Two readers of a key lie in
/// place, so the scan makes room for a third in each. No key is marked by a scan that is refused, so each can be written
/// below it.
pub(super) const LONE_KEYS_IN_A_SCAN: Story = Story {
    before: "0 begin 500 => started
@10 40 1 0
0 get 500 kA => none
@
0 begin 1000 => started
@10 40 1 0
0 del 1000 kA => written
@
0 commit 1000 => committed 40
0 begin 2000 => started
@10 40 1 0
0 get 2000 kA => none
@
1 begin 3000 => started
",
    crowd: NONE,
    wanting: "1 scan 3000 k1 k5 => rows 0
",
    standing: "2 begin 2500 => started
@10 40 1 0
2 put 2500 kA 1 => written
@
2 abort 2500 => aborted
",
    after: "@10 40 1 400
2 begin B => started
2 put B kA 1 => toolate
@
@10 40 1 1100
2 begin B => started
2 put B kA 1 => toolate
@
@10 40 1 2100
2 begin B => started
2 put B kA 1 => toolate
@
2 begin 2600 => started
2 put 2600 k5 1 => written
2 put 2600 k09 1 => written
",
};

/// Reads of so many keys that one of them sweeps the marks: of 16,384 lone keys and starts 40 and eight stand before the
/// crowd. What is closed is forgotten then: some of the lone keys, and the spans of scans, whose starts are too long to be
/// held in place. It stands in no writer's way.
pub(super) const MARKS_THAT_ARE_SWEPT: Story = Story {
    before: "0 begin 10 => started
@10 40 1 0
0 get 10 kA => none
@
@0 4 1 0
0 scan 10 LA LAz => rows 0
@
0 commit 10 => committed 0
0 close 15 => closed 15 0
0 begin 90000 => started
",
    crowd: Crowd {
        ts: 90_000,
        first: 100_000,
        count: 16_334,
    },
    wanting: "@116334 10 1 0
0 get 90000 kA => none
@
",
    standing: "",
    after: "@100 64 256 99900
2 begin A => started
2 put A kB 1 => toolate
@
2 begin 20 => started
@10 40 1 0
2 put 20 kA 1 => written
@
2 put 20 L0 1 => written
",
};
