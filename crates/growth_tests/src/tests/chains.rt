//! Chains of one key that are longer than a block. A list holds 256 versions, and so does a block. Every second version has
//! a value that is too long to be held in place, so that a version which is lost changes a reply at once.
use super::crowds::NONE;
use super::prepared::Story;

/// The put of the first version that a list doesn't hold: the list turns into a block, which is halved.
pub(super) const LIST_THAT_IS_FULL: Story = Story {
    before: "@10 128 20 10
0 begin A => started
0 put A k L => written
0 commit A => committed 1
0 begin B => started
0 put B k 1 => written
0 commit B => committed 1
@
0 close 2560 => closed 2560 0
0 begin 2570 => started
",
    crowd: NONE,
    wanting: "0 put 2570 k L => written
",
    standing: "@10 128 20 10
1 readat A k => value L
1 readat B k => value 1
@
",
    after: "0 commit 2570 => committed 1
0 close 2570 => closed 2570 0
@10 128 20 10
1 readat A k => value L
1 readat B k => value 1
@
1 readat 2570 k => value L
1 open - - 0 => opened 1
1 poll 1 1000 => messages 258
@10 128 20 10
{\"after\":\"YmJiYmJiYmJiYmJiYmJiYmJiYmJiYmJiYmJiYmJiYmI=\",\"key\":\"aw==\",\"updated\":\"A\"}
{\"after\":\"MQ==\",\"key\":\"aw==\",\"updated\":\"B\"}
@
{\"after\":\"YmJiYmJiYmJiYmJiYmJiYmJiYmJiYmJiYmJiYmJiYmI=\",\"key\":\"aw==\",\"updated\":\"2570\"}
{\"resolved\":\"2570\"}
1 cancel 1 => cancelled
1 collect 2570 => collected 2570 256
1 readat 2570 k => value L
",
};

/// The put that halves the second block: room for a third is wanted too.
pub(super) const BLOCK_THAT_IS_FULL: Story = Story {
    before: "@10 192 20 10
0 begin A => started
0 put A k L => written
0 commit A => committed 1
0 begin B => started
0 put B k 1 => written
0 commit B => committed 1
@
0 close 3840 => closed 3840 0
0 begin 3850 => started
",
    crowd: NONE,
    wanting: "0 put 3850 k L => written
",
    standing: "@10 192 20 10
1 readat A k => value L
1 readat B k => value 1
@
",
    after: "0 commit 3850 => committed 1
0 close 3850 => closed 3850 0
@10 192 20 10
1 readat A k => value L
1 readat B k => value 1
@
1 readat 3850 k => value L
1 open - - 0 => opened 1
1 poll 1 1000 => messages 386
@10 192 20 10
{\"after\":\"YmJiYmJiYmJiYmJiYmJiYmJiYmJiYmJiYmJiYmJiYmI=\",\"key\":\"aw==\",\"updated\":\"A\"}
{\"after\":\"MQ==\",\"key\":\"aw==\",\"updated\":\"B\"}
@
{\"after\":\"YmJiYmJiYmJiYmJiYmJiYmJiYmJiYmJiYmJiYmJiYmI=\",\"key\":\"aw==\",\"updated\":\"3850\"}
{\"resolved\":\"3850\"}
1 cancel 1 => cancelled
1 collect 3850 => collected 3850 384
1 readat 3850 k => value L
",
};

/// Reads over all blocks: of a key, of a span, of snapshots, and of a feed.
pub(super) const READS_OVER_BLOCKS: Story = Story {
    before: "@10 150 20 10
0 begin A => started
0 put A k L => written
0 commit A => committed 1
0 begin B => started
0 put B k 1 => written
0 commit B => committed 1
@
0 close 3000 => closed 3000 0
1 open - - 0 => opened 1
2 begin 3001 => started
",
    crowd: NONE,
    wanting: "1 readat 10 k => value L
1 readat 1280 k => value 1
1 readat 1290 k => value L
1 readat 2560 k => value 1
1 readat 2570 k => value L
1 readat 2990 k => value L
2 get 3001 k => value 1
2 scan 3001 - - => rows 1
row k 1
1 poll 1 1000 => messages 301
@10 150 20 10
{\"after\":\"YmJiYmJiYmJiYmJiYmJiYmJiYmJiYmJiYmJiYmJiYmI=\",\"key\":\"aw==\",\"updated\":\"A\"}
{\"after\":\"MQ==\",\"key\":\"aw==\",\"updated\":\"B\"}
@
{\"resolved\":\"3000\"}
",
    standing: "@10 150 20 10
1 readat A k => value L
1 readat B k => value 1
@
",
    after: "1 open - - 0 => opened 2
1 poll 2 1000 => messages 301
@10 150 20 10
{\"after\":\"YmJiYmJiYmJiYmJiYmJiYmJiYmJiYmJiYmJiYmJiYmI=\",\"key\":\"aw==\",\"updated\":\"A\"}
{\"after\":\"MQ==\",\"key\":\"aw==\",\"updated\":\"B\"}
@
{\"resolved\":\"3000\"}
1 cancel 2 => cancelled
",
};
