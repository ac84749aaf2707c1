//! How the help of each command ends: what it reads and writes, and an example with what it prints. `examples/check` runs
//! the examples.

pub(crate) const RUN: &str =
    "It reads a script from standard input, and writes its transcript to standard output.

Example:
  $ printf '0 begin 10\\n0 put 10 a 1\\n0 commit 10\\n' | mvfeed run
  0 0 begin 10 => started
  1 0 put 10 a 1 => written
  2 0 commit 10 => committed 1";

pub(crate) const RACE: &str =
    "It reads a script from standard input, and writes a transcript to standard output.

Example:
  $ printf '0 begin 10\\n1 begin 20\\n' | mvfeed race 2 | mvfeed check
  yes";

pub(crate) const CHECK: &str =
    "It reads a transcript from standard input, and writes the verdict to standard output.

Example:
  $ printf '0 0 begin 10 => started\\n1 0 commit 10 => ended\\n' | mvfeed check
  no 1";

pub(crate) const STATE: &str =
    "It reads a transcript from standard input, and writes lines of JSON to standard output.

Example:
  $ printf '0 3 begin 10 => started\\n1 3 put 10 a 1 => written\\n' | mvfeed state | tail -n 1
  {\"kind\":\"transaction\",\"timestamp\":\"10\",\"seat\":\"3\",\"keys\":\"1\"}";

pub(crate) const DUMP: &str =
    "It reads a transcript from standard input, and writes a script to standard output.

Example:
  $ printf '0 begin 10\\n0 put 10 a 1\\n0 commit 10\\n1 begin 20\\n' | mvfeed run | mvfeed dump
  0 begin 10
  0 put 10 a 1
  0 commit 10
  0 close 20
  0 collect 0";

pub(crate) const FOLLOW: &str =
    "It reads messages, as lines of JSON, from standard input, and writes its report to standard output.

Example:
  $ printf '{\"after\":\"MQ==\",\"key\":\"YQ==\",\"updated\":\"10\"}\\n{\"resolved\":\"12\"}\\n' | mvfeed follow --cursor 0 --view
  resolved 12 1
  row a 1";
