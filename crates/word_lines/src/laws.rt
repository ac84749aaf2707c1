//! What holds of all commands, as the contract of a function that does nothing.
ghost use Rattle.std.specs.Prelude.{◌≡◌, ℕ, ◌<◌, ◌^◌, Ok};
ghost use Rattle.word_lines.specs.Prelude.{Cmd, Format};
ghost use Rattle.word_lines.specs.Events.{command_line};
ghost use Rattle.word_lines.specs.Limits.{IsCommand};
ghost use Rattle.word_lines.specs.Reading.{command_at};
ghost use Rattle.word_lines.specs.Table.{table};

/// The text of a command is read as this command in a format whose limits it keeps, for whatever number of
/// seats.
pub fn commands()
    ensures { (f : Format) (n seat : ℕ) (c : Cmd) → n < 2 ^ 8 → seat < n → IsCommand f c → command_at f table n (command_line seat c) ≡ Ok (seat, c) }
{}
