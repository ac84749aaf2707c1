//! What holds of all texts, as the contracts of functions that do nothing.
ghost use Rattle.std.specs.Prelude.{◌≡◌, ℕ, ◌<◌, ◌^◌, List, Some, Ok};
ghost use Rattle.std.specs.List.{All};
ghost use Rattle.script.specs.Prelude.{Event, Format, IsEvent, IsMessage, KeepsLimit, Message, format_of, message_line};
ghost use Rattle.script.specs.EventLines.{message_of};
ghost use Rattle.script.specs.Scripts.{Calls, IsCall, ReadsOn, faultless, script_at, script_text};
ghost use Rattle.script.specs.Transcripts.{transcript_at, transcript_text};

/// Each message of a format has one line, and each line that is read is that of its message.
pub fn messages()
    ensures read { (format : Format) (line : List ℕ) (m : Message) → message_of format line ≡ Some m → (line ≡ message_line m) × IsMessage format m }
    ensures written { (format : Format) (m : Message) → IsMessage format m → message_of format (message_line m) ≡ Some m }
{}

/// The text of events is found to be in its format, and is read as these events, where they and their first
/// lines keep the format's limits.
pub fn transcripts()
    ensures format { (f : Format) (es : List Event) → All (IsEvent f) es → format_of (transcript_text f es) ≡ f }
    ensures read { (f : Format) (es : List Event) → All (IsEvent f) es → All (KeepsLimit f) es → transcript_at f (transcript_text f es) ≡ Ok es }
{}

/// The text of calls that keep the format's limits is read as these calls, for whatever number of seats, and
/// what stands behind them as its own lines say, their count carried on.
pub fn scripts()
    ensures whole { (f : Format) (n : ℕ) (calls : Calls) → n < 2 ^ 8 → All (IsCall f n) calls → script_at f n (script_text calls) ≡ faultless calls }
    ensures behind { (f : Format) (n : ℕ) (calls : Calls) (rest : List ℕ) → n < 2 ^ 8 → All (IsCall f n) calls → ReadsOn f n calls rest }
{}
