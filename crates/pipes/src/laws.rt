//! What one part writes the next one takes, as the contracts of functions that do nothing.
ghost use Rattle.std.specs.Prelude.{List, None, Ok, Some, reverse, ℕ, ◌≡◌};
ghost use Rattle.std.specs.List.{All, flat_map};
ghost use Rattle.embedded.specs.Embedded.{StandsFor};
ghost use Rattle.embedded.specs.declared.database.Database.{Database};
ghost use Rattle.pipes.specs.Prelude.{Event, FollowOptions, Format, IsEvent, IsPair, IsServed, KeepsLimit, Message, Pairs, Reads, Replica, ServeEnd, Two, Writes, effects_of, pairs_at, row_line, transcript_at, transcript_text};
ghost use Rattle.jobs.specs.Races.{IsRaced};
ghost use Rattle.pipes.specs.Consumers.{ComesNext, TakesLine, GoOnFrom, IsKept};
ghost use Rattle.pipes.specs.Followers.{IsFollowing, ReportsAll, TakesAll, TellsMaps, told_in, told_lines};
ghost use Rattle.pipes.specs.Texts.{IsTranscript, IsWholeAt, IsWritable, KeepsFormat, SaysYes};
ghost use Rattle.shared_db.specs.declared.config.Config.{Config};
ghost use Rattle.text_format.specs.Limits.{format_of};

/// Each event of a history whose commands keep a format's limits has a text that keeps them too, so the text of them all is
/// read again, in its format, as these events, and `check` says `yes`.
pub fn law_of_texts()
    ensures events { (f : Format) (first : ℕ) (es : List Event) → IsWritable f first es → All (IsEvent f) es }
    ensures lines { (f : Format) (first : ℕ) (es : List Event) → IsWritable f first es → All (KeepsLimit f) es }
    ensures read { (f : Format) (first : ℕ) (es : List Event) → IsWritable f first es → transcript_at (format_of (transcript_text f es)) (transcript_text f es) ≡ Ok es }
    ensures yes { (f : Format) (first : ℕ) (es : List Event) → IsWritable f first es → SaysYes (transcript_text f es) }
{}

/// `mvfeed run | mvfeed check` and `mvfeed race | mvfeed check` say `yes`: of what a run has written, unless a faulty line, a
/// write that failed, or a spent position ended it, and of what a race has written of its calls. So of what an embedded
/// database gave of its events, behind the header of format two.
///
/// Each of these texts is the transcript of one history, of which `law_of_followers` has what a follower takes.
pub fn law_of_pipes()
    ensures served { (f : Format) (c : Config) (q r : Reads) (v w : Writes) (e : ServeEnd) (s : IsServed f c q r v w e) → IsWholeAt e → SaysYes s.output }
    ensures raced { (f : Format) (sessions : ℕ) (text out : List ℕ) → IsRaced f sessions text out → SaysYes out }
    ensures kept { (d : Database) (h : List Event) → StandsFor d h → All (KeepsFormat Two) h → SaysYes (transcript_text Two (reverse h)) }
    ensures run_text { (f : Format) (c : Config) (q r : Reads) (v w : Writes) (e : ServeEnd) (s : IsServed f c q r v w e) → IsWholeAt e → IsTranscript s.output }
    ensures race_text { (f : Format) (sessions : ℕ) (text out : List ℕ) → IsRaced f sessions text out → IsTranscript out }
    ensures kept_text { (d : Database) (h : List Event) → StandsFor d h → All (KeepsFormat Two) h → IsTranscript (transcript_text Two (reverse h)) }
{}

/// A follower of a feed takes exactly the messages that the feed told: from the transcript of all events, where it is given
/// the feed's number, and from the feed's lines alone, where it is given none. It ends early at no line. Behind each
/// resolved message it tells the rows of the feed's span in the map at that timestamp, and where it tells between them that
/// its rows are complete, they are the map's too. What `follow` reports of a text is the report of the messages that are
/// taken of it.
pub fn law_of_followers()
    ensures picked { (es : List Event) (o : FollowOptions) (n : ℕ) → IsFollowing es o n → o.feed ≡ Some n → TakesAll o (transcript_text o.format es) (told_in es n) }
    ensures alone { (es : List Event) (o : FollowOptions) (n : ℕ) → IsFollowing es o n → o.feed ≡ None → TakesAll o (told_lines es n) (told_in es n) }
    ensures maps { (es : List Event) (o : FollowOptions) (n : ℕ) (w : IsFollowing es o n) → TellsMaps (effects_of (reverse es)) w.feed o (told_in es n) }
    ensures reported { (o : FollowOptions) (text : List ℕ) (ms : List Message) → TakesAll o text ms → ReportsAll o text ms }
{}

/// A consumer that is called by text takes each line of its feed's polls. If it began as the feed's consumer is to begin, and
/// has taken the messages that the feed told before, it takes the line of the next one as that message, and refuses it only
/// when out of memory. `law_of_replicas` has which rows it then has.
pub fn law_of_consumers()
    ensures { (es : List Event) (n : ℕ) (r : Replica) (m : Message) → ComesNext es n r m → TakesLine r m }
{}

/// The lines of rows, as a scan's answer has them and a consumer shows them, are read as these rows by a consumer that begins
/// with them. Where they are all rows of another consumer, and it is of the same span, it goes on from that one, at the
/// timestamp that its line says. `law_of_replicas` has the rest: where the first one was told all through there, the second
/// refuses none of the messages of a feed that was opened there, and has the map at each resolved timestamp.
pub fn law_of_going_on()
    ensures read { (rows : Pairs) → All (IsPair Two) rows → pairs_at (flat_map row_line rows) ≡ Ok rows }
    ensures begins { (r : Replica) (n : ℕ) (line : List ℕ) (rows : Pairs) → IsKept r n line rows → GoOnFrom r n line rows }
{}
