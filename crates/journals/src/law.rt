//! The law of journals, as the contract of one function.
ghost use Rattle.std.specs.Prelude.{List, ◌∷◌, ℕ, ◌≡◌};
ghost use Rattle.journals.specs.Prelude.{IsLegal, closed_of, effects_of, horizon_of};
ghost use Rattle.journals.specs.Recorded.{AreForeseen};
ghost use Rattle.journals.specs.Batches.{BeginsWith, kept_part};
ghost use Rattle.journals.specs.Lives.{EachLife, copied, there};
ghost use Rattle.journals.specs.Law.{EachCrash, GoesOnAlike, KeepsWhatWasTold, MapsAreSame, ReadsAgree, SnapshotsAgree, StreamsAreSame, beginning};
ghost use Rattle.journals.specs.OneHistory.{AreOneHistory, GoesOnAsSurvivors, survivors};

/// However many lives a database had, however many batches the disk kept of each, wherever each crash came, and whichever
/// copies stand on the disk for what was before them: the lines on the disk run on an empty database, each with an answer
/// that is foreseen, and so does the hard closing at the mark.
///
/// What is there then is what a crash at the mark leaves of a beginning of the life, the longest one of which no record
/// is lost. It has each event that was told and rests on all before it: commits, collections, polls, statistics, and what
/// came too late. Maps and streams are those of that beginning from its horizon on, and a read that was told agrees with
/// them, also one behind that beginning. From there on all is answered as after that crash, but for the numbers of feeds
/// and protections.
///
/// The events of a life that don't rest on what is lost are one legal history, with their answers and in their order, where
/// an abort stands for each commit that is lost, and for each write that came too late of which nobody was told. All
/// lives are one legal history too: what survives of each, its crash, and what is answered in the next.
///
/// It does nothing. Its contract is the theorem.
pub fn law_of_journals()
    ensures begins { EachCrash (λ ns k m r. BeginsWith ns (kept_part k ns)) }
    ensures told { EachCrash (λ ns k m r. KeepsWhatWasTold ns k) }
    ensures legal { EachCrash (λ ns k m r. IsLegal r) }
    ensures foreseen { EachLife (λ l ls. AreForeseen (copied (l ∷ ls)).0 (copied (l ∷ ls)).1 (there l ls)) }
    ensures closed { EachCrash (λ ns k m r. closed_of (effects_of r) ≡ m) }
    ensures horizon { EachCrash (λ ns k m r. horizon_of (effects_of r) ≡ horizon_of (effects_of (beginning ns k))) }
    ensures maps { EachCrash (λ ns k m r. MapsAreSame ns k r) }
    ensures streams { EachCrash (λ ns k m r. StreamsAreSame ns k r) }
    ensures reads { EachCrash (λ ns k m r. ReadsAgree ns k r) }
    ensures snapshots { EachCrash (λ ns k m r. SnapshotsAgree ns k r) }
    ensures survivors { EachCrash (λ ns k m r. IsLegal (survivors k ns)) }
    ensures goes_on_as_one { EachCrash GoesOnAsSurvivors }
    ensures goes_on { EachCrash GoesOnAlike }
    ensures one_history { EachLife AreOneHistory }
{}
