//! The law of restarts, as the contract of one function.
ghost use Rattle.std.specs.Prelude.{List, [], ℕ, false, ◌≡◌};
ghost use Rattle.restarts.specs.Prelude.{Event, IsLegal, closed_of, effects_of, horizon_of, is_undecided, live_feeds, protections_of};
ghost use Rattle.restarts.specs.Dump.{rebuilt};
ghost use Rattle.restarts.specs.Running.{crash};
ghost use Rattle.restarts.specs.Restart.{AreForeseen, EachRestart, GoesOnAlike, HasMark, MapsAreSame, StreamsAreSame, rebuilt_effects};

/// Of each legal history h, and each m at or above closed and all that began (`marks` has one): the dump that closes at m
/// runs on an empty database, each command with the answer that the dump foresees. Then closed is m, the
/// horizon is that of h, nothing is undecided, no feed lives and no protection stands; and from the
/// horizon on the maps and the streams are those of h, also of what is committed above closed.
///
/// From there on the rebuilt database answers as the first one does after a crash: whatever events, of
/// any commands and seats, are legal after the dump's run, they are legal after the crash with their
/// feeds numbered after those that h opened, and their protections after those that it made; and where
/// the renumbered ones are legal after the crash, these are after the dump's run. So a restart from a
/// dump is, for everyone, a hard closing, the cancellation of every feed and the release of every
/// protection, and the law of histories holds of all that was answered before and after.
///
/// A dump foresees that it never runs out of memory. After it, running out of memory is legal where the law of histories has it.
///
/// It does nothing. Its contract is the theorem.
pub fn law_of_restarts()
    ensures marks { (h : List Event) (n : ℕ) → HasMark h n }
    ensures rebuilds { EachRestart (λ h m. IsLegal (rebuilt h m)) }
    ensures foreseen { EachRestart AreForeseen }
    ensures crashes { EachRestart (λ h m. IsLegal (crash h m)) }
    ensures closed { EachRestart (λ h m. closed_of (rebuilt_effects h m) ≡ m) }
    ensures horizon { EachRestart (λ h m. horizon_of (rebuilt_effects h m) ≡ horizon_of (effects_of h)) }
    ensures decided { EachRestart (λ h m. (t : ℕ) → is_undecided (rebuilt_effects h m) t ≡ false) }
    ensures no_feed { EachRestart (λ h m. live_feeds (rebuilt_effects h m) ≡ []) }
    ensures no_protection { EachRestart (λ h m. protections_of (rebuilt_effects h m) ≡ []) }
    ensures maps { EachRestart MapsAreSame }
    ensures streams { EachRestart StreamsAreSame }
    ensures goes_on { EachRestart GoesOnAlike }
{}
