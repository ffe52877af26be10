//! How a connection's phases grow with its history.

ghost use Rattle.std.specs.Prelude.{◌≡◌, ℕ, true, false, [], ◌∷◌, List, ◌++◌, length, ◌<◌};
ghost use Rattle.session_turns.specs.Histories.{Answer, Rules, own, answers, answers_behind, events_of, bytes_of, is_leaving};
ghost use Rattle.session_turns.specs.Turns.{Turn, Phase, Protocol, plays, says, phase_size};
ghost use Rattle.session_turns.specs.Growth.{Begins, How, Whole, Fits, IsWhole, IsOver, IsShort, IsUnsent, IsLost};
ghost use Rattle.session_turns.specs.Headline.{End, Stands};

/// Phases may be played one after another: where the first ones are whole, what holds of the next ones holds of all.
pub fn phases_add_up<E>()
    ensures { (p : Protocol E) (how : How) (ts us : List Phase) (a b : List (Answer E)) (x y : List ℕ) →
        IsWhole p ts a x → Fits p how us b y → Fits p how (ts ++ us) (a ++ b) (x ++ y) }
{}

/// Phases behind those that let the client go, or that weren't answered or sent whole, change nothing.
pub fn phases_behind_are_free<E>()
    ensures over { (p : Protocol E) (ts more : List Phase) (a : List (Answer E)) (x : List ℕ) → IsOver p ts a x → IsOver p (ts ++ more) a x }
    ensures short { (p : Protocol E) (ts more : List Phase) (a : List (Answer E)) (x : List ℕ) → IsShort p ts a x → IsShort p (ts ++ more) a x }
    ensures unsent { (p : Protocol E) (ts more : List Phase) (a : List (Answer E)) (x : List ℕ) → IsUnsent p ts a x → IsUnsent p (ts ++ more) a x }
    ensures lost { (p : Protocol E) (ts more : List Phase) (a : List (Answer E)) (x : List ℕ) → IsLost p ts a x → IsLost p (ts ++ more) a x }
{}

/// One phase: answered whole, it sends its answers and what it says, or a beginning of them where a write fails;
/// answered in part, it sends nothing.
pub fn one_phase<E>()
    ensures goes { (p : Protocol E) (t : Phase) (a : List (Answer E)) → events_of a ≡ plays p t → is_leaving a ≡ false →
        IsWhole p (t ∷ []) a (bytes_of a ++ says p t) }
    ensures quits { (p : Protocol E) (t : Phase) (a : List (Answer E)) → events_of a ≡ plays p t → is_leaving a ≡ true →
        IsOver p (t ∷ []) a (bytes_of a ++ says p t) }
    ensures stops { (p : Protocol E) (t : Phase) (a : List (Answer E)) → Begins (plays p t) (events_of a) → length a < phase_size p t →
        IsShort p (t ∷ []) a [] }
    ensures fails { (p : Protocol E) (t : Phase) (a : List (Answer E)) (x : List ℕ) → events_of a ≡ plays p t → Begins (bytes_of a ++ says p t) x →
        IsUnsent p (t ∷ []) a x }
{}

/// Entries of others give a client no answer.
pub fn others_give_nothing<N, E>()
    ensures { (r : Rules N E) (who : ℕ) (before entries : List N) → own r who entries ≡ [] → answers_behind r who before entries ≡ [] }
{}

/// What stands for a client goes on to stand while others go on.
pub fn what_stands_stays<N, E>()
    ensures { (p : Protocol E) (r : Rules N E) (end : End) (who : ℕ) (history later : List N) (ts : List Turn) (told : List ℕ) →
        own r who later ≡ own r who history → answers r who later ≡ answers r who history →
        Stands p r end who history ts told → Stands p r end who later ts told }
{}
