//! Laws of the definitions: functions that do nothing when they run, each with a theorem as its contract.
ghost use Rattle.std.specs.Prelude.{◌≡◌, List, map};
ghost use Rattle.strip_model.specs.declared.kind.Kind.{Kind};
ghost use Rattle.strip_model.specs.Film.{FilmData};
ghost use Rattle.strip_layers.specs.declared.ask.Ask.{Ask};
ghost use Rattle.strip_layers.specs.Asks.{AreAnswered, taken};

/// A layer takes one and the same list from any two answers to its requests, whether one worker or several computed
/// them.
pub fn answers_are_the_same()
    ensures { (kind : Kind) (film : FilmData) (asks one other : List Ask) → AreAnswered kind film asks one
        → AreAnswered kind film asks other → map taken one ≡ map taken other }
{}
