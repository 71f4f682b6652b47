//! Laws of generated instances: functions that do nothing when they run, each with a theorem as its contract.
ghost use Rattle.std.specs.Prelude.{◌≡◌, ◌≤◌, ℕ, ◌&&◌, nat_lt};
ghost use Rattle.rand_pcg.specs.Lcg.{Lcg};
ghost use Rattle.strip_mask.specs.Set.{has};
ghost use Rattle.strip_model.specs.Data.{IsInstance};
ghost use Rattle.strip_instance.specs.Text.{HasReadableNames};
ghost use Rattle.strip_commands.specs.Generated.{cast_of, generated, works_in};

/// A generated instance keeps the limits of instances.
pub fn what_is_made_keeps_the_limits()
    ensures { (number scenes actors : ℕ) → 1 ≤ scenes → scenes ≤ 200 → actors ≤ 64
        → IsInstance (generated number scenes actors) }
{}

/// An actor works in a scene exactly if his word says so.
pub fn casts_are_by_words()
    ensures { (generator : Lcg) (actors actor : ℕ) → actors ≤ 64
        → has (cast_of generator actors) actor ≡ (nat_lt actor actors && works_in generator actor) }
{}

/// The names of a generated instance can be written in a text and read back.
pub fn what_is_made_has_readable_names()
    ensures { (number scenes actors : ℕ) → scenes ≤ 200 → actors ≤ 64
        → HasReadableNames (generated number scenes actors) }
{}
