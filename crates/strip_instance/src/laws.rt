//! Laws of the definitions: functions that do nothing when they run, each with a theorem as its contract.
ghost use Rattle.std.specs.Prelude.{◌≡◌, ◌≢◌, ◌↔◌, ℕ, List, [], slice_index_or, None, Some, Ok, Err, length};
ghost use Rattle.strip_mask.specs.Set.{has, numbers_below};
ghost use Rattle.strip_model.specs.declared.pair.Pair.{Pair};
ghost use Rattle.strip_model.specs.Pairs.{FitPairs, Leads};
ghost use Rattle.strip_instance.specs.Ways.{IsShortestWay};
ghost use Rattle.strip_model.specs.Data.{InstanceData, IsInstance};
ghost use Rattle.strip_text.specs.Field.{Field};
ghost use Rattle.strip_instance.specs.Befores.{shortest_way};
ghost use Rattle.strip_instance.specs.Fault.{Memory};
ghost use Rattle.strip_instance.specs.Field.{is_work_mark};
ghost use Rattle.strip_instance.specs.Text.{HasReadableNames, cast_of_marks, says};
ghost use Rattle.strip_model.specs.Order.{IsOrder};
ghost use Rattle.strip_model.specs.Pay.{pay_of};
ghost use Rattle.strip_model.specs.FilmOf.{film_of};
ghost use Rattle.strip_instance.specs.Arranged.{arranged};

/// An instance that was read from a text keeps the limits of instances.
pub fn what_is_said_keeps_the_limits()
    ensures { (text : List ℕ) (inst : InstanceData) → says text ≡ Ok inst → IsInstance inst }
{}

/// The names of an instance that was read from a text can be written in a text, so the instance reads back.
pub fn what_is_said_has_readable_names()
    ensures { (text : List ℕ) (inst : InstanceData) → says text ≡ Ok inst → HasReadableNames inst }
{}

/// No text means that memory ran out: this fault depends on the machine alone.
pub fn want_of_memory_is_never_said()
    ensures { (text : List ℕ) → says text ≢ Err Memory }
{}

/// An actor is in a scene's cast exactly if the mark in his column means that he works.
pub fn casts_are_by_marks()
    ensures { (marks : List Field) (actor : ℕ) → has (cast_of_marks marks) actor
        ≡ is_work_mark (slice_index_or marks actor []) }
{}

/// For pairs that some order keeps, `shortest_way` finds the shortest way from one scene to another, and none if no way
/// leads there. So a row makes a cycle exactly if the pairs of earlier rows lead from its second scene to its first.
pub fn the_shortest_way_is_found()
    ensures found { (n : ℕ) (pairs : List Pair) (from to : ℕ) (way : List ℕ) → FitPairs n pairs → from ≢ to
        → shortest_way n pairs from to ≡ Some way → IsShortestWay pairs from to way }
    ensures none { (n : ℕ) (pairs : List Pair) (from to : ℕ) → FitPairs n pairs → from ≢ to
        → (shortest_way n pairs from to ≡ None) ↔ (¬ Leads pairs from to) }
{}

/// There is at most one shortest way, so its definition is unique.
pub fn the_shortest_way_is_one()
    ensures { (pairs : List Pair) (from to : ℕ) (a b : List ℕ) → IsShortestWay pairs from to a
        → IsShortestWay pairs from to b → a ≡ b }
{}

/// An instance whose scenes are renumbered by an order keeps the limits. Its scenes in their new order pay as much as
/// that order.
pub fn an_arranged_instance_pays_the_same()
    ensures limits { (inst : InstanceData) (order : List ℕ) → IsInstance inst → IsOrder (length inst.scenes) order
        → IsInstance (arranged inst order) }
    ensures pay { (inst : InstanceData) (order : List ℕ) → IsOrder (length inst.scenes) order
        → pay_of (film_of (arranged inst order)) (numbers_below (length (film_of (arranged inst order)).casts))
        ≡ pay_of (film_of inst) order }
{}
