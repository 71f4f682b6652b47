//! Laws of streams and sinks: functions that do nothing when they run, with theorems as contracts.
ghost use Rattle.std.specs.Prelude.{List, ℕ, ◌++◌, Option, Some};
ghost use Rattle.std.specs.Io.Cursor.{cursor_inner, cursor_position, cursor_remaining};
ghost use Rattle.std.specs.declared.io.impls.Cursor.{Cursor};
ghost use Rattle.strip_io.specs.Sink.{Took, TookFront};
ghost use Rattle.strip_io.specs.Streams.{GivesFromItsPlace};

/// A cursor returns its bytes from its position on. `read_at` needs this property of a stream.
pub fn cursors_give_from_their_place<T>()
    ensures { (bytes : T → Option (List ℕ)) → GivesFromItsPlace (λ (c : Cursor T). bytes (cursor_inner c))
        (λ (c : Cursor T). Some (cursor_position c)) (cursor_remaining bytes) }
{}

/// A sink that takes two texts in turn has taken their concatenation. `TookFront` means that only a proper prefix was
/// taken. It carries over to the concatenation from the first text, and from the second once the first is taken.
pub fn texts_are_taken_in_parts()
    ensures whole { (a b c : Option (List ℕ)) (first next : List ℕ) → Took a b first → Took b c next
        → Took a c (first ++ next) }
    ensures early { (a b : Option (List ℕ)) (first next : List ℕ) → TookFront a b first
        → TookFront a b (first ++ next) }
    ensures late { (a b c : Option (List ℕ)) (first next : List ℕ) → Took a b first → TookFront b c next
        → TookFront a c (first ++ next) }
{}
