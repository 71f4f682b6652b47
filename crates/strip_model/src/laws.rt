//! Laws of orders, pay and pairs, and of an instance's pay: functions that do nothing when they run, with theorems as
//! contracts.
ghost use Rattle.std.specs.Prelude.{◌≡◌, ◌≢◌, ◌⊎◌, ℕ, ◌*◌, ◌+◌, ◌^◌, ◌<◌, ◌≤◌, Bool, true, false, List, [], ◌∷◌, ◌++◌, All, length, reverse, slice_index, sum, sum_by, count_by, ◌==◌};
ghost use Rattle.std.specs.List.Sorted.{IsPermutation};
ghost use Rattle.strip_mask.specs.Sums.{sum_below};
ghost use Rattle.strip_model.specs.declared.pair.Pair.{Pair};
ghost use Rattle.strip_model.specs.Film.{FilmData};
ghost use Rattle.strip_model.specs.Order.{IsBefore, IsOrder, Keeps};
ghost use Rattle.strip_model.specs.Pairs.{HasCycle, Leads, Precedes};
ghost use Rattle.strip_model.specs.Pay.{pay_of};
ghost use Rattle.strip_model.specs.Data.{InstanceData, IsInstance};
ghost use Rattle.strip_model.specs.FilmOf.{film_of};

/// An order of n scenes has length n. The orders of n scenes are the permutations of any one of them.
pub fn orders_are_permutations()
    ensures length { (n : ℕ) (order : List ℕ) → IsOrder n order → length order ≡ n }
    ensures permuted { (n : ℕ) (a b : List ℕ) → IsOrder n a → IsOrder n b → IsPermutation a b }
    ensures stays { (n : ℕ) (a b : List ℕ) → IsOrder n a → IsPermutation a b → IsOrder n b }
{}

/// The sum of a function over a list of numbers below n is its sum over all numbers below n, weighted by their counts.
/// In an order of n scenes each count is 1.
pub fn sums_are_by_counts()
    ensures counts { (n : ℕ) (f : ℕ → ℕ) (xs : List ℕ) → All (λ x. x < n) xs
        → sum_by f xs ≡ sum_below n (λ i. count_by (λ x. x == i) xs * f i) }
    ensures order { (n : ℕ) (f : ℕ → ℕ) (order : List ℕ) → IsOrder n order → sum_by f order ≡ sum_below n f }
{}

/// The reverse of an order is an order, and pays the same.
pub fn the_reverse_pays_the_same()
    ensures order { (n : ℕ) (order : List ℕ) → IsOrder n order → IsOrder n (reverse order) }
    ensures pay { (film : FilmData) (order : List ℕ) → pay_of film (reverse order) ≡ pay_of film order }
{}

/// An order pays at most the sum of all days times the sum of all rates and hold rates. So within the limits of
/// instances and films a pay is below 2^63.
pub fn pays_stay_small()
    ensures most { (film : FilmData) (order : List ℕ) → length film.holds ≡ length film.rates
        → IsOrder (length film.days) order
        → pay_of film order ≤ sum film.days * (sum film.rates + sum film.holds) }
    ensures small { (film : FilmData) (order : List ℕ) → length film.holds ≡ length film.rates
        → IsOrder (length film.days) order
        → sum film.days ≤ 19800 → sum film.rates ≤ 64000000000 → sum film.holds ≤ 64000000000
        → pay_of film order < 2 ^ 63 }
{}

/// The lexicographic order of lists (`IsBefore`) is a strict total order.
pub fn lists_are_in_order()
    ensures total { (a b : List ℕ) → IsBefore a b ⊎ ((a ≡ b) ⊎ IsBefore b a) }
    ensures once { (a : List ℕ) → ¬ IsBefore a a }
    ensures transitive { (a b c : List ℕ) → IsBefore a b → IsBefore b c → IsBefore a c }
{}

/// No order keeps pairs that have a cycle. If pairs have no cycle, each nonempty set of scenes has one that no pair
/// puts after another of the set.
pub fn cycles_can_not_be_kept()
    ensures kept { (n : ℕ) (pairs : List Pair) (order : List ℕ) → IsOrder n order → Keeps pairs order
        → ¬ HasCycle pairs }
    ensures first { (n : ℕ) (pairs : List Pair) (inside : ℕ → Bool) (x : ℕ) → ¬ HasCycle pairs
        → ((y : ℕ) → inside y ≡ true → y < n) → inside x ≡ true
        → (scene : ℕ) × (inside scene ≡ true) × ((first : ℕ) → Precedes pairs first scene → inside first ≡ false) }
{}

/// A further pair makes no cycle if its scenes differ and its second scene doesn't lead to its first. If its second
/// scene leads to its first, it makes one. A list with a cycle keeps it when pairs are appended.
pub fn cycles_come_by_pairs()
    ensures none { (pairs : List Pair) (pair : Pair) → ¬ HasCycle pairs → pair.first ≢ pair.then
        → ¬ Leads pairs pair.then pair.first
        → ¬ HasCycle (pairs ++ pair ∷ []) }
    ensures closed { (pairs : List Pair) (pair : Pair) → Leads pairs pair.then pair.first
        → HasCycle (pairs ++ pair ∷ []) }
    ensures stays { (pairs more : List Pair) → HasCycle pairs → HasCycle (pairs ++ more) }
{}

/// Two scenes with equal casts can be made adjacent at no cost: moving the later one forward, or the earlier one back,
/// pays no more. The cheaper of the two places to wait at decides which. Swapping two adjacent scenes with equal casts
/// changes no pay.
pub fn equal_casts_can_stand_together()
    ensures together { (film : FilmData) (before between behind : List ℕ) (a b : ℕ)
        → slice_index film.casts a ≡ slice_index film.casts b
        → (pay_of film (before ++ (a ∷ b ∷ (between ++ behind)))
        ≤ pay_of film (before ++ (a ∷ (between ++ (b ∷ behind)))))
        ⊎ (pay_of film (before ++ (between ++ (a ∷ b ∷ behind)))
        ≤ pay_of film (before ++ (a ∷ (between ++ (b ∷ behind))))) }
    ensures swapped { (film : FilmData) (before behind : List ℕ) (a b : ℕ)
        → slice_index film.casts a ≡ slice_index film.casts b
        → pay_of film (before ++ (b ∷ a ∷ behind)) ≡ pay_of film (before ++ (a ∷ b ∷ behind)) }
{}

/// The pay of an order of an instance is below 2^63.
pub fn instance_pays_stay_small()
    ensures { (inst : InstanceData) (order : List ℕ) → IsInstance inst → IsOrder (length inst.scenes) order
        → pay_of (film_of inst) order < 2 ^ 63 }
{}
