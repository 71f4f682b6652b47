// The precedence relation of a list of pairs, as sets.
ghost use Rattle.std.specs.Prelude.{◌≡◌, ◌↔◌, ℕ, ◌<◌, true, List, [], ◌∷◌, ◌++◌, ◌==◌, ◌&&◌, ◌||◌, Contains, IsTrue};
ghost use Rattle.strip_model.specs.declared.pair.Pair.{Pair};
ghost use Rattle.strip_model.specs.Befores.{Knows, leads_to};
ghost use Rattle.strip_model.specs.Pairs.{Leads};

use crate::fitting::MAX_SCENES;
use crate::pair::Pair;
use crate::scene_set::SceneSet;

/// The precedences of a list of pairs (precedence constraints) of scenes below 200, with their transitive closure. It
/// begins without pairs, and each call of `add` appends one. It is a fixed array of 12,800 bytes and allocates no
/// memory.
#[derive(Drop)]
pub struct Befores {
    /// For each scene, the scenes that a pair puts after it.
    standing: [SceneSet; MAX_SCENES],
    /// For each scene, the scenes that a chain of pairs puts after it.
    leading: [SceneSet; MAX_SCENES],
}

impl Befores {
    /// Makes the relation of the empty list.
    pub fn new() -> Befores
        ensures { Knows result [] }
    {
        let none = SceneSet::new();
        Befores {
            standing: [none; MAX_SCENES],
            leading: [none; MAX_SCENES],
        }
    }

    /// Returns whether the pair, of two scenes below 200, is in the list. It takes a few instructions.
    pub fn stands(&self, pair: Pair) -> bool
        requires first { pair.first < 200 }
        requires then { pair.then < 200 }
        ensures { (pairs : List Pair) → Knows self.now pairs → IsTrue result ↔ Contains pairs pair }
    {
        self.standing[pair.first as usize].has(pair.then)
    }

    /// Returns whether a chain of pairs leads from scene `from` to scene `to`, both below 200. It takes a few
    /// instructions.
    pub fn leads(&self, from: u16, to: u16) -> bool
        requires from { from < 200 }
        requires to { to < 200 }
        ensures { (pairs : List Pair) → Knows self.now pairs → IsTrue result ↔ Leads pairs from to }
    {
        self.leading[from as usize].has(to)
    }

    /// Appends a pair of two scenes below 200 to the list. Time is linear in the number of scenes, but constant if
    /// pairs already lead from its first scene to the other.
    pub fn add(&mut self, pair: Pair)
        requires first { pair.first < 200 }
        requires then { pair.then < 200 }
        ensures { (pairs : List Pair) → Knows self.old pairs → Knows self.new (pairs ++ pair ∷ []) }
    {
        if !self.leads(pair.first, pair.then) {
            self.lead_on(pair);
        }
        self.standing[pair.first as usize].add(pair.then);
    }

    /// Updates the transitive closure. The pair's first scene, and each scene that leads to it, now lead to the other
    /// scene and to each scene after that.
    fn lead_on(&mut self, pair: Pair)
        requires first { pair.first < 200 }
        requires then { pair.then < 200 }
        ensures standing { self.new.standing ≡ self.old.standing }
        ensures leading { (from to : ℕ) → from < 200 → to < 200
            → leads_to self.new from to ≡ (leads_to self.old from to
            || (((from == pair.first) || leads_to self.old from pair.first) && ((pair.then == to) || leads_to self.old pair.then to))) }
    {
        let mut later = self.leading[pair.then as usize];
        later.add(pair.then);
        for scenes in self.leading.iter_mut() {
            if scenes.has(pair.first) {
                scenes.add_all(&later);
            }
        }
        self.leading[pair.first as usize].add_all(&later);
    }
}
