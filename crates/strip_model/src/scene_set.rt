// Bit sets of scenes below 256.
ghost use Rattle.std.specs.Prelude.{◌≡◌, ℕ, ◌<◌, false, ◌==◌, ◌||◌};
ghost use Rattle.strip_model.specs.Befores.{has_scene};

use strip_mask::Mask;

/// A set of scenes below 256: mask `m` has the 64 scenes from `64 * m` on.
#[derive(Clone, Copy)]
pub struct SceneSet {
    masks: [Mask; 4],
}

impl SceneSet {
    /// Makes the empty set.
    pub fn new() -> SceneSet
        ensures { (other : ℕ) → has_scene result other ≡ false }
    {
        SceneSet {
            masks: [Mask(0); 4],
        }
    }

    /// Returns whether the set has the scene.
    pub fn has(&self, scene: u16) -> bool
        requires { scene < 256 }
        ensures { result ≡ has_scene self.now scene }
    {
        self.masks[scene as usize / 64].has(scene as u32 % 64)
    }

    /// Adds the scene to the set.
    pub fn add(&mut self, scene: u16)
        requires { scene < 256 }
        ensures { (other : ℕ) → other < 256 → has_scene self.new other
            ≡ ((scene == other) || has_scene self.old other) }
    {
        let place = scene as usize / 64;
        self.masks[place] = self.masks[place].with(scene as u32 % 64);
    }

    /// Adds the scenes of the other set to this one.
    pub fn add_all(&mut self, others: &SceneSet)
        ensures { (other : ℕ) → other < 256 → has_scene self.new other
            ≡ (has_scene self.old other || has_scene others.now other) }
    {
        for (place, mask) in self.masks.iter_mut().enumerate() {
            *mask = mask.union(others.masks[place]);
        }
    }
}
