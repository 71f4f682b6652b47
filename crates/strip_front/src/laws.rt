//! Laws of the front: functions that do nothing when they run, with theorems as contracts.
ghost use Rattle.std.specs.Prelude.{◌≡◌, ℕ, ◌≤◌, List, length, All, Contains};
ghost use Rattle.strip_model.specs.declared.kind.Kind.{Kind};
ghost use Rattle.strip_model.specs.Film.{FilmData};
ghost use Rattle.strip_film.specs.Film.{IsFilm};
ghost use Rattle.strip_film.specs.Path.{PathData};
ghost use Rattle.strip_film.specs.Rules.{IsOpen, Rules};
ghost use Rattle.strip_lines.specs.Lines.{rules_of};
ghost use Rattle.strip_hand.specs.Search.{AreStarts, SearchData, depth_of, search_rules};
ghost use Rattle.strip_front.specs.Front.{IsDepth};
ghost use Rattle.strip_front.specs.Layers.{AreTasksOf, layer};

/// A search can be divided into its tasks: they are paths of its film with equal numbers of scenes, they leave
/// different sets, and their number is within the limit.
pub fn tasks_are_starts()
    ensures { (search : SearchData) (depth : ℕ) → IsFilm search.film → IsDepth search.film depth
        → AreTasksOf (search_rules search) depth search.tasks → AreStarts search × (depth_of search ≡ depth) }
{}

/// Each path of a layer is open and has the layer's number of scenes.
pub fn layers_are_open()
    ensures { (kind : Kind) (film : FilmData) (depth : ℕ) → IsFilm film
        → All (λ path. IsOpen (rules_of kind film) path × (length path.scenes ≡ depth)) (layer film depth) }
{}

/// For each open path, the layer of its length has a path that leaves the same set and pays no more.
pub fn layers_pay_the_least()
    ensures { (kind : Kind) (film : FilmData) (path : PathData) → IsFilm film → IsOpen (rules_of kind film) path
        → (other : PathData) × Contains (layer film (length path.scenes)) other × (other.rest ≡ path.rest)
        × (other.paid ≤ path.paid) }
{}

/// If all promises are equal, the tasks have the order of the layer.
pub fn tasks_stand_as_they_arise()
    ensures { (rules : Rules) (depth : ℕ) (tasks : List PathData) → ((paid set : ℕ) → rules.promise paid set ≡ 0)
        → AreTasksOf rules depth tasks → tasks ≡ layer rules.film depth }
{}
