// Instances and their classes, worked by hand from the three steps of a reduction: to drop an actor, to join two
// scenes, to join two actors.
use crate::lists::{Lists, instance_of};
use std::alloc::Global;
use std::test::Fail;
use strip_film::Film;
use strip_model::Pair;
use strip_reduce::reduce;

/// A film, the scenes of each class, the cost set apart, and the film of the classes.
pub(crate) struct Reduction {
    pub(crate) film: Lists,
    classes: &'static [&'static [u16]],
    apart: u64,
    left: Lists,
}

// Actors are dropped, with further steps.
static DROPS: [Reduction; 6] = [
    // One scene of one actor: he is dropped with its days.
    Reduction {
        film: Lists {
            casts: &[0b1],
            days: &[3],
            rates: &[7],
            holds: &[2],
            pairs: &[],
        },
        classes: &[&[0]],
        apart: 21,
        left: Lists {
            casts: &[0],
            days: &[3],
            rates: &[],
            holds: &[],
            pairs: &[],
        },
    },
    // Actor 1 is paid nothing and actor 2 works nowhere; without them actor 0 has one class of scenes.
    Reduction {
        film: Lists {
            casts: &[0b011, 0b001, 0b010],
            days: &[1, 1, 1],
            rates: &[10, 0, 5],
            holds: &[10, 0, 5],
            pairs: &[],
        },
        classes: &[&[0, 1, 2]],
        apart: 20,
        left: Lists {
            casts: &[0],
            days: &[3],
            rates: &[],
            holds: &[],
            pairs: &[],
        },
    },
    // Without the actor who has one scene, the first and the last scene have equal casts.
    Reduction {
        film: Lists {
            casts: &[0b0011, 0b0110, 0b0101, 0b1011],
            days: &[1, 2, 3, 4],
            rates: &[1, 2, 3, 50],
            holds: &[1, 2, 3, 50],
            pairs: &[],
        },
        classes: &[&[0, 3], &[1], &[2]],
        apart: 200,
        left: Lists {
            casts: &[0b011, 0b110, 0b101],
            days: &[5, 2, 3],
            rates: &[1, 2, 3],
            holds: &[1, 2, 3],
            pairs: &[],
        },
    },
    // The waiting of actor 0 costs nothing: he is dropped with all his days, and the others move up.
    Reduction {
        film: Lists {
            casts: &[0b0111, 0b1101, 0b1011],
            days: &[1, 2, 3],
            rates: &[9, 1, 2, 3],
            holds: &[0, 1, 2, 3],
            pairs: &[],
        },
        classes: &[&[0], &[1], &[2]],
        apart: 54,
        left: Lists {
            casts: &[0b011, 0b110, 0b101],
            days: &[1, 2, 3],
            rates: &[1, 2, 3],
            holds: &[1, 2, 3],
            pairs: &[],
        },
    },
    // The work of actor 3 costs nothing, but his waiting does: he stays.
    Reduction {
        film: Lists {
            casts: &[0b1011, 0b1110, 0b0101, 0b1001],
            days: &[1, 2, 3, 4],
            rates: &[1, 2, 3, 0],
            holds: &[1, 2, 3, 9],
            pairs: &[],
        },
        classes: &[&[0], &[1], &[2], &[3]],
        apart: 0,
        left: Lists {
            casts: &[0b1011, 0b1110, 0b0101, 0b1001],
            days: &[1, 2, 3, 4],
            rates: &[1, 2, 3, 0],
            holds: &[1, 2, 3, 9],
            pairs: &[],
        },
    },
    // Actors 3 and 4, with one scene each, are dropped before any scenes are joined.
    Reduction {
        film: Lists {
            casts: &[0b01011, 0b00011, 0b10011, 0b00011, 0b00110, 0b00101],
            days: &[1, 2, 4, 8, 1, 1],
            rates: &[1, 2, 3, 10, 100],
            holds: &[1, 2, 3, 10, 100],
            pairs: &[],
        },
        classes: &[&[0, 1, 2, 3], &[4], &[5]],
        apart: 410,
        left: Lists {
            casts: &[0b011, 0b110, 0b101],
            days: &[15, 1, 1],
            rates: &[1, 2, 3],
            holds: &[1, 2, 3],
            pairs: &[],
        },
    },
];

// Scenes are joined, with further steps.
static JOINS: [Reduction; 7] = [
    // Nobody works: the scenes are one class.
    Reduction {
        film: Lists {
            casts: &[0, 0],
            days: &[1, 2],
            rates: &[],
            holds: &[],
            pairs: &[],
        },
        classes: &[&[0, 1]],
        apart: 0,
        left: Lists {
            casts: &[0],
            days: &[3],
            rates: &[],
            holds: &[],
            pairs: &[],
        },
    },
    // The first and the last scene are joined, so actor 1 has one scene and is dropped; then the scenes have equal
    // casts.
    Reduction {
        film: Lists {
            casts: &[0b11, 0b01, 0b11],
            days: &[1, 1, 1],
            rates: &[5, 7],
            holds: &[5, 7],
            pairs: &[],
        },
        classes: &[&[0, 2, 1]],
        apart: 29,
        left: Lists {
            casts: &[0],
            days: &[3],
            rates: &[],
            holds: &[],
            pairs: &[],
        },
    },
    // Two scenes of equal cast, and no further step.
    Reduction {
        film: Lists {
            casts: &[0b011, 0b110, 0b101, 0b011],
            days: &[1, 1, 1, 1],
            rates: &[1, 2, 3],
            holds: &[1, 2, 3],
            pairs: &[],
        },
        classes: &[&[0, 3], &[1], &[2]],
        apart: 0,
        left: Lists {
            casts: &[0b011, 0b110, 0b101],
            days: &[2, 1, 1],
            rates: &[1, 2, 3],
            holds: &[1, 2, 3],
            pairs: &[],
        },
    },
    // The first two scenes are joined, so actor 3 has one scene and is dropped.
    Reduction {
        film: Lists {
            casts: &[0b1001, 0b1001, 0b0011, 0b0110, 0b0101],
            days: &[1, 2, 1, 1, 1],
            rates: &[1, 2, 3, 4],
            holds: &[1, 2, 3, 4],
            pairs: &[],
        },
        classes: &[&[0, 1], &[2], &[3], &[4]],
        apart: 12,
        left: Lists {
            casts: &[0b001, 0b011, 0b110, 0b101],
            days: &[3, 1, 1, 1],
            rates: &[1, 2, 3],
            holds: &[1, 2, 3],
            pairs: &[],
        },
    },
    // Three scenes of equal cast.
    Reduction {
        film: Lists {
            casts: &[0b011, 0b110, 0b011, 0b101, 0b011],
            days: &[1, 2, 4, 8, 16],
            rates: &[1, 2, 3],
            holds: &[1, 2, 3],
            pairs: &[],
        },
        classes: &[&[0, 2, 4], &[1], &[3]],
        apart: 0,
        left: Lists {
            casts: &[0b011, 0b110, 0b101],
            days: &[21, 2, 8],
            rates: &[1, 2, 3],
            holds: &[1, 2, 3],
            pairs: &[],
        },
    },
    // Three scenes of one cast and two of another, which alternate.
    Reduction {
        film: Lists {
            casts: &[0b110, 0b011, 0b110, 0b011, 0b110, 0b101],
            days: &[1, 2, 4, 8, 16, 32],
            rates: &[1, 2, 3],
            holds: &[3, 2, 1],
            pairs: &[],
        },
        classes: &[&[0, 2, 4], &[1, 3], &[5]],
        apart: 0,
        left: Lists {
            casts: &[0b110, 0b011, 0b101],
            days: &[21, 10, 32],
            rates: &[1, 2, 3],
            holds: &[3, 2, 1],
            pairs: &[],
        },
    },
    // The scenes of actor 3 are joined first, since they have the least number, and he is dropped. Then scene 2 has
    // their cast, before the scenes of actor 4 are joined and he is dropped too.
    Reduction {
        film: Lists {
            casts: &[
                0b01011, 0b10011, 0b00011, 0b01011, 0b10011, 0b00110, 0b00101,
            ],
            days: &[1, 2, 4, 8, 16, 1, 1],
            rates: &[1, 2, 3, 10, 100],
            holds: &[1, 2, 3, 10, 100],
            pairs: &[],
        },
        classes: &[&[0, 3, 2, 1, 4], &[5], &[6]],
        apart: 1890,
        left: Lists {
            casts: &[0b011, 0b110, 0b101],
            days: &[31, 1, 1],
            rates: &[1, 2, 3],
            holds: &[1, 2, 3],
            pairs: &[],
        },
    },
];

// Films with pairs (precedence constraints).
static PAIRED: [Reduction; 4] = [
    // The first scene is in a pair: of the three scenes with its cast, the two others are joined.
    Reduction {
        film: Lists {
            casts: &[0b011, 0b011, 0b110, 0b101, 0b011],
            days: &[1, 2, 3, 4, 5],
            rates: &[1, 2, 3],
            holds: &[1, 2, 3],
            pairs: &[(0, 2)],
        },
        classes: &[&[0], &[1, 4], &[2], &[3]],
        apart: 0,
        left: Lists {
            casts: &[0b011, 0b011, 0b110, 0b101],
            days: &[1, 7, 3, 4],
            rates: &[1, 2, 3],
            holds: &[1, 2, 3],
            pairs: &[(0, 2)],
        },
    },
    // Scene 2 is joined to the first: in the pairs the numbers above 2 are one lower. Both scenes of the other equal
    // cast are in pairs.
    Reduction {
        film: Lists {
            casts: &[0b011, 0b110, 0b011, 0b101, 0b110],
            days: &[1, 1, 1, 1, 2],
            rates: &[1, 2, 3],
            holds: &[1, 2, 3],
            pairs: &[(3, 1), (3, 4)],
        },
        classes: &[&[0, 2], &[1], &[3], &[4]],
        apart: 0,
        left: Lists {
            casts: &[0b011, 0b110, 0b101, 0b110],
            days: &[2, 1, 1, 2],
            rates: &[1, 2, 3],
            holds: &[1, 2, 3],
            pairs: &[(2, 1), (2, 3)],
        },
    },
    // Nobody works, and two of the scenes are in a pair.
    Reduction {
        film: Lists {
            casts: &[0, 0, 0, 0],
            days: &[1, 2, 4, 8],
            rates: &[],
            holds: &[],
            pairs: &[(3, 1)],
        },
        classes: &[&[0, 2], &[1], &[3]],
        apart: 0,
        left: Lists {
            casts: &[0, 0, 0],
            days: &[5, 2, 8],
            rates: &[],
            holds: &[],
            pairs: &[(2, 1)],
        },
    },
    // The scenes of a pair have equal casts: they stay, and so does their actor.
    Reduction {
        film: Lists {
            casts: &[0b1, 0b1],
            days: &[2, 3],
            rates: &[4],
            holds: &[5],
            pairs: &[(1, 0)],
        },
        classes: &[&[0], &[1]],
        apart: 0,
        left: Lists {
            casts: &[0b1, 0b1],
            days: &[2, 3],
            rates: &[4],
            holds: &[5],
            pairs: &[(1, 0)],
        },
    },
];

// Actors with the same scenes.
static ALIKE: [Reduction; 4] = [
    // Actors 0 and 3 work in the same scenes, at other rates.
    Reduction {
        film: Lists {
            casts: &[0b1011, 0b0110, 0b1101],
            days: &[1, 2, 3],
            rates: &[1, 2, 3, 40],
            holds: &[1, 2, 3, 7],
            pairs: &[],
        },
        classes: &[&[0], &[1], &[2]],
        apart: 0,
        left: Lists {
            casts: &[0b011, 0b110, 0b101],
            days: &[1, 2, 3],
            rates: &[41, 2, 3],
            holds: &[8, 2, 3],
            pairs: &[],
        },
    },
    // Three actors who work in the same scenes.
    Reduction {
        film: Lists {
            casts: &[0b01111, 0b11000, 0b10111],
            days: &[1, 1, 1],
            rates: &[1, 2, 4, 8, 16],
            holds: &[1, 1, 1, 1, 1],
            pairs: &[],
        },
        classes: &[&[0], &[1], &[2]],
        apart: 0,
        left: Lists {
            casts: &[0b011, 0b110, 0b101],
            days: &[1, 1, 1],
            rates: &[7, 8, 16],
            holds: &[3, 1, 1],
            pairs: &[],
        },
    },
    // Actors 0 and 2 work in the same scenes, and actors 1 and 3.
    Reduction {
        film: Lists {
            casts: &[0b01111, 0b11010, 0b10101],
            days: &[1, 1, 1],
            rates: &[1, 2, 4, 8, 16],
            holds: &[16, 8, 4, 2, 1],
            pairs: &[],
        },
        classes: &[&[0], &[1], &[2]],
        apart: 0,
        left: Lists {
            casts: &[0b011, 0b110, 0b101],
            days: &[1, 1, 1],
            rates: &[5, 10, 16],
            holds: &[20, 10, 1],
            pairs: &[],
        },
    },
    // All three steps: actor 4 is dropped, the last scene is joined to the first, and actor 3 is joined to actor 1.
    Reduction {
        film: Lists {
            casts: &[0b01011, 0b01110, 0b00101, 0b11011],
            days: &[1, 2, 3, 4],
            rates: &[1, 2, 3, 4, 5],
            holds: &[1, 2, 3, 4, 5],
            pairs: &[],
        },
        classes: &[&[0, 3], &[1], &[2]],
        apart: 20,
        left: Lists {
            casts: &[0b011, 0b110, 0b101],
            days: &[5, 2, 3],
            rates: &[1, 6, 3],
            holds: &[1, 6, 3],
            pairs: &[],
        },
    },
];

/// Returns the tables. Each is read in a function of its own, so that no proof contains them all.
pub(crate) fn tables() -> [&'static [Reduction]; 4] {
    [drops(), joins(), paired(), alike()]
}

fn drops() -> &'static [Reduction] {
    &DROPS
}

pub(crate) fn joins() -> &'static [Reduction] {
    &JOINS
}

fn paired() -> &'static [Reduction] {
    &PAIRED
}

fn alike() -> &'static [Reduction] {
    &ALIKE
}

#[test]
fn films_are_reduced_to_their_classes(rt: HostRuntime) -> Result<(), Fail> {
    for table in tables() {
        assert!(&rt; all_reduce(rt.alloc(), table)?);
    }
    Ok(())
}

fn all_reduce(alloc: Global, table: &[Reduction]) -> Result<bool, Fail> {
    for row in table {
        if !reduces(alloc, row)? {
            return Ok(false);
        }
    }
    Ok(true)
}

fn reduces(alloc: Global, row: &Reduction) -> Result<bool, Fail> {
    let reduced = reduce(alloc, &instance_of(alloc, &row.film)?)?;
    Ok(
        are_classes(&reduced.classes, row.classes)
            && reduced.apart == row.apart
            && is_film(&reduced.film, &row.left),
    )
}

fn are_classes(found: &[Vec<u16>], expected: &[&[u16]]) -> bool {
    found.len() == expected.len()
        && found
            .iter()
            .zip(expected)
            .all(|(scenes, class)| scenes.as_slice() == *class)
}

fn is_film(film: &Film, lists: &Lists) -> bool {
    film.casts() == lists.casts
        && film.days() == lists.days
        && film.rates() == lists.rates
        && film.holds() == lists.holds
        && are_pairs(film.pairs(), lists.pairs)
}

fn are_pairs(found: &[Pair], expected: &[(u16, u16)]) -> bool {
    found.len() == expected.len()
        && found
            .iter()
            .zip(expected)
            .all(|(pair, &(first, then))| *pair == Pair { first, then })
}
