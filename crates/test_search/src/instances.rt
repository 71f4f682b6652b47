// Films, as texts with pairs of scenes.
use crate::lists::with_pairs;
use std::alloc::Global;
use std::test::Fail;
use strip_instance::read_instance;
use strip_model::Instance;

/// A film's text, and the pairs of its scenes: the first of each pair is shot before the second.
pub(crate) struct Film {
    pub(crate) text: &'static str,
    pub(crate) pairs: &'static [(u16, u16)],
}

/// Makes the instance of the text, with these pairs.
pub(crate) fn instance(alloc: Global, text: &str, pairs: &[(u16, u16)]) -> Result<Instance, Fail> {
    let inst = read_instance(alloc, text.as_bytes())?;
    with_pairs(alloc, inst, pairs)
}

pub(crate) const TRIANGLE: &str = "scene,days,a,b,c\nrate,,1,2,3\n\
    s1,1,x,x,.\ns2,1,.,x,x\ns3,1,x,.,x\n";

// Days of waiting have rates of their own.
pub(crate) const HELD_TRIANGLE: &str = "scene,days,a,b,c\nrate,,1,2,3\nhold,,5,1,4\n\
    s1,1,x,x,.\ns2,1,.,x,x\ns3,1,x,.,x\n";

// Only days of waiting cost anything.
pub(crate) const WAITING_TRIANGLE: &str = "scene,days,a,b,c\nrate,,0,0,0\nhold,,1,1,1\n\
    s1,1,x,x,.\ns2,1,.,x,x\ns3,1,x,.,x\n";

/// A ring of four actors: each shares a scene with the one before and one with the next.
pub(crate) const RING: &str = "scene,days,a,b,c,d\nrate,,1,2,3,4\n\
    s1,1,x,.,.,x\ns2,1,x,x,.,.\ns3,1,.,x,x,.\ns4,1,.,.,x,x\n";

/// Eight scenes in eight classes, with pairs of five actors as casts.
pub(crate) const EIGHT: &str = "scene,days,a,b,c,d,e\nrate,,1,2,3,4,5\n\
    s1,1,x,x,.,.,.\ns2,1,x,.,x,.,.\ns3,1,x,.,.,x,.\ns4,1,x,.,.,.,x\n\
    s5,1,.,x,x,.,.\ns6,1,.,x,.,x,.\ns7,1,.,x,.,.,x\ns8,1,.,.,x,x,.\n";

/// Small films without pairs: special cases of actors and scenes, rings, and all pairs of four actors.
pub(crate) static WORKED: [&'static str; 14] = [
    TRIANGLE,
    HELD_TRIANGLE,
    WAITING_TRIANGLE,
    "scene,days,a1,a2\nrate,,10,20\ns1,1,x,.\ns2,1,.,x\ns3,1,x,x\n",
    "scene,days,a\nrate,,100\ns1,2,x\n",
    // nobody works
    "scene,days\nrate,\ns1,1\ns2,2\n",
    // two scenes of one cast, not adjacent in the file
    "scene,days,a,b,c\nrate,,1,2,3\ns1,1,x,x,.\ns2,1,.,x,x\ns3,1,x,.,x\ns4,1,x,x,.\n",
    "scene,days,a,c\nrate,,5,7\ns1,1,x,x\ns2,1,x,.\ns3,1,x,x\n",
    // one actor is paid nothing, and another works nowhere
    "scene,days,a,z,y\nrate,,10,0,5\ns1,1,x,x,.\ns2,1,x,.,.\ns3,1,.,x,.\n",
    // hold rates that are the rates, and hold rates as offices write them
    "scene,days,a,b,c\nrate,,1,2,3\nhold,,1,2,3\ns1,1,x,x,.\ns2,1,.,x,x\ns3,1,x,.,x\n",
    "scene,days,a,b,c\r\nrate,each,1,2,3\r\n HOLD ,waiting, 05 ,1,4\r\n\
        s1,1,x,x,.\r\ns2,1,.,x,x\r\ns3,1,x,.,x\r\n",
    RING,
    // a ring of six, in which the rates for waiting are in reverse
    "scene,days,a,b,c,d,e,f\nrate,,1,2,3,4,5,6\nhold,,6,5,4,3,2,1\n\
        s1,2,x,x,.,.,.,.\ns2,1,.,x,x,.,.,.\ns3,3,.,.,x,x,.,.\n\
        s4,1,.,.,.,x,x,.\ns5,2,.,.,.,.,x,x\ns6,1,x,.,.,.,.,x\n",
    // all six pairs of four actors
    "scene,days,a,b,c,d\nrate,,1,2,3,4\n\
        s1,1,x,x,.,.\ns2,1,x,.,x,.\ns3,1,x,.,.,x\ns4,1,.,x,x,.\ns5,1,.,x,.,x\ns6,1,.,.,x,x\n",
];

/// Random films without pairs.
pub(crate) static RANDOM: [&'static str; 12] = [
    "scene,days,a1,a2,a3\nrate,,5,20,1\n\
        s1,2,x,.,.\n",
    "scene,days,a1\nrate,,0\n\
        s1,5,.\ns2,2,.\n",
    "scene,days,a1,a2,a3\nrate,,100,5,250\n\
        s1,5,.,x,x\ns2,3,x,x,.\ns3,4,x,.,x\n",
    "scene,days,a1,a2,a3,a4,a5\nrate,,35,250,5,100,5\n\
        s1,2,.,x,.,x,.\ns2,3,x,x,x,x,x\ns3,4,.,x,.,x,.\ns4,3,x,.,x,x,x\n",
    "scene,days,a1,a2,a3\nrate,,35,250,1\n\
        s1,4,x,x,x\ns2,5,.,.,.\ns3,4,.,x,x\ns4,3,x,.,.\n",
    "scene,days,a1,a2,a3,a4\nrate,,35,250,20,100\n\
        s1,4,.,x,x,.\ns2,4,.,x,.,x\ns3,3,.,.,.,.\ns4,5,x,x,.,x\ns5,3,.,x,x,.\n",
    "scene,days,a1,a2,a3,a4,a5,a6\nrate,,5,7,7,250,1,0\n\
        s1,2,.,.,x,x,.,.\ns2,5,x,x,x,x,x,x\ns3,4,x,x,x,x,x,x\ns4,1,x,x,.,.,.,.\ns5,5,.,.,x,.,x,x\n",
    "scene,days,a1,a2,a3,a4,a5\nrate,,1,60,5,100,20\n\
        s1,1,.,.,.,.,x\ns2,2,.,.,x,x,x\ns3,5,.,.,.,x,.\ns4,5,.,x,x,.,.\ns5,5,x,.,.,.,x\n",
    "scene,days,a1,a2,a3,a4\nrate,,0,35,0,20\n\
        s1,2,x,x,.,x\ns2,5,x,x,x,.\ns3,1,x,.,x,.\ns4,5,x,.,.,x\ns5,5,x,x,x,x\ns6,1,.,x,.,.\n",
    "scene,days,a1,a2,a3,a4,a5\nrate,,0,250,5,0,20\n\
        s1,5,x,x,.,x,.\ns2,3,x,x,x,x,.\ns3,5,x,.,x,x,x\ns4,5,x,.,x,x,.\ns5,5,.,.,x,x,x\ns6,4,x,.,x,.,x\n",
    "scene,days,a1,a2,a3,a4\nrate,,100,20,20,0\n\
        s1,3,x,.,x,x\ns2,5,.,x,.,.\ns3,5,x,x,.,x\ns4,5,x,x,.,x\ns5,1,x,x,.,.\ns6,2,x,.,x,.\n",
    "scene,days,a1,a2,a3,a4,a5\nrate,,7,0,100,60,100\n\
        s1,1,.,x,x,x,x\ns2,4,.,.,.,.,.\ns3,3,x,.,x,x,.\ns4,3,.,.,x,.,x\ns5,4,.,x,x,.,.\ns6,5,.,.,.,.,x\n",
];

/// Films with pairs, most of them with hold rates.
pub(crate) static PAIRED: [Film; 13] = [
    Film {
        text: "scene,days,a,b,c\nrate,,1,2,3\nhold,,1,2,3\n\
            s1,1,x,x,.\ns2,1,.,x,x\ns3,1,x,.,x\n",
        pairs: &[(0, 1), (2, 1)],
    },
    Film {
        text: "scene,days,a,b\nrate,,0,10\nhold,,60,1\n\
            s1,1,x,x\ns2,2,x,x\n",
        pairs: &[(1, 0)],
    },
    Film {
        text: "scene,days,a,b\nrate,,25,25\nhold,,1,1\n\
            s1,2,x,.\ns2,3,x,.\ns3,5,x,.\n",
        pairs: &[(2, 1)],
    },
    Film {
        text: "scene,days,a,b,c\nrate,,3,0,0\nhold,,3,60,5\n\
            s1,1,x,.,.\ns2,1,x,x,.\ns3,5,.,x,x\n",
        pairs: &[(0, 1), (2, 0)],
    },
    Film {
        text: "scene,days,a,b,c\nrate,,40,25,10\nhold,,1,0,60\n\
            s1,1,x,.,x\ns2,3,x,x,x\ns3,1,.,.,x\ns4,1,.,x,.\n",
        pairs: &[(1, 0)],
    },
    Film {
        text: "scene,days,a,b,c,d\nrate,,40,40,0,3\nhold,,0,40,0,60\n\
            s1,1,.,x,.,.\ns2,1,x,x,.,x\ns3,1,x,.,x,x\ns4,1,x,.,x,.\n",
        pairs: &[(0, 1), (2, 0)],
    },
    Film {
        text: "scene,days,a,b,c\nrate,,10,3,3\nhold,,5,20,5\n\
            s1,3,.,.,x\ns2,1,.,.,x\ns3,5,x,x,.\ns4,3,x,.,.\n",
        pairs: &[(1, 0), (1, 2), (2, 0)],
    },
    Film {
        text: "scene,days,a,b,c,d\nrate,,3,40,40,10\nhold,,3,5,5,60\n\
            s1,1,x,.,x,x\ns2,3,.,x,x,x\ns3,3,.,x,.,x\ns4,1,x,.,.,x\ns5,2,.,x,x,x\n",
        pairs: &[(0, 1), (2, 4)],
    },
    Film {
        text: "scene,days,a,b,c,d\nrate,,40,10,3,40\nhold,,5,5,20,40\n\
            s1,3,.,x,x,x\ns2,1,x,.,x,.\ns3,5,.,.,.,x\ns4,5,x,x,.,.\ns5,2,.,x,x,.\n",
        pairs: &[(1, 0), (2, 0), (2, 3), (2, 4)],
    },
    Film {
        text: "scene,days,a,b,c,d\nrate,,40,0,0,25\nhold,,40,5,5,5\n\
            s1,1,.,x,.,.\ns2,5,.,.,.,x\ns3,3,x,.,.,x\ns4,1,x,x,.,x\ns5,1,.,.,x,x\ns6,1,.,x,x,.\n",
        pairs: &[(0, 5), (1, 2), (2, 5)],
    },
    Film {
        text: "scene,days,a,b,c,d,e\nrate,,10,0,10,0,0\nhold,,20,20,60,60,5\n\
            s1,3,.,.,x,.,.\ns2,2,.,x,.,x,.\ns3,3,.,x,x,.,x\ns4,5,x,x,x,.,x\ns5,3,.,.,x,x,.\ns6,5,.,x,.,x,.\n",
        pairs: &[(2, 1), (5, 2)],
    },
    Film {
        text: "scene,days,a,b,c,d,e,f\nrate,,0,40,40,3,0,40\nhold,,1,1,0,20,0,0\n\
            s1,1,x,.,.,.,x,x\ns2,3,.,x,.,x,x,.\ns3,1,.,.,.,x,.,x\ns4,5,x,.,x,x,.,.\ns5,2,.,.,.,x,x,x\ns6,5,.,.,x,.,.,.\n",
        pairs: &[(0, 5), (3, 2), (3, 4), (3, 5), (4, 5), (5, 2)],
    },
    // all six pairs of four actors, with three precedence constraints
    Film {
        text: "scene,days,a,b,c,d\nrate,,1,2,3,4\n\
            s1,1,x,x,.,.\ns2,1,x,.,x,.\ns3,1,x,.,.,x\ns4,1,.,x,x,.\ns5,1,.,x,.,x\ns6,1,.,.,x,x\n",
        pairs: &[(0, 5), (5, 2), (4, 1)],
    },
];
