// Canonical texts, worked by hand, and by an independent program from the rules of the format.
use std::alloc::Global;
use std::test::Fail;
use strip_instance::{read_instance, write_instance};
use strip_model::{Actor, Instance, Pair, Scene};

// Texts, and the canonical texts of their instances.
const CANONICAL: [(&str, &str); 12] = [
    // the film of docs/FORMATS.md
    (
        "scene,days,Ann Lee,\"Bo, Jr\",Cleo\nrate,,900,400,0\n\"INT. HOUSE, DAY\",2,x,x,\nEXT. ROAD,1,X,.,-\n12A,03,,1,0\n",
        "scene,days,Ann Lee,\"Bo, Jr\",Cleo\nrate,,900,400,0\n\"INT. HOUSE, DAY\",2,x,x,.\nEXT. ROAD,1,x,.,.\n12A,3,.,x,.\n",
    ),
    (
        "\u{feff}scene,days,a,b\r\nrate,,10,20\r\n s1 , 1 , x , .\r\ns2,1,X,x\r\n",
        "scene,days,a,b\nrate,,10,20\ns1,1,x,.\ns2,1,x,x\n",
    ),
    (
        "Scene,DAYS\nRate,5\n,\ns1,1\n\n,,\ns2,2",
        "scene,days\nrate,\ns1,1\ns2,2\n",
    ),
    (
        "\"scene\",\"days\",\"a\"\n\"rate\",\"x\",\"007\"\n\"s1\",\"01\",\"1\"\n\"s,2\",10,-\n",
        "scene,days,a\nrate,,7\ns1,1,x\n\"s,2\",10,.\n",
    ),
    (
        "scene,days,a,b\nrate,,000,1000000000\n \"s1\" ,099,,0\n",
        "scene,days,a,b\nrate,,0,1000000000\n\"\"\"s1\"\"\",99,.,.\n",
    ),
    (
        "scene,days,\"a b\"\nrate,,5\n#'\\;,1,X\n",
        "scene,days,a b\nrate,,5\n#'\\;,1,x\n",
    ),
    // a hold row, only if some hold rate differs from the rate
    (
        "scene,days,a,b,c\nrate,,1,2,3\nhold,,5,1,4\ns1,1,x,x,\ns2,1,,x,x\ns3,1,x,,x\n",
        "scene,days,a,b,c\nrate,,1,2,3\nhold,,5,1,4\ns1,1,x,x,.\ns2,1,.,x,x\ns3,1,x,.,x\n",
    ),
    (
        "scene,days,a,b\nrate,,010,20\nhold,,10,020\ns1,1,x,.\n",
        "scene,days,a,b\nrate,,10,20\ns1,1,x,.\n",
    ),
    (
        "Scene,Days,a,b\nRATE,x,10,20\n Hold ,y,010,00\n\n,,,\ns1,1,x,.\n",
        "scene,days,a,b\nrate,,10,20\nhold,,10,0\ns1,1,x,.\n",
    ),
    (
        "scene,days,a,b\nrate,,10,20\nhold,,11,20\ns1,1,x,.\n",
        "scene,days,a,b\nrate,,10,20\nhold,,11,20\ns1,1,x,.\n",
    ),
    (
        "scene,days\nrate,\nhold,\ns1,1\n",
        "scene,days\nrate,\ns1,1\n",
    ),
    // pairs, each once
    (
        "scene,days\nrate,\ns1,1\n\"s,2\",1\n,\nBefore,\"s,2\",s1,,\nbefore,\"s,2\",s1\n",
        "scene,days\nrate,\ns1,1\n\"s,2\",1\nbefore,\"s,2\",s1\n",
    ),
];

// Films with texts in all spellings of the format.
#[rattlefmt::skip]
const SPELLED: [(&str, &str); 11] = [
    ("\u{feff}scene,days,a,b\r\nrate,,10,20\r\n s1 , 1 , x , .\r\ns2,1,X,x\r\n", "scene,days,a,b\nrate,,10,20\ns1,1,x,.\ns2,1,x,x\n"),
    ("scene,days,a\rrate,,5\rs1,2,x\rs2,3,.\r", "scene,days,a\nrate,,5\ns1,2,x\ns2,3,.\n"),
    ("\n\rscene,days,a\n\rrate,,5\r\n\r\ns1,2,1", "scene,days,a\nrate,,5\ns1,2,x\n"),
    ("scene,days,a\nrate,,5\ns1,2,", "scene,days,a\nrate,,5\ns1,2,.\n"),
    ("\"scene\",\"days\",\"Bo, Jr\",\"The \"\"Kid\"\"\"\n\"rate\",\"\",\"5\",\"6\"\n\"INT. HOUSE, DAY\",\"2\",\"x\",\".\"\n\"\"\"12\"\"A,\",\"3\",\"\",\"1\"\n", "scene,days,\"Bo, Jr\",\"The \"\"Kid\"\"\"\nrate,,5,6\n\"INT. HOUSE, DAY\",2,x,.\n\"\"\"12\"\"A,\",3,.,x\n"),
    ("scene,days,6\" Joe\nrate,,5\n\"The \"Kid,1,x\nT\"h\"e,1,x\n", "scene,days,\"6\"\" Joe\"\nrate,,5\nThe Kid,1,x\n\"T\"\"h\"\"e\",1,x\n"),
    ("scene\t, days ,\" a \",\t\tb c\t\nrate , , 5 ,\t6\n\"\ts1 \" ,\t9\t, x,\"1 \"\n \"s2\",1, ,\t\n", "scene,days,a,b c\nrate,,5,6\ns1,9,x,x\n\"\"\"s2\"\"\",1,.,.\n"),
    ("SCENE,Days,scene,Days,RATE,hold,before\nRaTe,per day,1,2,3,4,5\ns1,1,x,.,-,0,\ns2,1,X,1,x,1,X\ns3,1,.,X,,1,-\n", "scene,days,scene,Days,RATE,hold,before\nrate,,1,2,3,4,5\ns1,1,x,.,.,.,.\ns2,1,x,x,x,x,x\ns3,1,.,x,.,x,.\n"),
    ("scene,days,a\nrate,\"in cash,\nper \"\"day\"\"\",5\ns1,1,x\n", "scene,days,a\nrate,,5\ns1,1,x\n"),
    ("scene,days,a\nrate,,5\n,,\n,\n , , , ,\n\"\"\n\ns1,1,x\n\t\n,,,,,,\ns2,1,.\n,,\n\" \"", "scene,days,a\nrate,,5\ns1,1,x\ns2,1,.\n"),
    ("scene,days\nrate,\ns1,1\ns2,2\n", "scene,days\nrate,\ns1,1\ns2,2\n"),
];

#[rattlefmt::skip]
const SPELLED_TOO: [(&str, &str); 12] = [
    ("scene,days,a,b,c,d\nrate,,007,000000000000000000000000000001,1000000000,0\ns1,007,x,.,.,.\ns2,99,.,x,.,.\ns3,000000000000000000000000000001,.,.,x,.\ns4,10,.,.,.,x\n", "scene,days,a,b,c,d\nrate,,7,1,1000000000,0\ns1,7,x,.,.,.\ns2,99,.,x,.,.\ns3,1,.,.,x,.\ns4,10,.,.,.,x\n"),
    ("scene,days,a,b\nrate,,0000000001000000000,00\ns1,0099,x,\n", "scene,days,a,b\nrate,,1000000000,0\ns1,99,x,.\n"),
    ("scene,days,a234567890123456789012345678901234567890123456789012345678901234\nrate,,5\nb234567890123456789012345678901234567890123456789012345678901234,1,x\néééééééééééééééééééééééééééééééé ,2,x\n", "scene,days,a234567890123456789012345678901234567890123456789012345678901234\nrate,,5\nb234567890123456789012345678901234567890123456789012345678901234,1,x\néééééééééééééééééééééééééééééééé,2,x\n"),
    ("scene,days,a,A\nrate,,1,2\na,1,x,.\nA,1,.,x\n a a,1,,\na  a,1,,\n", "scene,days,a,A\nrate,,1,2\na,1,x,.\nA,1,.,x\na a,1,.,.\na  a,1,.,.\n"),
    ("scene,days,0,x\nrate,,1,2\nscene,1,.,.\ndays,1,.,.\nrates,1,.,.\non hold,1,.,.\n#1,1,.,.\n.,1,.,.\nx,1,.,.\n\u{a0},1,.,.\n日本 🎬,1,.,.\n", "scene,days,0,x\nrate,,1,2\nscene,1,.,.\ndays,1,.,.\nrates,1,.,.\non hold,1,.,.\n#1,1,.,.\n.,1,.,.\nx,1,.,.\n\u{a0},1,.,.\n日本 🎬,1,.,.\n"),
    ("scene,days,a,b,c\nrate,,1,2,3\nhold,,5,1,4\ns1,1,x,x,\ns2,1,,x,x\ns3,1,x,,x\n", "scene,days,a,b,c\nrate,,1,2,3\nhold,,5,1,4\ns1,1,x,x,.\ns2,1,.,x,x\ns3,1,x,.,x\n"),
    ("scene,days,a,b\nrate,,5,6\nhold,,5,6\ns1,1,x,\n", "scene,days,a,b\nrate,,5,6\ns1,1,x,.\n"),
    ("scene,days,a,b\r\nrate,,5,6\r\n\"\tHOLD \",\"per,\nday\", 07 ,\"0\"\r\n\r\n,,,\r\ns1,2,x,\r\n", "scene,days,a,b\nrate,,5,6\nhold,,7,0\ns1,2,x,.\n"),
    ("scene,days,a,b,c\nrate,,0,5,1000000000\nhOLD,,1000000000,0,0000000001000000000\ns1,1,x,x,x\n", "scene,days,a,b,c\nrate,,0,5,1000000000\nhold,,1000000000,0,1000000000\ns1,1,x,x,x\n"),
    ("scene,days\nrate,\nhold,\ns1,1\n", "scene,days\nrate,\ns1,1\n"),
    ("scene,days,hold,a\nrate,,5,6\nhold,,5,0\nholds,1,x,\n", "scene,days,hold,a\nrate,,5,6\nhold,,5,0\nholds,1,x,.\n"),
    ("scene,days,Ann Lee,\"Bo, Jr\",\"Zoë \"\"Z\"\"\"\nrate,,900,0,1000000000\nhold,,900,450,0\n\"INT. HOUSE, DAY\",2,x,x,.\nEXT. ROAD,1,x,.,.\n\"12A \"\"Küche\"\"\",99,.,x,x\n日本 🎬,10,.,.,.\n", "scene,days,Ann Lee,\"Bo, Jr\",\"Zoë \"\"Z\"\"\"\nrate,,900,0,1000000000\nhold,,900,450,0\n\"INT. HOUSE, DAY\",2,x,x,.\nEXT. ROAD,1,x,.,.\n\"12A \"\"Küche\"\"\",99,.,x,x\n日本 🎬,10,.,.,.\n"),
];

// Tells whether the text is read and written as the canonical text, and the canonical text as itself.
fn is_canonical(alloc: Global, text: &str, canonical: &str) -> Result<bool, Fail> {
    Ok(is_written(alloc, text, canonical)? && is_written(alloc, canonical, canonical)?)
}

fn is_written(alloc: Global, text: &str, canonical: &str) -> Result<bool, Fail> {
    let inst = read_instance(alloc, text.as_bytes())?;
    Ok(write_instance(alloc, &inst)?.as_slice() == canonical.as_bytes())
}

fn are_canonical(alloc: Global, texts: &[(&str, &str)]) -> Result<bool, Fail> {
    for (text, canonical) in texts {
        if !is_canonical(alloc, text, canonical)? {
            return Ok(false);
        }
    }
    Ok(true)
}

#[test]
fn canonical_texts(rt: HostRuntime) -> Result<(), Fail> {
    assert!(&rt; are_canonical(rt.alloc(), &CANONICAL)?);
    Ok(())
}

#[test]
fn films_in_all_spellings(rt: HostRuntime) -> Result<(), Fail> {
    assert!(&rt; are_canonical(rt.alloc(), &SPELLED)?);
    assert!(&rt; are_canonical(rt.alloc(), &SPELLED_TOO)?);
    Ok(())
}

const HOUSE: &str = "scene,days,\"Bo, Jr\",Zoë\nrate,,900,5\nhold,,900,450\n\
    \"INT. HOUSE, DAY\",2,x,.\n日本 🎬,10,.,x\n";

// Two scenes and two actors with odd names, the second scene before the first.
fn house(alloc: Global) -> Result<Instance, Fail> {
    let mut scenes = Vec::new(alloc);
    for (name, days, cast) in [("INT. HOUSE, DAY", 2, 0b01), ("日本 🎬", 10, 0b10)] {
        let name = String::from_str(alloc, name)?;
        scenes.push(Scene { name, days, cast })?;
    }
    let mut actors = Vec::new(alloc);
    for (name, rate, hold) in [("Bo, Jr", 900, 900), ("Zoë", 5, 450)] {
        let name = String::from_str(alloc, name)?;
        actors.push(Actor { name, rate, hold })?;
    }
    let inst = Instance::of(scenes, actors).ok_or("within the limits")?;
    Ok(inst)
}

#[test]
fn an_instance_is_written(rt: HostRuntime) -> Result<(), Fail> {
    let alloc = rt.alloc();
    let inst = house(alloc)?;
    assert!(&rt; write_instance(alloc, &inst)?.as_slice() == HOUSE.as_bytes());
    assert!(&rt; is_written_with_a_pair(alloc, inst)?);
    Ok(())
}

fn is_written_with_a_pair(alloc: Global, inst: Instance) -> Result<bool, Fail> {
    let pairs = Vec::from_slice(alloc, &[Pair { first: 1, then: 0 }])?;
    if !inst.fits_pairs(&pairs) {
        return Err(Fail::from("within the limits"));
    }
    let text = write_instance(alloc, &inst.with_pairs(pairs))?;
    let wanted = format!(in alloc; "{HOUSE}before,日本 🎬,\"INT. HOUSE, DAY\"\n")?;
    Ok(text.as_slice() == wanted.as_bytes())
}
