// The whole program over files that never fail.
use std::alloc::{AllocError, Global};
use std::test::Fail;
use strip_io::{MemSink, NoFaultFiles};
use strip_top::report;

const TRIANGLE: &str = "scene,days,a,b,c\nrate,,1,2,3\n\
    s1,1,x,x,.\ns2,1,.,x,x\ns3,1,x,.,x\n";

const SOLVED: &str =
    "plan,2\nbounds,pairs\nstatus,optimal\ncost,13\nbound,13\nlines,1\norder,s1,s2,s3\nproof,0\n";

fn solve_words(alloc: Global, name: &str) -> Result<Vec<String>, AllocError> {
    let mut words = Vec::new(alloc);
    words.push(String::from_str(alloc, "solve")?)?;
    words.push(String::from_str(alloc, name)?)?;
    Ok(words)
}

fn ends_so(alloc: Global, name: &str, status: u8, printed: &str) -> Result<bool, Fail> {
    let mut files = NoFaultFiles::new(alloc);
    files.add("film.csv", TRIANGLE.as_bytes())?;
    let mut out = MemSink::new(alloc, 4096, 4096, &[])?;
    let code = report(alloc, &solve_words(alloc, name)?, &mut files, &mut out);
    Ok(code == status && out.taken() == printed.as_bytes())
}

// A name that was never added is an empty file here, which is no film.
#[test]
fn files_that_never_fail(rt: HostRuntime) -> Result<(), Fail> {
    assert!(&rt; ends_so(rt.alloc(), "film.csv", 0, SOLVED)?);
    assert!(&rt; ends_so(rt.alloc(), "other.csv", 5, "error,Empty,,\n")?);
    Ok(())
}
