// The best line of each set.
use std::test::Fail;
use strip_film::Line;
use strip_trim::Best;

#[test]
fn keeps_the_first_of_the_greatest_of_each_set(rt: HostRuntime) -> Result<(), Fail> {
    let lines = [
        Line { set: 6, bound: 9 },
        Line { set: 3, bound: 4 },
        Line { set: 6, bound: 10 },
        Line { set: 6, bound: 10 },
    ];
    let best = Best::of(rt.alloc(), &lines)?;
    assert!(&rt; keeps_the_third(&best));
    Ok(())
}

fn keeps_the_third(best: &Best) -> bool {
    let entries = best.entries();
    entries.len() == 2
        && entries[1].line == 2
        && best.place(6) == Some(1)
        && best.place(5).is_none()
        && best.bound_of(6) == 10
        && best.bound_of(5) == 0
}
