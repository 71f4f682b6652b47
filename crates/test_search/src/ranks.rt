// Savings of ranks (the search order of children by promise): a search by scene numbers makes more lines.
use crate::films::eight;
use crate::paths::path;
use crate::searched::searched;
use std::test::Fail;
use strip_model::Kind;

// The initial order costs 83, and a cheapest order 51. With group bounds, children are ordered by step plus static
// bound of the rest, which takes 21 lines; by scene numbers it would take 71. An independent program of the same rules
// gives both numbers.
#[test]
fn ranks_save_lines(rt: HostRuntime) -> Result<(), Fail> {
    let alloc = rt.alloc();
    let film = eight(alloc)?;
    let start = path(&film, &[0, 1, 2, 3, 4, 5, 6, 7])?;
    assert!(&rt; start.rest().is_empty() && start.paid() == 83);
    let ended = searched(alloc, &film, &start, Kind::Groups, 10_000, 65_536)?;
    assert!(&rt;
        ended.cost == 51 && ended.bound == 51 && ended.held == 21,
        "{ended:?}"
    );
    Ok(())
}
