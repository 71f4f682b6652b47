// Progress rows of several searches on standard error.
use std::alloc::Global;
use std::fmt::Display;
use std::io::{self, ErrorKind};
use std::sync::OnceLock;
use std::sync::atomic::{AtomicU32, Ordering};
use std::test::Fail;
use std::thread;
use std::thread::Threads;
use strip_hand::{Gate, Limit, Stage, Standing};
use strip_model::Kind;
use strip_progress::Progress;

/// A standard error that counts its rows, keeps the first, and reports a failure each time.
#[derive(Drop)]
struct FailingError {
    alloc: Global,
    rows: AtomicU32,
    first: OnceLock<String>,
}

impl FailingError {
    fn new(alloc: Global) -> FailingError {
        FailingError {
            alloc,
            rows: AtomicU32::new(0),
            first: OnceLock::new(),
        }
    }

    fn rows(&self) -> u32 {
        self.rows.load(Ordering::SeqCst)
    }

    /// Tells whether the first row is `row`.
    fn begins(&self, row: &str) -> bool {
        match self.first.get() {
            Some(first) => first.as_str() == row,
            None => false,
        }
    }
}

impl Eprint for FailingError {
    fn eprint<D: Display + Drop>(&self, value: D) -> io::Result<()> {
        self.eprintln(value)
    }

    fn eprintln<D: Display + Drop>(&self, value: D) -> io::Result<()> {
        self.rows.fetch_add(1, Ordering::SeqCst);
        let row = String::format(self.alloc, value)?;
        let _ = self.first.try_set(row);
        Err(io::Error::from(ErrorKind::BrokenPipe))
    }
}

/// Makes the state of a search with this bound.
fn standing(bound: Option<u64>) -> Standing {
    Standing {
        cost: 104_319,
        bound,
        lines: 1444,
        nodes: 20_000,
    }
}

/// Begins `tasks` tasks, each by this worker.
fn walk<G: Gate>(gate: &G, worker: u32, tasks: u32) {
    let standing = standing(None);
    for part in 0..tasks {
        gate.enter(worker, part, &standing);
    }
}

/// Two workers begin forty of eighty tasks each, in threads of their own.
fn walk_beside<R: Threads + Sync, G: Gate>(rt: &R, gate: &G) {
    gate.opened(80, 2);
    thread::join(rt, || walk(gate, 0, 40), || walk(gate, 1, 40));
}

/// Reports such a search on any standard error.
fn tell_beside<R: Threads + Sync, E: Eprint + Sync>(rt: &R, host: &E) {
    walk_beside(rt, &Progress::new(host));
}

/// Returns the number of rows if one worker begins `tasks` of the wanted tasks.
fn rows_of(alloc: Global, tasks: u32, wanted: u32) -> u32 {
    let host = FailingError::new(alloc);
    let gate = Progress::new(&host);
    gate.opened(wanted, 1);
    walk(&gate, 0, tasks);
    host.rows()
}

/// Returns the number of rows with the limits of `steps` steps. Each limit is reached three times, and two lie beyond
/// the last step.
fn limit_rows_of(alloc: Global, steps: u32) -> u32 {
    let host = FailingError::new(alloc);
    let gate = Progress::new(&host);
    let standing = standing(Some(85_504));
    for number in 0..u64::from(steps) + 3 {
        let limit = Limit {
            number,
            steps,
            standing,
        };
        gate.reached(&limit);
        gate.reached(&limit);
        gate.reached(&limit);
    }
    host.rows()
}

#[test]
fn a_row_comes_with_each_fortieth(rt: HostRuntime) -> Result<(), Fail> {
    let alloc = rt.alloc();
    assert!(&rt; rows_of(alloc, 412, 412) == 40);
    assert!(&rt; rows_of(alloc, 10, 412) == 0);
    assert!(&rt; rows_of(alloc, 11, 412) == 1);
    assert!(&rt; rows_of(alloc, 7, 7) == 7);
    assert!(&rt; rows_of(alloc, 3, 0) == 0);
    Ok(())
}

#[test]
fn a_worker_counts_once(rt: HostRuntime) -> Result<(), Fail> {
    let host = FailingError::new(rt.alloc());
    let gate = Progress::new(&host);
    gate.opened(81, 64);
    walk(&gate, 63, 2);
    walk(&gate, 0, 1);
    assert!(&rt;
        host.begins("3 of 81 tasks begun, by 2 workers: cost 104319, 1444 of 20000 lines")
    );
    Ok(())
}

#[test]
fn limits_have_few_rows(rt: HostRuntime) -> Result<(), Fail> {
    let alloc = rt.alloc();
    // Each number from 0 to the number of steps reaches a fortieth of its own.
    assert!(&rt; limit_rows_of(alloc, 1) == 2);
    assert!(&rt; limit_rows_of(alloc, 17) == 18);
    assert!(&rt; limit_rows_of(alloc, 40) == 41);
    // Each of the 41 fortieths, 0 to 40, has a first number.
    assert!(&rt; limit_rows_of(alloc, 41) == 41);
    assert!(&rt; limit_rows_of(alloc, 412) == 41);
    Ok(())
}

#[test]
fn the_first_limit_has_a_row(rt: HostRuntime) -> Result<(), Fail> {
    let host = FailingError::new(rt.alloc());
    let gate = Progress::new(&host);
    let standing = standing(Some(85_504));
    // Of 80 steps, two make a fortieth: 0 and 1 reach none, 5 and 4 reach two.
    for number in [1, 0, 5, 4, 1] {
        gate.reached(&Limit {
            number,
            steps: 80,
            standing,
        });
    }
    assert!(&rt; host.rows() == 2);
    assert!(&rt; host.begins("limit 1 of 80: cost 104319, bound 85504, 1444 of 20000 lines"));
    Ok(())
}

#[test]
fn a_stage_that_has_ended_has_a_row(rt: HostRuntime) -> Result<(), Fail> {
    let host = FailingError::new(rt.alloc());
    let gate = Progress::new(&host);
    gate.ended(&Stage {
        kind: Kind::Pairs,
        standing: standing(Some(85_504)),
    });
    assert!(&rt;
        host.begins("search with pairs ended: cost 104319, bound 85504, 1444 of 20000 lines")
    );
    Ok(())
}

#[test]
fn rows_come_from_two_threads(rt: HostRuntime) -> Result<(), Fail> {
    let host = FailingError::new(rt.alloc());
    tell_beside(&rt, &host);
    assert!(&rt; host.rows() == 40);
    Ok(())
}
