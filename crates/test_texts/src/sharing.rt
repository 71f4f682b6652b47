// Tests of several workers: the words set their number, they search at the same time, and they steal exactly if the
// words say so.
//
// The film is a ring: each of four actors shares a scene with the one before and one with the next. Bounds are plain.
// The actors' days of work cost 20. Between the four scenes they wait at least two days in any order, so each order
// costs at least 22. The scenes 2 and 3 cost 9 if they come first, and the others then at least 12; 1 and 4 cost 13,
// and the others 8. Both sums are below 22. So several workers, whose tasks have three scenes, have four wanted tasks:
// each scene can be the last. One worker, whose tasks have two scenes, has all six wanted, since each first scene with
// the others costs 20.
use std::alloc::{AllocError, Global};
use std::sync::Wait;
use std::sync::atomic::{AtomicBool, AtomicU32, Ordering};
use std::test::Fail;
use std::thread::Threads;
use strip_hand::{Gate, Limit, Stage, Standing};
use strip_io::{MemFiles, MemSink};
use strip_top::run;

const RING: &str = "scene,days,a,b,c,d\nrate,,1,2,3,4\n\
    s1,1,x,.,.,x\ns2,1,x,x,.,.\ns3,1,.,x,x,.\ns4,1,.,.,x,x\n";

/// A gate that holds the worker who begins the first task until `awaited` other tasks were begun, for a bounded number
/// of turns.
#[derive(Drop)]
struct Holding {
    awaited: u32,
    workers: AtomicU32,
    begun: AtomicU32,
    // The other tasks in the order in which they were begun, a digit each.
    order: AtomicU32,
    // Whether the awaited tasks were begun in time.
    met: AtomicBool,
}

impl Holding {
    fn until(awaited: u32) -> Holding {
        Holding {
            awaited,
            workers: AtomicU32::new(0),
            begun: AtomicU32::new(0),
            order: AtomicU32::new(0),
            met: AtomicBool::new(false),
        }
    }

    /// Waits until the awaited tasks were begun.
    fn hold(&self) {
        for _turn in 0..400_000_000u64 {
            if self.begun.load(Ordering::SeqCst) >= self.awaited {
                self.met.store(true, Ordering::SeqCst);
                return;
            }
        }
    }
}

impl Gate for Holding {
    fn opened(&self, _wanted: u32, workers: u32) {
        self.workers.store(workers, Ordering::SeqCst);
    }

    fn enter(&self, _worker: u32, part: u32, _standing: &Standing) {
        if part == 1 {
            self.hold();
            return;
        }
        let before = self.order.load(Ordering::SeqCst);
        let order = before.saturating_mul(10).saturating_add(part);
        self.order.store(order, Ordering::SeqCst);
        self.begun.fetch_add(1, Ordering::SeqCst);
    }

    fn reached(&self, _limit: &Limit) {}

    fn ended(&self, _stage: &Stage) {}
}

fn words_of(alloc: Global, text: &str) -> Result<Vec<String>, AllocError> {
    let mut words = Vec::new(alloc);
    for word in text.split_whitespace() {
        words.push(String::from_str(alloc, word)?)?;
    }
    Ok(words)
}

/// Returns the status of the program with these words over the ring's file.
fn status_of<R: Threads + Wait + Sync>(
    rt: &R,
    alloc: Global,
    words: &str,
    gate: &Holding,
) -> Result<u8, Fail> {
    let words = words_of(alloc, words)?;
    let mut files = MemFiles::new(alloc, &[])?;
    files.add("ring.csv", RING.as_bytes())?;
    let mut out = MemSink::new(alloc, 4096, 4096, &[])?;
    Ok(run(rt, alloc, &words, &mut files, &mut out, gate))
}

/// Returns the number of workers, and the order in which the other tasks are begun. It fails if the search doesn't end,
/// or if fewer than `awaited` of these tasks are begun while the first is held.
fn seen<R: Threads + Wait + Sync>(
    rt: &R,
    alloc: Global,
    words: &str,
    awaited: u32,
) -> Result<(u32, u32), Fail> {
    let gate = Holding::until(awaited);
    if status_of(rt, alloc, words, &gate)? != 0 {
        return Err("the search ends".into());
    }
    if !gate.met.load(Ordering::SeqCst) {
        return Err("others are begun while the first task is held".into());
    }
    let workers = gate.workers.load(Ordering::SeqCst);
    Ok((workers, gate.order.load(Ordering::SeqCst)))
}

const ONE: &str = "solve ring.csv --bounds plain";

const TWO: &str = "solve ring.csv --bounds plain --workers 2";

const STEALING: &str = "solve ring.csv --bounds plain --workers 2 --steal";

const THREE: &str = "solve ring.csv --bounds plain --workers 3";

// While one of two workers is held, the other takes the tasks of a counter by their numbers. Queues are filled in turn,
// so his own has 2 and 4; he takes these first, and then steals 3.
#[test]
fn tasks_are_shared_as_the_words_say(rt: HostRuntime) -> Result<(), Fail> {
    let alloc = rt.alloc();
    assert!(&rt; seen(&rt, alloc, ONE, 0)? == (1, 23456));
    assert!(&rt; seen(&rt, alloc, TWO, 3)? == (2, 234));
    assert!(&rt; seen(&rt, alloc, STEALING, 3)? == (2, 243));
    assert!(&rt; seen(&rt, alloc, THREE, 0)?.0 == 3);
    Ok(())
}
