// The calls of a pass, and the read that needs no pass.
ghost use Rattle.std.specs.Prelude.{◌≡◌, ◌≤◌, false};
ghost use Rattle.strip_film.specs.Path.{IsComplete};
ghost use Rattle.strip_film.specs.Shown.{path_data};
ghost use Rattle.strip_least.specs.Pass.{Claims, IsPassOf, best_path, cheaper, known};
ghost use Rattle.strip_least.specs.Steps.{AreOnce, HasLooked, HasOffered, HasSettled, joined, lightened, split_off};

use crate::least::Least;
use crate::pass::LeastPass;
use crate::rule::{Count, Cut, Draw, Look, Merge, Offer, Settle};
use strip_film::Path;

/// Returns the cheaper of two paths, or the first if they cost the same.
fn cheaper(path: &Path, other: &Path) -> Path
    ensures { path_data result ≡ cheaper (path_data path.now) (path_data other.now) }
{
    if other.paid() < path.paid() {
        *other
    } else {
        *path
    }
}

impl Least {
    /// Returns the least cost that any pass offered so far, in units of money. It needs no pass, and gives a pass no
    /// knowledge.
    pub fn peek(&self) -> u64 {
        self.table.shared.peek(0)
    }
}

impl LeastPass {
    /// Returns the best path of the pass: one that it offered, the one it began with, or one of a pass joined into it.
    pub fn best(&self) -> &Path
        ensures best { path_data result.now ≡ best_path self.now }
        ensures pays { (path_data result.now).paid ≡ (known self.now).best }
    {
        &self.best
    }

    /// Returns the least cost that any pass offered so far, in units of money. It is at most every cost that this pass
    /// was told or offered, and at least the optimum of the film.
    pub fn look(&mut self, least: &Least) -> u64
        requires { IsPassOf least.now self.old }
        ensures pass { IsPassOf least.now self.new }
        ensures told { HasLooked (known self.old) result (known self.new) }
        ensures kept { best_path self.new ≡ best_path self.old }
    {
        least.table.shared.load::<Look>(&mut self.seat, 0)
    }

    /// Offers a complete path, and returns the least cost then, in units of money. It is at most the path's pay. The
    /// pass keeps the path if it is cheaper than its best one.
    pub fn offer(&mut self, least: &Least, path: &Path) -> u64
        requires pass { IsPassOf least.now self.old }
        requires complete { IsComplete (known self.old).film (path_data path.now) }
        ensures pass { IsPassOf least.now self.new }
        ensures told { HasOffered (path_data path.now).paid (known self.old) result (known self.new) }
        ensures kept { best_path self.new ≡ cheaper (best_path self.old) (path_data path.now) }
    {
        let paid = path.paid();
        let found = least
            .table
            .shared
            .fetch_min::<Offer>(&mut self.seat, 0, paid);
        self.best = cheaper(&self.best, path);
        found.min(paid)
    }

    /// Claims the next part, which no other pass gets, or returns none if all parts are claimed. After that the pass
    /// makes no further atomic step for a claim.
    pub fn claim(&mut self, least: &Least) -> Option<u32>
        requires { IsPassOf least.now self.old }
        ensures pass { IsPassOf least.now self.new }
        ensures claimed { Claims (known self.old) result (known self.new) }
        ensures kept { best_path self.new ≡ best_path self.old }
    {
        if self.has_ended {
            return None;
        }
        self.draw(least)
    }

    fn draw(&mut self, least: &Least) -> Option<u32>
        requires pass { IsPassOf least.now self.old }
        requires unended { (known self.old).ended ≡ false }
        ensures pass { IsPassOf least.now self.new }
        ensures claimed { Claims (known self.old) result (known self.new) }
        ensures kept { best_path self.new ≡ best_path self.old }
    {
        let found = least.table.shared.fetch_add::<Draw>(&mut self.seat, 1, 1);
        if found < u64::from(least.parts) {
            return Some(found as u32);
        }
        self.has_ended = true;
        None
    }

    /// Splits off a pass of weight 1, which has the knowledge and the best path of this pass, but no claims. The weight
    /// of this pass must be at least 2, and falls by 1.
    pub fn split(&mut self, least: &Least) -> LeastPass
        requires pass { IsPassOf least.now self.old }
        requires weight { 2 ≤ (known self.old).weight }
        ensures pass { IsPassOf least.now self.new }
        ensures lighter { known self.new ≡ lightened (known self.old) }
        ensures kept { best_path self.new ≡ best_path self.old }
        ensures new_pass { IsPassOf least.now result }
        ensures knows { known result ≡ split_off (known self.old) }
        ensures same { best_path result ≡ best_path self.old }
    {
        let seat = least.table.shared.split_seat::<Cut>(&mut self.seat);
        LeastPass {
            seat,
            best: self.best,
            has_ended: self.has_ended,
        }
    }

    /// Joins another pass of the same words into this one: its weight, its claims, its knowledge, and its best path if
    /// that is cheaper. No part occurs twice among the claims of both.
    pub fn join(&mut self, least: &Least, other: LeastPass)
        requires pass { IsPassOf least.now self.old }
        requires other { IsPassOf least.now other }
        ensures pass { IsPassOf least.now self.new }
        ensures joined { known self.new ≡ joined (known self.old) (known other) }
        ensures once { AreOnce (known self.new).claims }
        ensures kept { best_path self.new ≡ cheaper (best_path self.old) (best_path other) }
    {
        let LeastPass {
            seat,
            best,
            has_ended,
        } = other;
        let words = &least.table.shared;
        words.join_seat::<Merge>(&mut self.seat, seat);
        words.load::<Count>(&mut self.seat, 1);
        self.best = cheaper(&self.best, &best);
        self.has_ended |= has_ended;
    }

    /// Reads the least cost for the pass. A pass of full weight, into which all others were joined, has a best path
    /// with this cost. If it has also ended, it has claimed all parts, each once.
    pub fn settle(&mut self, least: &Least)
        requires { IsPassOf least.now self.old }
        ensures pass { IsPassOf least.now self.new }
        ensures settled { HasSettled (known self.old) (known self.new).told (known self.new) }
        ensures kept { best_path self.new ≡ best_path self.old }
    {
        least.table.shared.load::<Settle>(&mut self.seat, 0);
    }
}
