// The position of a search in a task.
ghost use Rattle.std.specs.Prelude.{◌≡◌, None, Some};

use crate::path::Path;

/// A cursor: a task number, and the last path that was enlisted (recorded as a line) in the task.
#[derive(Clone, Copy, Debug)]
pub struct Cursor {
    task: u32,
    last: Option<Path>,
}

impl Cursor {
    ghost use Rattle.std.specs.Option.{option_map};
    ghost use Rattle.strip_film.specs.Shown.{cursor_data, path_data};

    /// Makes a cursor of the task, without a last path.
    pub fn of(task: u32) -> Cursor
        ensures { cursor_data result ≡ record { task = task; last = None } }
    {
        Cursor { task, last: None }
    }

    /// Returns the number of the task: the part of the search that the cursor belongs to.
    pub fn task(&self) -> u32
        ensures { result ≡ (cursor_data self.now).task }
    {
        self.task
    }

    /// Returns the path that was enlisted last, if there is one.
    pub fn last(&self) -> Option<Path>
        ensures { option_map path_data result ≡ (cursor_data self.now).last }
    {
        self.last
    }

    /// Makes `path` the last path.
    pub fn moved(&mut self, path: &Path)
        ensures { cursor_data self.new ≡ record {
          task = (cursor_data self.old).task;
          last = Some
              (path_data path.now);
        } }
    {
        self.last = Some(*path);
    }
}
