// The line rows of a plan, formatted while they are written.
ghost use Rattle.std.specs.Prelude.{◌≡◌, ◌↔◌, ◌+◌, ◌≤◌, ◌++◌, [], List, ℕ, length, IsTrue, OnOk, OnErr};
ghost use Rattle.strip_io.specs.Counts.{Rose};
ghost use Rattle.strip_io.specs.Sink.{Took, TookFront};
ghost use Rattle.strip_proof.specs.Rows.{lines_text};
ghost use Rattle.strip_proof.specs.declared.line.TheConstants.{MAX_ROW};
ghost use Rattle.strip_proof.specs.declared.sending.TheConstants.{CHUNK};

use crate::line::line_text;
use std::marker::Model;
use strip_film::Line;
use strip_io::laws::texts_are_taken_in_parts;
use strip_io::{Failed, Sink, send};

// Number of bytes handed to the sink at once: some hundred rows.
const CHUNK: usize = 4096;

/// Rows that are sent together, modelled as their bytes.
#[derive(Drop)]
struct Chunk {
    bytes: [u8; CHUNK],
    len: usize,
}

impl Model for Chunk {
    ghost use Rattle.std.specs.Prelude.{◌≤◌, ℕ, List, take};
    ghost use Rattle.strip_proof.specs.declared.sending.TheConstants.{CHUNK};

    ghost Value = { List ℕ };

    ghost view = { λ chunk. take chunk.len chunk.bytes };

    ghost invariant = { λ chunk. chunk.len ≤ CHUNK };
}

impl Chunk {
    fn new() -> Chunk
        ensures { result ≡ [] }
    {
        Chunk {
            bytes: [0; CHUNK],
            len: 0,
        }
    }

    fn bytes(&self) -> &[u8]
        ensures { result.now ≡ self.now }
    {
        &self.bytes[..self.len]
    }

    /// Tells whether there is room for `count` more bytes.
    fn has_room(&self, count: usize) -> bool
        requires { count ≤ CHUNK }
        ensures { IsTrue result ↔ (length self.now + count ≤ CHUNK) }
    {
        self.len <= CHUNK - count
    }

    fn push(&mut self, row: &[u8])
        requires { length self.old + length row.now ≤ CHUNK }
        ensures { self.new ≡ self.old ++ row.now }
    {
        let end = self.len + row.len();
        self.bytes[self.len..end].copy_from_slice(row);
        self.len = end;
    }

    fn clear(&mut self)
        ensures { self.new ≡ [] }
    {
        self.len = 0;
    }

    /// Adds a row. If there is no room for it, the earlier rows are sent first.
    fn add<S: Sink>(&mut self, out: &mut S, row: &[u8]) -> Result<(), Failed>
        requires { length row.now ≤ MAX_ROW }
        ensures ok { OnOk result ((sent : List ℕ) × (sent ++ self.new ≡ self.old ++ row.now)
            × Took (S.state out.old).taken (S.state out.new).taken sent) }
        ensures cause { OnErr result (Rose (S.state out.old).faults (S.state out.new).faults) }
        ensures front { OnErr result (TookFront (S.state out.old).taken (S.state out.new).taken self.old) }
        ensures later { (S.state out.old).faults ≤ (S.state out.new).faults }
        ensures unfailed { OnOk result ((S.state out.new).faults ≡ (S.state out.old).faults) }
    {
        if !self.has_room(row.len()) {
            send(out, self.bytes())?;
            self.clear();
        }
        self.push(row);
        Ok(())
    }
}

/// Writes the rows of the lines, formatted while they are written, some hundred at a time. It takes no memory.
pub fn send_lines<S: Sink>(out: &mut S, lines: &[Line]) -> Result<(), Failed>
    ensures ok { OnOk result (Took (S.state out.old).taken (S.state out.new).taken (lines_text lines.now)) }
    ensures cause { OnErr result (Rose (S.state out.old).faults (S.state out.new).faults) }
    ensures front { OnErr result (TookFront (S.state out.old).taken (S.state out.new).taken (lines_text lines.now)) }
    ensures later { (S.state out.old).faults ≤ (S.state out.new).faults }
    ensures unfailed { OnOk result ((S.state out.new).faults ≡ (S.state out.old).faults) }
{
    texts_are_taken_in_parts();
    let mut chunk = Chunk::new();
    for line in lines {
        chunk.add(out, line_text(line).bytes())?;
    }
    send(out, chunk.bytes())
}
