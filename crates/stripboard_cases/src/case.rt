// The content of a case file.

/// The files that all cases of a case file share, and its cases in their order.
#[derive(Drop)]
pub struct Cases {
    pub shared: Vec<Given>,
    pub cases: Vec<Case>,
}

/// A case: its name, and its files and steps in their order.
#[derive(Drop)]
pub struct Case {
    pub name: String,
    pub actions: Vec<Action>,
}

#[derive(Drop)]
pub enum Action {
    Give(Given),
    Run(Step),
}

/// A file that is available from here on: its name, its rows, and the file that they are added to.
#[derive(Drop)]
pub struct Given {
    pub name: String,
    pub base: Base,
    pub text: Vec<u8>,
}

/// The file that the rows of a given file are added to.
#[derive(Drop)]
pub enum Base {
    /// The rows are the whole file.
    None,
    /// The rows come after those of this file.
    Behind(String),
    /// The rows replace the row of this number, counted from 1, in this file.
    Within(String, u64),
}

/// A file that is available in a case.
#[derive(Drop)]
pub struct Held {
    pub name: String,
    pub bytes: Vec<u8>,
}

#[derive(Clone, Copy, PartialEq, Eq, Debug)]
pub enum Program {
    Stripboard,
    Stripcheck,
}

/// A run of a program, and its expected results.
#[derive(Drop)]
pub struct Step {
    pub program: Program,
    pub words: Vec<String>,
    /// The numbers of the reads that fail, counted from 1.
    pub failing_reads: Vec<u64>,
    /// The greatest number of bytes that a read returns.
    pub read_piece: u64,
    /// The numbers of the writes that fail, counted from 1.
    pub failing_writes: Vec<u64>,
    /// The greatest number of bytes that a write takes.
    pub piece: u64,
    /// The greatest number of bytes that the output takes in all.
    pub room: u64,
    pub wanted: Wanted,
    /// The name of a file for later steps that the output is kept in.
    pub keep: Option<String>,
}

/// The expected results of a step.
#[derive(Drop)]
pub struct Wanted {
    /// It ends with one of these statuses.
    pub statuses: Vec<u8>,
    /// It prints exactly this; none if it may print anything.
    pub text: Option<Vec<u8>>,
    /// It prints these rows, among others.
    pub rows: Vec<Vec<u8>>,
    pub numbers: Vec<NumberWanted>,
}

/// The number of a printed row `NAME,NUMBER`, compared with another number.
#[derive(Drop)]
pub struct NumberWanted {
    pub name: String,
    pub relation: Relation,
    pub bound: Bound,
}

#[derive(Clone, Copy, PartialEq, Eq, Debug)]
pub enum Relation {
    Equal,
    AtMost,
    AtLeast,
}

#[derive(Drop)]
pub enum Bound {
    Number(u64),
    /// The number of the row of this name in a file.
    In { name: String, file: String },
}
