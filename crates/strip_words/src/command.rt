// Commands and their options, as records.

/// A command: its word, the number of its operands, and its options.
#[derive(Drop)]
pub(crate) struct Command {
    pub(crate) word: &'static str,
    pub(crate) operands: usize,
    pub(crate) options: &'static [CommandOption],
}

/// An option of a command. A flag has no value.
pub(crate) enum CommandOption {
    Number(NumberOption),
    Free(FreeOption),
    Choice(ChoiceOption),
    Flag(&'static str),
}

/// An option whose value is a number from `least` to `most`.
#[derive(Clone, Copy)]
pub(crate) struct NumberOption {
    pub(crate) name: &'static str,
    pub(crate) least: u64,
    pub(crate) most: u64,
    pub(crate) default: u64,
}

/// An option whose value is a number from `least` to `most`, and that has no default.
#[derive(Clone, Copy)]
pub(crate) struct FreeOption {
    pub(crate) name: &'static str,
    pub(crate) least: u64,
    pub(crate) most: u64,
}

/// An option whose value is one of a few words.
#[derive(Clone, Copy)]
pub(crate) struct ChoiceOption {
    pub(crate) name: &'static str,
    pub(crate) choices: &'static [&'static str],
    pub(crate) default: &'static str,
}

impl Command {
    ghost use Rattle.std.specs.Prelude.{◌↔◌, IsTrue, Contains};
    ghost use Rattle.strip_words.specs.Shown.{command_data};

    /// Tells whether an option of this name with a value exists.
    pub(crate) fn has_valued(&self, name: &str) -> bool
        ensures { IsTrue result ↔ Contains (command_data self.now).valued name.now }
    {
        self.options.iter().any(|option| match option {
            CommandOption::Number(option) => option.name == name,
            CommandOption::Free(option) => option.name == name,
            CommandOption::Choice(option) => option.name == name,
            CommandOption::Flag(_) => false,
        })
    }

    /// Tells whether an option of this name without a value exists.
    pub(crate) fn has_flag(&self, name: &str) -> bool
        ensures { IsTrue result ↔ Contains (command_data self.now).flags name.now }
    {
        self.options.iter().any(|option| match option {
            CommandOption::Flag(flag) => *flag == name,
            _ => false,
        })
    }
}
