// The words between a command and `--`, as items.
ghost use Rattle.std.specs.Prelude.{◌≡◌, ◌↔◌, Some, IsTrue, IfSome, IfNone, option_map};
ghost use Rattle.strip_words.specs.Words.{Word, Flag as AFlag, option_of, operand_of};
ghost use Rattle.strip_words.specs.Options.{Gives};
ghost use Rattle.strip_words.specs.Shown.{item_data};

/// An operand, an option with its value in one word or in two, or an option without a value.
#[derive(Clone, Copy)]
pub(crate) enum Item<'w> {
    Operand(&'w str),
    Joined(&'w str, &'w str),
    Apart(&'w str, &'w str),
    Flag(&'w str),
}

impl<'w> Item<'w> {
    pub(crate) fn operand(&self) -> Option<&'w str>
        ensures { option_map (λ word. word.now) result ≡ operand_of (item_data self.now) }
    {
        match self {
            Item::Operand(word) => Some(*word),
            _ => None,
        }
    }

    /// Returns the name of the item's option, or none if it is an operand.
    pub(crate) fn option(&self) -> Option<&'w str>
        ensures { option_map (λ name. name.now) result ≡ option_of (item_data self.now) }
    {
        match self {
            Item::Operand(_) => None,
            Item::Joined(name, _) | Item::Apart(name, _) | Item::Flag(name) => Some(*name),
        }
    }

    /// Returns the value that the item gives this option, or none if it gives none.
    pub(crate) fn value(&self, name: &str) -> Option<&'w str>
        ensures some { IfSome result (λ value. Gives name.now value.now (item_data self.now)) }
        ensures none { IfNone result ((value : Word) → ¬ Gives name.now value (item_data self.now)) }
    {
        match self {
            Item::Joined(option, value) | Item::Apart(option, value) if *option == name => {
                Some(*value)
            }
            _ => None,
        }
    }

    pub(crate) fn is_flag(&self, name: &str) -> bool
        ensures { IsTrue result ↔ (item_data self.now ≡ AFlag name.now) }
    {
        match self {
            Item::Flag(flag) => *flag == name,
            _ => false,
        }
    }
}
