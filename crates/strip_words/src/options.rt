// The values of the options among the items.
ghost use Rattle.std.specs.Prelude.{◌↔◌, ℕ, Option, IsTrue, IfOk, IfErr, IfSome, IfNone, Any, Contains};
ghost use Rattle.strip_words.specs.Words.{Word, Flag as AFlag, AreDistinct, options_in};
ghost use Rattle.strip_words.specs.Options.{Gives, IsLeftOut, IsChosen, IsGiven, IsPicked};
ghost use Rattle.strip_words.specs.Shown.{number_data, free_data, choice_data, items_data};

use crate::WordsFault;
use crate::command::{ChoiceOption, FreeOption, NumberOption};
use crate::item::Item;
use crate::number::number_of;

impl NumberOption {
    /// Returns the option's number, or the default if the option is left out.
    pub(crate) fn chosen(&self, items: &[Item]) -> Result<u64, WordsFault>
        requires { AreDistinct (options_in (items_data items.now)) }
        ensures ok { IfOk result (IsChosen (number_data self.now) (items_data items.now)) }
        ensures bad { IfErr result (λ e. (n : ℕ) → ¬ IsChosen (number_data self.now) (items_data items.now) n) }
    {
        match value_of(items, self.name) {
            None => Ok(self.default),
            Some(value) => number_of(value, self.least, self.most).ok_or(WordsFault::BadWords),
        }
    }
}

impl FreeOption {
    /// Returns the option's number, or none if the option is left out.
    pub(crate) fn given(&self, items: &[Item]) -> Result<Option<u64>, WordsFault>
        requires { AreDistinct (options_in (items_data items.now)) }
        ensures ok { IfOk result (IsGiven (free_data self.now) (items_data items.now)) }
        ensures bad { IfErr result (λ e. (n : Option ℕ) → ¬ IsGiven (free_data self.now) (items_data items.now) n) }
    {
        match value_of(items, self.name) {
            None => Ok(None),
            Some(value) => match number_of(value, self.least, self.most) {
                Some(number) => Ok(Some(number)),
                None => Err(WordsFault::BadWords),
            },
        }
    }
}

impl ChoiceOption {
    /// Returns the option's value, or the default if the option is left out.
    pub(crate) fn picked<'w>(&self, items: &[Item<'w>]) -> Result<&'w str, WordsFault>
        requires { AreDistinct (options_in (items_data items.now)) }
        ensures ok { IfOk result (λ word. IsPicked (choice_data self.now) (items_data items.now) word.now) }
        ensures bad { IfErr result (λ e. (word : Word)
            → ¬ IsPicked (choice_data self.now) (items_data items.now) word) }
    {
        match value_of(items, self.name) {
            None => Ok(self.default),
            Some(value) if self.choices.contains(&value) => Ok(value),
            Some(_) => Err(WordsFault::BadWords),
        }
    }
}

/// Returns the value that the items give the option, or none if it is left out.
pub(crate) fn value_of<'w>(items: &[Item<'w>], name: &str) -> Option<&'w str>
    ensures some { IfSome result (λ value. Any (Gives name.now value.now) (items_data items.now)) }
    ensures none { IfNone result (IsLeftOut name.now (items_data items.now)) }
{
    for item in items {
        if let Some(value) = item.value(name) {
            return Some(value);
        }
    }
    None
}

/// Tells whether no item gives the option a value.
pub(crate) fn is_left_out(items: &[Item], name: &str) -> bool
    ensures { IsTrue result ↔ IsLeftOut name.now (items_data items.now) }
{
    value_of(items, name).is_none()
}

/// Tells whether this option, which has no value, is among the items.
pub(crate) fn has_flag(items: &[Item], name: &str) -> bool
    ensures { IsTrue result ↔ Contains (items_data items.now) (AFlag name.now) }
{
    items.iter().any(|item| item.is_flag(name))
}
