// The words that follow a command, read as items.
ghost use Rattle.std.specs.Prelude.{◌≡◌, ◌≢◌, ◌↔◌, ◌⊎◌, ◌++◌, [], ◌∷◌, List, Option, All, IsTrue, IfOk, IfErr, Contains, codes};
ghost use Rattle.strip_words.specs.declared.fault.WordsFault.TheVariants.{BadWords as NoJob};
ghost use Rattle.strip_words.specs.Words.{Word, Item as ItemData, Joined as AJoined, IsPlain, BelongsTo, IsSpelled, AreDistinct, options_in, operand_of, operands_of};
ghost use Rattle.std.specs.List.{filter_map};
ghost use Rattle.strip_words.specs.Reader.{Begins, Spells, has_names};
ghost use Rattle.strip_words.specs.Shown.{texts, strs, command_data, item_data, items_data, rest_data};

use crate::WordsFault;
use crate::command::Command;
use crate::item::Item;
use std::alloc::{AllocError, Global};

/// The items that follow a command's word, and the words after `--`, if `--` is there.
#[derive(Drop)]
pub(crate) struct Reading<'w> {
    pub(crate) items: Vec<Item<'w>>,
    pub(crate) rest: Option<&'w [String]>,
}

/// Reads the words that follow the command's own.
pub(crate) fn read<'w>(
    alloc: Global,
    command: &Command,
    later: &'w [String],
) -> Result<Reading<'w>, WordsFault>
    requires { IsTrue (has_names (command_data command.now)) }
    ensures ok { IfOk result (λ reading. IsSpelled (command_data command.now) (command.now.word.now ∷ texts later.now)
        (items_data reading.items.items) (rest_data reading.rest)) }
    ensures bad { IfErr result (λ e. e ≡ NoJob → (items : List ItemData) (rest : Option (List Word))
        → ¬ IsSpelled (command_data command.now) (command.now.word.now ∷ texts later.now) items rest) }
{
    let reading = read_items(alloc, command, later)?;
    let operands = reading.operands(alloc)?;
    if operands.len() == command.operands
        && are_filled(operands.as_slice())
        && are_distinct(reading.items.as_slice())
    {
        Ok(reading)
    } else {
        Err(WordsFault::BadWords)
    }
}

impl<'w> Reading<'w> {
    /// Returns the operands among the items and after `--`.
    pub(crate) fn operands(&self, alloc: Global) -> Result<Vec<&'w str>, AllocError>
        ensures { IfOk result (λ words. strs words.items
            ≡ operands_of (items_data self.now.items.items) (rest_data self.now.rest)) }
    {
        let mut operands = operands_in(alloc, self.items.as_slice())?;
        for word in self.rest.unwrap_or(&[]) {
            operands.push(word.as_str())?;
        }
        Ok(operands)
    }
}

fn operands_in<'w>(alloc: Global, items: &[Item<'w>]) -> Result<Vec<&'w str>, AllocError>
    ensures { IfOk result (λ words. strs words.items ≡ filter_map operand_of (items_data items.now)) }
{
    let mut operands = Vec::new(alloc);
    for item in items {
        if let Some(word) = item.operand() {
            operands.push(word)?;
        }
    }
    Ok(operands)
}

fn are_filled(words: &[&str]) -> bool
    ensures { IsTrue result ↔ All (λ word. word ≢ []) (strs words.now) }
{
    words.iter().all(|word| !word.is_empty())
}

/// Tells whether no option is among the items twice.
fn are_distinct(items: &[Item]) -> bool
    ensures { IsTrue result ↔ AreDistinct (options_in (items_data items.now)) }
{
    let mut later = items;
    while let [item, behind @ ..] = later {
        if let Some(name) = item.option()
            && has_option(behind, name)
        {
            return false;
        }
        later = behind;
    }
    true
}

fn has_option(items: &[Item], name: &str) -> bool
    ensures { IsTrue result ↔ Contains (options_in (items_data items.now)) name.now }
{
    items.iter().any(|item| item.option() == Some(name))
}

fn read_items<'w>(
    alloc: Global,
    command: &Command,
    words: &'w [String],
) -> Result<Reading<'w>, WordsFault>
    requires { IsTrue (has_names (command_data command.now)) }
    ensures ok { IfOk result (λ reading. Spells (command_data command.now) (texts words.now)
        (items_data reading.items.items) (rest_data reading.rest)) }
    ensures bad { IfErr result (λ e. e ≡ NoJob → (items : List ItemData) (rest : Option (List Word))
        → ¬ Spells (command_data command.now) (texts words.now) items rest) }
{
    let mut items = Vec::new(alloc);
    let mut later = words;
    while let [word, behind @ ..] = later {
        let word = word.as_str();
        if word == "--" {
            let rest = Some(behind);
            return Ok(Reading { items, rest });
        }
        let (item, behind) = first_item(command, word, behind)?;
        items.push(item)?;
        later = behind;
    }
    Ok(Reading { items, rest: None })
}

/// Reads the item that begins with this word, and returns it with the words after it.
fn first_item<'w>(
    command: &Command,
    word: &'w str,
    later: &'w [String],
) -> Result<(Item<'w>, &'w [String]), WordsFault>
    requires { IsTrue (has_names (command_data command.now)) }
    ensures ok { IfOk result (λ first. Begins (command_data command.now) (word.now ∷ texts later.now)
        (item_data first.0) (texts first.1.now)) }
    ensures bad { IfErr result (λ e. (item : ItemData) (behind : List Word)
        → ¬ Begins (command_data command.now) (word.now ∷ texts later.now) item behind) }
{
    if is_operand(word) {
        Ok((Item::Operand(word), later))
    } else if command.has_flag(word) {
        Ok((Item::Flag(word), later))
    } else if command.has_valued(word) {
        let (value, behind) = first_plain(later)?;
        Ok((Item::Apart(word, value), behind))
    } else {
        let (name, value) = cut(command, word)?;
        Ok((Item::Joined(name, value), later))
    }
}

/// Returns the value that is the first of the words, and the words after it.
fn first_plain(words: &[String]) -> Result<(&str, &[String]), WordsFault>
    ensures ok { IfOk result (λ first. (texts words.now ≡ first.0.now ∷ texts first.1.now) × IsPlain first.0.now) }
    ensures bad { IfErr result (λ e. (value : Word) (behind : List Word) → texts words.now ≡ value ∷ behind
        → ¬ IsPlain value) }
{
    match words.split_first() {
        Some((value, behind)) if is_plain(value.as_str()) => Ok((value.as_str(), behind)),
        _ => Err(WordsFault::BadWords),
    }
}

/// Splits a word into an option and its value.
fn cut<'w>(command: &Command, word: &'w str) -> Result<(&'w str, &'w str), WordsFault>
    requires { IsTrue (has_names (command_data command.now)) }
    ensures ok { IfOk result (λ parts. (word.now ≡ parts.0.now ++ 61 ∷ parts.1.now)
        × BelongsTo (command_data command.now) (AJoined parts.0.now parts.1.now)) }
    ensures bad { IfErr result (λ e. (name value : Word) → word.now ≡ name ++ 61 ∷ value
        → ¬ BelongsTo (command_data command.now) (AJoined name value)) }
{
    match word.split_once('=') {
        Some((name, value)) if command.has_valued(name) && is_plain(value) => Ok((name, value)),
        _ => Err(WordsFault::BadWords),
    }
}

fn is_operand(word: &str) -> bool
    ensures { IsTrue result ↔ (IsPlain word.now ⊎ (word.now ≡ codes "-")) }
{
    word == "-" || is_plain(word)
}

/// Tells whether the word isn't empty and doesn't begin with a hyphen.
fn is_plain(word: &str) -> bool
    ensures { IsTrue result ↔ IsPlain word.now }
{
    !word.is_empty() && !word.starts_with('-')
}
