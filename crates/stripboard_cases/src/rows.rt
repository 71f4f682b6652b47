// The rows of a text, each ended by a line feed.
ghost use Rattle.std.specs.Prelude.{◌≡◌, ◌++◌, ◌∷◌, List, IfSome, IsTrue};
ghost use Rattle.stripboard_cases.specs.Met.{HasRow};

/// Returns the first row of the text, and the text after it.
pub(crate) fn first_row(text: &[u8]) -> Option<(&[u8], &[u8])>
    ensures { IfSome result (λ parts. text.now ≡ parts.0.now ++ 10 ∷ parts.1.now) }
{
    for (place, byte) in text.iter().enumerate() {
        if *byte == b'\n' {
            return Some((&text[..place], &text[place + 1..]));
        }
    }
    None
}

/// Tells whether the text has this row.
pub(crate) fn has_row(text: &[u8], row: &[u8]) -> bool
    ensures { IsTrue result → HasRow text.now row.now }
{
    let mut rest = text;
    while let Some((first, behind)) = first_row(rest) {
        if first == row {
            return true;
        }
        rest = behind;
    }
    false
}

/// Returns the bytes after the name and a comma, in the first row that begins with them.
pub(crate) fn behind_name<'a>(text: &'a [u8], name: &[u8]) -> Option<&'a [u8]>
    ensures { IfSome result (λ field. HasRow text.now (name.now ++ 44 ∷ field.now)) }
{
    let mut rest = text;
    while let Some((first, behind)) = first_row(rest) {
        if let Some(field) = named_field(first, name) {
            return Some(field);
        }
        rest = behind;
    }
    None
}

/// Returns the bytes after the name and a comma, if the row begins with them.
fn named_field<'a>(row: &'a [u8], name: &[u8]) -> Option<&'a [u8]>
    ensures { IfSome result (λ field. row.now ≡ name.now ++ 44 ∷ field.now) }
{
    if row.len() < name.len() {
        return None;
    }
    let (front, behind) = row.split_at(name.len());
    let (comma, field) = behind.split_first()?;
    (front == name && *comma == b',').then_some(field)
}
