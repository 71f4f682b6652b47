// Blanks at the ends of a field.
ghost use Rattle.std.specs.Prelude.{◌≡◌, reverse};
ghost use Rattle.strip_text.specs.Field.{is_blank, trimmed, without_front_blanks};

/// Returns the field without the spaces and tabs at its ends.
pub(crate) fn trimmed(field: &[u8]) -> &[u8]
    ensures { result.now ≡ trimmed field.now }
{
    without_back_blanks(without_front_blanks(field))
}

fn without_front_blanks(field: &[u8]) -> &[u8]
    ensures { result.now ≡ without_front_blanks field.now }
{
    let mut rest = field;
    while let [byte, tail @ ..] = rest {
        if !is_blank(*byte) {
            return rest;
        }
        rest = tail;
    }
    rest
}

fn without_back_blanks(field: &[u8]) -> &[u8]
    ensures { result.now ≡ reverse (without_front_blanks (reverse field.now)) }
{
    let mut rest = field;
    while let [front @ .., byte] = rest {
        if !is_blank(*byte) {
            return rest;
        }
        rest = front;
    }
    rest
}

fn is_blank(byte: u8) -> bool
    ensures { result ≡ is_blank byte }
{
    byte == b' ' || byte == b'\t'
}
