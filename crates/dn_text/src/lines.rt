//! Lines, and the parts of a line.

ghost use Rattle.std.specs.Prelude.{◌≡◌, ◌∷◌, ◌<◌, ◌+◌, length};
ghost use Rattle.std.specs.Option.{option_copied};
ghost use Rattle.dn_text.specs.Lines.{parts, other_parts, lines};

/// The first part, and what stands behind the separator where there is one.
#[tactic(auto, unfolding(crate::specs::Lines::parts))]
pub fn first_part(separator: u8, text: &[u8]) -> (&[u8], Option<&[u8]>)
    ensures { parts separator text.now ≡ result.0.now ∷ other_parts separator (option_copied result.1) }
{
    for (i, byte) in text.iter().enumerate() {
        if *byte == separator {
            return (&text[..i], Some(&text[i + 1..]));
        }
    }
    (text, None)
}

/// The first line with its newline, and what stands behind it.
pub fn first_line(text: &[u8]) -> (&[u8], &[u8])
    requires { 0 < length text.now }
    ensures lines { lines text.now ≡ result.0.now ∷ lines result.1.now }
    ensures sizes { length result.0.now + length result.1.now ≡ length text.now }
    ensures some { 0 < length result.0.now }
{
    for (i, byte) in text.iter().enumerate() {
        if *byte == b'\n' {
            return (&text[..i + 1], &text[i + 1..]);
        }
    }
    (text, &[])
}
