//! Kinds of bytes.

ghost use Rattle.std.specs.Prelude.{◌≡◌};
ghost use Rattle.std.specs.List.{list_all};
ghost use Rattle.frp_lex.specs.Bytes as spec;

/// Whether the byte is a lower-case letter.
pub fn is_lower(b: u8) -> bool
    ensures { result ≡ spec.is_lower_case b }
{
    97 <= b && b <= 122
}

/// Whether the byte is an upper-case letter.
pub fn is_upper(b: u8) -> bool
    ensures { result ≡ spec.is_upper b }
{
    65 <= b && b <= 90
}

/// Whether the byte is a letter.
pub fn is_letter(b: u8) -> bool
    ensures { result ≡ spec.is_letter b }
{
    is_lower(b) || is_upper(b)
}

/// Whether the byte is a digit.
pub fn is_digit(b: u8) -> bool
    ensures { result ≡ spec.is_digit b }
{
    48 <= b && b <= 57
}

/// Whether the byte can stand in a name.
pub fn is_in_name(b: u8) -> bool
    ensures { result ≡ spec.is_in_name b }
{
    is_lower(b) || is_digit(b) || b == b'_'
}

/// Whether the byte can stand in an atom.
pub fn is_in_atom(b: u8) -> bool
    ensures { result ≡ spec.is_in_atom b }
{
    is_letter(b) || is_digit(b) || b == b'_' || b == b'-'
}

/// Whether the byte can stand in a text.
pub fn is_in_text(b: u8) -> bool
    ensures { result ≡ spec.is_in_text b }
{
    32 <= b && b <= 126
}

/// Whether the byte has a backslash before it in a text.
pub fn is_escaped(b: u8) -> bool
    ensures { result ≡ spec.is_escaped b }
{
    b == b'"' || b == b'\\'
}

/// Whether all bytes are digits.
pub fn are_digits(bytes: &[u8]) -> bool
    ensures { result ≡ list_all spec.is_digit bytes.now }
{
    bytes.iter().all(|b| is_digit(*b))
}

/// Whether all bytes are letters.
pub fn are_letters(bytes: &[u8]) -> bool
    ensures { result ≡ list_all spec.is_letter bytes.now }
{
    bytes.iter().all(|b| is_letter(*b))
}

/// Whether all bytes can stand in a name.
pub fn are_in_name(bytes: &[u8]) -> bool
    ensures { result ≡ list_all spec.is_in_name bytes.now }
{
    bytes.iter().all(|b| is_in_name(*b))
}
