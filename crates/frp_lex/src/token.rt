use frp_base::Text;

/// What a token is. `Name` has lower-case letters, digits and `_`, a letter first, and `Word` has letters, an upper-case one
/// first. `true` and `false` are names. `Str` is the value of a text in quotes, without its escapes.
#[derive(Drop, PartialEq)]
pub enum Kind {
    Left,
    Right,
    Name(Text),
    Word(Text),
    Num(i64),
    Str(Text),
}

/// A token, and the place of its first byte in the input, from 0.
#[derive(Drop, PartialEq)]
pub struct Token {
    pub at: u64,
    pub kind: Kind,
}
