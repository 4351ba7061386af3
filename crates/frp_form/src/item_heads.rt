//! The words that items and declarations begin with.

ghost use Rattle.std.specs.Prelude.{◌≡◌};
ghost use Rattle.frp_form.specs.Items as items;
ghost use Rattle.frp_form.specs.Decls as decls;

/// The head of an item.
#[derive(Clone, Copy)]
pub enum ItemHead {
    Sink,
    Cellsink,
    Let,
    Tie,
    Get,
}

/// The head of a declaration of the graph.
#[derive(Clone, Copy)]
pub enum DeclHead {
    Template,
    Function,
    Item(ItemHead),
}

/// What a head word of items means in the body of a template.
pub fn body_head(word: &str) -> Option<ItemHead>
    ensures { result ≡ items.body_head word.now }
{
    if word == "let" {
        Some(ItemHead::Let)
    } else if word == "tie" {
        Some(ItemHead::Tie)
    } else if word == "get" {
        Some(ItemHead::Get)
    } else {
        None
    }
}

/// What a head word of declarations means.
pub fn decl_head(word: &str) -> Option<DeclHead>
    ensures { result ≡ decls.decl_head word.now }
{
    if word == "template" {
        Some(DeclHead::Template)
    } else if word == "fun" {
        Some(DeclHead::Function)
    } else if word == "sink" {
        Some(DeclHead::Item(ItemHead::Sink))
    } else if word == "cellsink" {
        Some(DeclHead::Item(ItemHead::Cellsink))
    } else if word == "let" {
        Some(DeclHead::Item(ItemHead::Let))
    } else if word == "tie" {
        Some(DeclHead::Item(ItemHead::Tie))
    } else {
        None
    }
}
