//! A file as it is read: a type for each rule of the grammar, and what is lawful of a file's parts.
#![tactic(auto)]

mod file;
mod shape_copies;

pub use file::{
    Decl, File, Function, Give, Graph, Item, ItemForm, Listen, Param, RawSend, RawShape, Sender,
    ShapeForm, Template, copy_listens, copy_params, copy_senders,
};
