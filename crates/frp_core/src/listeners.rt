//! The listeners of a history.

ghost use Rattle.std.specs.Prelude.{◌≡◌, Some, IfOk, IfErr, option_map};
ghost use Rattle.std.specs.List.{list_any};
ghost use Rattle.std.specs.Option.{option_copied};
ghost use Rattle.frp_history.specs.History.{entry_at};
ghost use Rattle.frp_history.specs.Listeners.{key_eq, is_leave, joined_by, listener};
ghost use Rattle.frp_history.specs.Legal.{no_listener};

use frp_base::Name;
use frp_history::{Cmd, Entry, Key, No, Reply};

/// Who listens, and to which node.
#[derive(Clone, Copy)]
struct Held<'a> {
    caller: u32,
    node: &'a Name,
}

/// The node of the caller's listener with a key, or why there is none.
pub fn own_listener<'a>(entries: &'a [Entry], caller: u32, key: Key) -> Result<&'a Name, No>
    ensures held { IfOk result (λ node. listener entries.now key ≡ Some (record { caller = caller; node = node.now })) }
    ensures refused { IfErr result (λ no. no_listener caller (listener entries.now key) ≡ Some no) }
{
    match listener(entries, key) {
        Some(held) => {
            if held.caller == caller {
                Ok(held.node)
            } else {
                Err(No::NotYours)
            }
        }
        None => Err(No::UnknownListener),
    }
}

/// The listener that has a key.
fn listener<'a>(entries: &'a [Entry], key: Key) -> Option<Held<'a>>
    ensures { option_map (λ l. record { caller = l.caller; node = l.node.now }) result ≡ listener entries.now key }
{
    if has_left(entries, key) {
        return None;
    }
    match entry_at(entries, key.place) {
        Some(entry) => joined_by(entry, key),
        None => None,
    }
}

/// Whether a leave of a key was accepted.
fn has_left(entries: &[Entry], key: Key) -> bool
    ensures { result ≡ list_any (λ e. is_leave key e.cmd e.reply) entries.now }
{
    for entry in entries {
        if is_leave(entry, key) {
            return true;
        }
    }
    false
}

/// Whether an entry is an accepted leave of a key.
fn is_leave(entry: &Entry, key: Key) -> bool
    ensures { result ≡ is_leave key entry.now.cmd entry.now.reply }
{
    match &entry.cmd {
        Cmd::Leave { key: left } => match &entry.reply {
            Reply::Left(_) => is_key(*left, key),
            _ => false,
        },
        _ => false,
    }
}

/// The listener that an entry joined with a key.
fn joined_by<'a>(entry: &'a Entry, key: Key) -> Option<Held<'a>>
    ensures { option_map (λ l. record { caller = l.caller; node = l.node.now }) result ≡ joined_by key entry.now.caller entry.now.cmd entry.now.reply }
{
    match &entry.cmd {
        Cmd::Join { node } => match &entry.reply {
            Reply::Joined(given) => {
                if is_key(*given, key) {
                    Some(Held {
                        caller: entry.caller,
                        node,
                    })
                } else {
                    None
                }
            }
            _ => None,
        },
        _ => None,
    }
}

/// The entry at a place, from 1.
fn entry_at(entries: &[Entry], place: u64) -> Option<&Entry>
    ensures { option_copied result ≡ entry_at entries.now place }
{
    if place == 0 {
        return None;
    }
    entries.get(place as usize - 1)
}

/// Whether two keys are one.
fn is_key(key: Key, other: Key) -> bool
    ensures { result ≡ key_eq key other }
{
    key.slot == other.slot && key.place == other.place
}
