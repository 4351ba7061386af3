ghost use Rattle.std.specs.Prelude.{◌≡◌, ◌<◌};
ghost use Rattle.frp_gen.specs.Generated.{drawn_item, item_of_kind};

use crate::draws::Draws;

/// An item of the graph. A stream is named by its number, and stands before the item.
#[derive(Drop)]
pub enum Item {
    /// The values of a stream, with a number added.
    Map { of: u64, addend: u64 },
    /// The values of a stream that are less than a bound.
    Filter { of: u64, bound: u64 },
    /// Two streams, with their difference where both fire.
    Merge { left: u64, right: u64 },
    /// The values of a stream, each with what the graph's cell holds added.
    Snapshot { of: u64 },
    /// The values of a stream, each at a child time.
    Defer { of: u64 },
}

/// Draws the item of number `i`, from 1: its kind, a stream before it, and what the kind wants.
#[tactic(auto, unfolding(crate::specs::Generated::drawn_item))]
pub fn draw_item(draws: &mut Draws, i: u64) -> Item
    requires { 0 < i }
    ensures state { draws.new.state ≡ (drawn_item i draws.old.state).0 }
    ensures item { result ≡ (drawn_item i draws.old.state).1 }
{
    let kind = draws.below(5);
    let of = draws.below(i);
    draw_of_kind(draws, kind, i, of)
}

/// Draws what the item of number `i` wants further by its kind.
fn draw_of_kind(draws: &mut Draws, kind: u64, i: u64, of: u64) -> Item
    requires { 0 < i }
    ensures state { draws.new.state ≡ (item_of_kind kind i of draws.old.state).0 }
    ensures item { result ≡ (item_of_kind kind i of draws.old.state).1 }
{
    match kind {
        0 => Item::Map {
            of,
            addend: draws.below(100),
        },
        1 => Item::Filter {
            of,
            bound: draws.below(1000),
        },
        2 => Item::Merge {
            left: of,
            right: draws.below(i),
        },
        3 => Item::Snapshot { of },
        _ => Item::Defer { of },
    }
}
