ghost use Rattle.std.specs.Prelude.{◌≡◌, ◌++◌, ◌<◌, ◌≤◌, min, IfOk, OnOk};
ghost use Rattle.std.specs.Fmt.{decimal};
ghost use Rattle.frp_gen.specs.Generated.{after_items, generated, graph_line, item_text, item_texts, items, listen_line};
ghost use Rattle.frp_gen.specs.declared.item.Item.TheVariants.{Map, Filter, Merge};
ghost use Rattle.frp_gen.specs.Generated.{send_texts, sender_line, sends, shape_text};

use crate::draws::Draws;
use crate::item::{Item, draw_item};
use frp_base::{Memory, Text};
use std::alloc::Global;

/// A graph file in canonical text, drawn from the state `start`: the sink `n0`, a cell that holds its last value, `count`
/// items `n1`, `n2`, .. over streams that stand before them, one listen to the last item, and one sender, which sends to
/// `n0` as often as there are items, but at most 50 times.
pub fn generate(alloc: Global, start: u64, count: u64) -> Result<Text, Memory>
    requires least { 1 ≤ count }
    requires most { count ≤ 4000 }
    ensures { IfOk result (λ t. t ≡ generated start count) }
{
    let mut draws = Draws { state: start };
    let mut out = Text::new(alloc);
    write_graph(alloc, count, &mut draws, &mut out)?;
    write_listen(alloc, count, &mut out)?;
    write_sender(alloc, count.min(50), &mut draws, &mut out)?;
    Ok(out)
}

/// Appends the line of a graph of `count` items.
fn write_graph(alloc: Global, count: u64, draws: &mut Draws, out: &mut Text) -> Result<(), Memory>
    requires { count ≤ 4000 }
    ensures state { OnOk result (draws.new.state ≡ after_items count draws.old.state) }
    ensures text { OnOk result (out.new ≡ out.old ++ graph_line (items count draws.old.state)) }
{
    out.push_str("(graph (sink n0 Int) (let c (hold 0 n0))")?;
    write_items(alloc, count, draws, out)?;
    out.push_str(")\n")
}

/// Draws the items 1 to `count`, and appends each with a space before it.
#[tactic(auto, unfolding(crate::specs::Generated::items, crate::specs::Generated::after_items))]
fn write_items(alloc: Global, count: u64, draws: &mut Draws, out: &mut Text) -> Result<(), Memory>
    requires { count ≤ 4000 }
    ensures state { OnOk result (draws.new.state ≡ after_items count draws.old.state) }
    ensures text { OnOk result (out.new ≡ out.old ++ item_texts 1 (items count draws.old.state)) }
{
    for i in 1..count + 1 {
        let item = draw_item(draws, i);
        write_item(alloc, i, &item, out)?;
    }
    Ok(())
}

/// Appends a space and the item of number `i`.
fn write_item(alloc: Global, i: u64, item: &Item, out: &mut Text) -> Result<(), Memory>
    ensures { OnOk result (out.new ≡ out.old ++ item_text i item.now) }
{
    write_around(alloc, " (let n", i, " ", out)?;
    write_shape(alloc, item, out)?;
    out.push_str(")")
}

/// Appends the shape of an item.
fn write_shape(alloc: Global, item: &Item, out: &mut Text) -> Result<(), Memory>
    ensures { OnOk result (out.new ≡ out.old ++ shape_text item.now) }
{
    match item {
        Item::Map { of, addend } => write_map(alloc, *of, *addend, out),
        Item::Filter { of, bound } => write_filter(alloc, *of, *bound, out),
        Item::Merge { left, right } => write_merge(alloc, *left, *right, out),
        Item::Snapshot { of } => write_around(alloc, "(snapshot x y n", *of, " c (add x y))", out),
        Item::Defer { of } => write_around(alloc, "(defer n", *of, ")", out),
    }
}

/// Appends a map that adds a number.
fn write_map(alloc: Global, of: u64, addend: u64, out: &mut Text) -> Result<(), Memory>
    ensures { OnOk result (out.new ≡ out.old ++ shape_text (Map of addend)) }
{
    write_around(alloc, "(map x n", of, " (add x ", out)?;
    write_number(alloc, addend, out)?;
    out.push_str("))")
}

/// Appends a filter by a bound.
fn write_filter(alloc: Global, of: u64, bound: u64, out: &mut Text) -> Result<(), Memory>
    ensures { OnOk result (out.new ≡ out.old ++ shape_text (Filter of bound)) }
{
    write_around(alloc, "(filter x n", of, " (lt x ", out)?;
    write_number(alloc, bound, out)?;
    out.push_str("))")
}

/// Appends a merge with the difference.
fn write_merge(alloc: Global, left: u64, right: u64, out: &mut Text) -> Result<(), Memory>
    ensures { OnOk result (out.new ≡ out.old ++ shape_text (Merge left right)) }
{
    write_around(alloc, "(merge x y n", left, " n", out)?;
    write_number(alloc, right, out)?;
    out.push_str(" (sub x y))")
}

/// Appends the line of the listen to the last of `count` items.
fn write_listen(alloc: Global, count: u64, out: &mut Text) -> Result<(), Memory>
    ensures { OnOk result (out.new ≡ out.old ++ listen_line count) }
{
    write_around(alloc, "(listen n", count, ")\n", out)
}

/// Appends the line of a sender of `n` sends.
fn write_sender(alloc: Global, n: u64, draws: &mut Draws, out: &mut Text) -> Result<(), Memory>
    ensures { OnOk result (out.new ≡ out.old ++ sender_line (sends n draws.old.state)) }
{
    out.push_str("(sender")?;
    write_sends(alloc, n, draws, out)?;
    out.push_str(")\n")
}

/// Draws `n` numbers below 1,000, and appends the send of each with a space before it.
#[tactic(auto, unfolding(crate::specs::Generated::sends))]
fn write_sends(alloc: Global, n: u64, draws: &mut Draws, out: &mut Text) -> Result<(), Memory>
    ensures { OnOk result (out.new ≡ out.old ++ send_texts (sends n draws.old.state)) }
{
    for _ in 0..n {
        let value = draws.below(1000);
        write_around(alloc, " (send n0 ", value, ")", out)?;
    }
    Ok(())
}

/// Appends a number in decimal, with what stands before and after it.
fn write_around(
    alloc: Global,
    before: &str,
    n: u64,
    after: &str,
    out: &mut Text,
) -> Result<(), Memory>
    ensures { OnOk result (out.new ≡ out.old ++ (before.now ++ decimal n ++ after.now)) }
{
    out.push_str(before)?;
    write_number(alloc, n, out)?;
    out.push_str(after)
}

/// Appends a number in decimal.
fn write_number(alloc: Global, n: u64, out: &mut Text) -> Result<(), Memory>
    ensures { OnOk result (out.new ≡ out.old ++ decimal n) }
{
    out.push_str(n.to_string(alloc)?.as_str())
}
