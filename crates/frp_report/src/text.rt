ghost use Rattle.std.specs.Prelude.{◌≡◌, ◌++◌, IfOk, OnOk};
ghost use Rattle.std.specs.Fmt.{decimal};
ghost use Rattle.frp_report.specs.Report.{report_text, entry_lines, entry_line, cmd_text, reply_text, sent_lines, sent_line, send_lines, refusal_text, chain_text, phase_text, names_text, given_lines, delivered_lines, item_line, moment_lines, moment_line, born_lines, born_line, shape_text, first_text, fact_lines, fact_line, end_line};

use frp_base::{Memory, Name, Text, Val};
use frp_graph::{Fact, Moment, Node, Phase, Shape, Why};
use frp_history::{Cmd, Delivered, Entry, No, Reply};
use std::alloc::Global;

#[cfg(test)]
mod tests;

/// The report of a history and a trace: the entries by place, each with its reply, then the moments by time, each with
/// its born nodes and its facts, and a last line with the number of entries.
pub fn report(alloc: Global, entries: &[Entry], trace: &[Moment]) -> Result<Text, Memory>
    ensures { IfOk result (λ t. t ≡ report_text entries.now trace.now) }
{
    let mut out = Text::new(alloc);
    show_entries(alloc, entries, &mut out)?;
    show_moments(alloc, trace, &mut out)?;
    show_end(alloc, entries.len() as u64, &mut out)?;
    Ok(out)
}

/// Appends the entries, the first at place 1, each with the sends of a group and with the items that it gave.
fn show_entries(alloc: Global, entries: &[Entry], out: &mut Text) -> Result<(), Memory>
    ensures { OnOk result (out.new ≡ out.old ++ entry_lines 1 entries.now) }
{
    for (i, entry) in entries.iter().enumerate() {
        show_entry(alloc, i as u64 + 1, entry, out)?;
        show_sent(alloc, &entry.cmd, out)?;
        show_given(alloc, &entry.reply, out)?;
    }
    Ok(())
}

/// Appends the line of the entry at a place.
fn show_entry(alloc: Global, place: u64, entry: &Entry, out: &mut Text) -> Result<(), Memory>
    ensures { OnOk result (out.new ≡ out.old ++ entry_line place entry.now) }
{
    show_number(alloc, place, out)?;
    out.push_str(" ")?;
    show_number(alloc, u64::from(entry.caller), out)?;
    out.push_str(" ")?;
    show_cmd(alloc, &entry.cmd, out)?;
    out.push_str(" ")?;
    show_reply(alloc, &entry.reply, out)?;
    out.push_str("\n")
}

/// Appends a command.
fn show_cmd(alloc: Global, cmd: &Cmd, out: &mut Text) -> Result<(), Memory>
    ensures { OnOk result (out.new ≡ out.old ++ cmd_text cmd.now) }
{
    match cmd {
        Cmd::Send { sink, value } => {
            out.push_str("send ")?;
            sink.show(out)?;
            out.push_str(" ")?;
            value.show(alloc, out)
        }
        Cmd::Group { sends } => {
            out.push_str("group ")?;
            show_number(alloc, sends.as_slice().len() as u64, out)
        }
        Cmd::Join { node } => {
            out.push_str("join ")?;
            node.show(out)
        }
        Cmd::Take { key, max } => {
            out.push_str("take ")?;
            show_number(alloc, key.place, out)?;
            out.push_str(" ")?;
            show_number(alloc, *max, out)
        }
        Cmd::Leave { key } => {
            out.push_str("leave ")?;
            show_number(alloc, key.place, out)
        }
    }
}

/// Appends the lines below a group's line: its sends.
fn show_sent(alloc: Global, cmd: &Cmd, out: &mut Text) -> Result<(), Memory>
    ensures { OnOk result (out.new ≡ out.old ++ sent_lines cmd.now) }
{
    match cmd {
        Cmd::Group { sends } => show_sends(alloc, sends.as_slice(), out),
        Cmd::Send { .. } | Cmd::Join { .. } | Cmd::Take { .. } | Cmd::Leave { .. } => Ok(()),
    }
}

/// Appends the lines of sends.
fn show_sends(alloc: Global, sends: &[Fact], out: &mut Text) -> Result<(), Memory>
    ensures { OnOk result (out.new ≡ out.old ++ send_lines sends.now) }
{
    for fact in sends {
        show_send(alloc, fact, out)?;
    }
    Ok(())
}

/// Appends the line of a send of a group: its sink and its value.
fn show_send(alloc: Global, fact: &Fact, out: &mut Text) -> Result<(), Memory>
    ensures { OnOk result (out.new ≡ out.old ++ sent_line fact.now) }
{
    out.push_str("  send ")?;
    fact.node.show(out)?;
    out.push_str(" ")?;
    fact.value.show(alloc, out)?;
    out.push_str("\n")
}

/// Appends what a reply adds to its entry's line.
fn show_reply(alloc: Global, reply: &Reply, out: &mut Text) -> Result<(), Memory>
    ensures { OnOk result (out.new ≡ out.old ++ reply_text reply.now) }
{
    match reply {
        Reply::Accepted { moments } => {
            out.push_str("accepted ")?;
            show_number(alloc, *moments, out)
        }
        Reply::Refused(refusal) => show_refusal(refusal, out),
        Reply::Joined(key) => {
            out.push_str("key ")?;
            show_number(alloc, key.place, out)
        }
        Reply::Given(items) => {
            out.push_str("gave ")?;
            show_number(alloc, items.as_slice().len() as u64, out)
        }
        Reply::Left(items) => {
            out.push_str("gave ")?;
            show_number(alloc, items.as_slice().len() as u64, out)
        }
    }
}

/// Appends a refusal: its number, and the chain of a cyclic one.
fn show_refusal(refusal: &No, out: &mut Text) -> Result<(), Memory>
    ensures { OnOk result (out.new ≡ out.old ++ refusal_text refusal.now) }
{
    match refusal {
        No::UnknownSink => out.push_str("refused 1"),
        No::WrongType => out.push_str("refused 2"),
        No::Cyclic(evidence) => {
            out.push_str("refused 3")?;
            show_chain(&evidence.why, out)
        }
        No::Endless(_) => out.push_str("refused 4"),
        No::Full(_) => out.push_str("refused 5"),
        No::UnknownNode => out.push_str("refused 6"),
        No::UnknownListener => out.push_str("refused 7"),
        No::NotYours => out.push_str("refused 8"),
        No::Twice(_) => out.push_str("refused 10"),
    }
}

/// Appends a space and a closed chain: its phase and its names.
fn show_chain(why: &Why, out: &mut Text) -> Result<(), Memory>
    ensures { OnOk result (out.new ≡ out.old ++ chain_text why.now) }
{
    if let Why::Chain { phase, names } = why {
        out.push_str(" ")?;
        out.push_str(phase_word(*phase))?;
        show_names(names.as_slice(), out)
    } else {
        Ok(())
    }
}

/// The word of a phase.
fn phase_word(phase: Phase) -> &'static str
    ensures { result.now ≡ phase_text phase }
{
    match phase {
        Phase::Birth => "birth",
        Phase::During => "during",
        Phase::After => "after",
    }
}

/// Appends names, each with a space before it.
fn show_names(names: &[Name], out: &mut Text) -> Result<(), Memory>
    ensures { OnOk result (out.new ≡ out.old ++ names_text names.now) }
{
    for name in names {
        out.push_str(" ")?;
        name.show(out)?;
    }
    Ok(())
}

/// Appends the lines below an entry's line: the items that a listener was given.
fn show_given(alloc: Global, reply: &Reply, out: &mut Text) -> Result<(), Memory>
    ensures { OnOk result (out.new ≡ out.old ++ given_lines reply.now) }
{
    match reply {
        Reply::Given(items) => show_items(alloc, items.as_slice(), out),
        Reply::Left(items) => show_items(alloc, items.as_slice(), out),
        _ => Ok(()),
    }
}

/// Appends the lines of items that a listener was given.
fn show_items(alloc: Global, items: &[Delivered], out: &mut Text) -> Result<(), Memory>
    ensures { OnOk result (out.new ≡ out.old ++ delivered_lines items.now) }
{
    for item in items {
        show_item(alloc, item, out)?;
    }
    Ok(())
}

/// Appends the line of an item: its time and its value.
fn show_item(alloc: Global, item: &Delivered, out: &mut Text) -> Result<(), Memory>
    ensures { OnOk result (out.new ≡ out.old ++ item_line item.now) }
{
    out.push_str("  ")?;
    item.time.show(out)?;
    out.push_str(" ")?;
    item.value.show(alloc, out)?;
    out.push_str("\n")
}

/// Appends the moments, each with its born nodes and its facts.
fn show_moments(alloc: Global, trace: &[Moment], out: &mut Text) -> Result<(), Memory>
    ensures { OnOk result (out.new ≡ out.old ++ moment_lines trace.now) }
{
    for moment in trace {
        show_moment(alloc, moment, out)?;
        show_births(alloc, moment.born.as_slice(), out)?;
        show_facts(alloc, moment.fired.as_slice(), out)?;
    }
    Ok(())
}

/// Appends the line of a moment: its time, and how many nodes were born and fired.
fn show_moment(alloc: Global, moment: &Moment, out: &mut Text) -> Result<(), Memory>
    ensures { OnOk result (out.new ≡ out.old ++ moment_line moment.now) }
{
    out.push_str("at ")?;
    moment.time.show(out)?;
    out.push_str(" born ")?;
    show_number(alloc, moment.born.as_slice().len() as u64, out)?;
    out.push_str(" fired ")?;
    show_number(alloc, moment.fired.as_slice().len() as u64, out)?;
    out.push_str("\n")
}

/// Appends the lines of born nodes.
fn show_births(alloc: Global, nodes: &[Node], out: &mut Text) -> Result<(), Memory>
    ensures { OnOk result (out.new ≡ out.old ++ born_lines nodes.now) }
{
    for node in nodes {
        show_birth(alloc, node, out)?;
    }
    Ok(())
}

/// Appends the line of a born node: its name, its shape, and its first value where it has one.
fn show_birth(alloc: Global, node: &Node, out: &mut Text) -> Result<(), Memory>
    ensures { OnOk result (out.new ≡ out.old ++ born_line node.now) }
{
    out.push_str("  + ")?;
    node.name.show(out)?;
    out.push_str(" ")?;
    out.push_str(shape_word(&node.shape))?;
    show_first(alloc, &node.first, out)?;
    out.push_str("\n")
}

/// The word of a shape.
fn shape_word(shape: &Shape) -> &'static str
    ensures { result.now ≡ shape_text shape.now }
{
    match shape {
        Shape::Sink => "sink",
        Shape::Never => "never",
        Shape::Constant => "constant",
        Shape::Map { .. } => "map",
        Shape::Filter { .. } => "filter",
        Shape::Filteropt { .. } => "filteropt",
        Shape::Merge { .. } => "merge",
        Shape::Snapshot { .. } => "snapshot",
        Shape::Split { .. } => "split",
        Shape::Updates { .. } => "updates",
        Shape::Value { .. } => "value",
        Shape::Loop { .. } => "loop",
        Shape::Hold { .. } => "hold",
        Shape::Mapc { .. } => "mapc",
        Shape::Apply { .. } => "apply",
        Shape::Switchs { .. } => "switchs",
        Shape::Switchc { .. } => "switchc",
        Shape::Execute { .. } => "execute",
    }
}

/// Appends a space and the first value of a node, where it has one.
fn show_first(alloc: Global, first: &Option<Val>, out: &mut Text) -> Result<(), Memory>
    ensures { OnOk result (out.new ≡ out.old ++ first_text first.now) }
{
    match first {
        Some(value) => {
            out.push_str(" ")?;
            value.show(alloc, out)
        }
        None => Ok(()),
    }
}

/// Appends the lines of facts.
fn show_facts(alloc: Global, facts: &[Fact], out: &mut Text) -> Result<(), Memory>
    ensures { OnOk result (out.new ≡ out.old ++ fact_lines facts.now) }
{
    for fact in facts {
        show_fact(alloc, fact, out)?;
    }
    Ok(())
}

/// Appends the line of a fact: the node that fired, and its value.
fn show_fact(alloc: Global, fact: &Fact, out: &mut Text) -> Result<(), Memory>
    ensures { OnOk result (out.new ≡ out.old ++ fact_line fact.now) }
{
    out.push_str("  ")?;
    fact.node.show(out)?;
    out.push_str(" ")?;
    fact.value.show(alloc, out)?;
    out.push_str("\n")
}

/// Appends the last line, with the number of entries.
fn show_end(alloc: Global, count: u64, out: &mut Text) -> Result<(), Memory>
    ensures { OnOk result (out.new ≡ out.old ++ end_line count) }
{
    out.push_str("end ")?;
    show_number(alloc, count, out)?;
    out.push_str("\n")
}

/// Appends a number in decimal.
fn show_number(alloc: Global, n: u64, out: &mut Text) -> Result<(), Memory>
    ensures { OnOk result (out.new ≡ out.old ++ decimal n) }
{
    out.push_str(n.to_string(alloc)?.as_str())
}
