//! Files.

ghost use Rattle.std.specs.Prelude.{◌≡◌};
ghost use Rattle.std.specs.Option.{option_copied};
ghost use Rattle.frp_form.specs.Gives.{FormGives};
ghost use Rattle.frp_form.specs.File as spec;

use crate::decls::decl;
use crate::exprs::whole_expr;
use crate::fault::{FormKind, FormStop};
use crate::lists::{Rule, items, many};
use crate::over::Over;
use crate::reading::Reading;
use crate::tokens::{after_right, begins, opened, right, spot};
use frp_base::Seq;
use frp_file::{Decl, File, Graph, Listen, RawSend, Sender};
use frp_lex::Token;
use std::alloc::Global;

impl Rule for Decl {
    ghost use Rattle.frp_form.specs.Tokens.{after_right as ends};
    ghost use Rattle.frp_form.specs.Decls.{decl as one};

    ghost ending = { ends };

    ghost reading = { one };

    fn end(tokens: &[Token]) -> Option<&[Token]> {
        after_right(tokens)
    }

    fn item(alloc: Global, end: u64, tokens: &[Token]) -> Result<(Decl, &[Token]), FormStop> {
        decl(alloc, end, tokens)
    }
}

impl Rule for Listen {
    ghost use Rattle.frp_form.specs.File.{after_listens as ends, listen as one};

    ghost ending = { ends };

    ghost reading = { one };

    fn end(tokens: &[Token]) -> Option<&[Token]> {
        after_listens(tokens)
    }

    fn item(alloc: Global, end: u64, tokens: &[Token]) -> Result<(Listen, &[Token]), FormStop> {
        listen(end, tokens)
    }
}

impl Rule for RawSend {
    ghost use Rattle.frp_form.specs.Tokens.{after_right as ends};
    ghost use Rattle.frp_form.specs.File.{send as one};

    ghost ending = { ends };

    ghost reading = { one };

    fn end(tokens: &[Token]) -> Option<&[Token]> {
        after_right(tokens)
    }

    fn item(alloc: Global, end: u64, tokens: &[Token]) -> Result<(RawSend, &[Token]), FormStop> {
        send(alloc, end, tokens)
    }
}

impl Rule for Sender {
    ghost use Rattle.frp_form.specs.File.{at_end as ends, sender as one};

    ghost ending = { ends };

    ghost reading = { one };

    fn end(tokens: &[Token]) -> Option<&[Token]> {
        at_end(tokens)
    }

    fn item(alloc: Global, end: u64, tokens: &[Token]) -> Result<(Sender, &[Token]), FormStop> {
        sender(alloc, end, tokens)
    }
}

/// The listens end where no listen begins.
fn after_listens(tokens: &[Token]) -> Option<&[Token]>
    ensures { option_copied result ≡ spec.after_listens tokens.now }
{
    if begins("listen", tokens) {
        None
    } else {
        Some(tokens)
    }
}

/// The senders end where the input does.
fn at_end(tokens: &[Token]) -> Option<&[Token]>
    ensures { option_copied result ≡ spec.at_end tokens.now }
{
    match tokens {
        [] => Some(tokens),
        _ => None,
    }
}

/// The graph.
#[tactic(auto, unfolding(crate::specs::File::graph))]
fn graph(alloc: Global, end: u64, tokens: &[Token]) -> Result<(Graph, &[Token]), FormStop>
    ensures { FormGives (λ x. (x.0, x.1.now)) result (spec.graph end tokens.now) }
{
    let (at, rest) = opened(end, "graph", tokens)?;
    let (decls, rest) = many(alloc, end, rest)?;
    Ok((Graph { at, decls }, rest))
}

/// A listen.
#[tactic(auto, unfolding(crate::specs::File::listen))]
fn listen(end: u64, tokens: &[Token]) -> Result<(Listen, &[Token]), FormStop>
    ensures { FormGives (λ x. (x.0, x.1.now)) result (spec.listen end tokens.now) }
{
    let (at, rest) = opened(end, "listen", tokens)?;
    let (name, rest) = spot(end, rest)?;
    let rest = right(end, rest)?;
    Ok((Listen { at, name }, rest))
}

/// A send.
#[tactic(auto, unfolding(crate::specs::File::send))]
fn send(alloc: Global, end: u64, tokens: &[Token]) -> Result<(RawSend, &[Token]), FormStop>
    ensures { FormGives (λ x. (x.0, x.1.now)) result (spec.send end tokens.now) }
{
    let (at, rest) = opened(end, "send", tokens)?;
    let (name, rest) = spot(end, rest)?;
    let (value, rest) = whole_expr(alloc, end, rest)?;
    let rest = right(end, rest)?;
    let send = RawSend { at, name, value };
    Ok((send, rest))
}

/// The most sends of a sender.
const SENDS: usize = 4096;

/// The sends of a sender and a right parenthesis.
#[tactic(auto, unfolding(crate::specs::File::sends))]
fn sends(alloc: Global, end: u64, tokens: &[Token]) -> Result<(Seq<RawSend>, &[Token]), FormStop>
    ensures { FormGives (λ x. (x.0, x.1.now)) result (spec.sends end tokens.now) }
{
    items(alloc, end, SENDS, Over::Send, tokens)
}

/// A sender.
#[tactic(auto, unfolding(crate::specs::File::sender))]
fn sender(alloc: Global, end: u64, tokens: &[Token]) -> Result<(Sender, &[Token]), FormStop>
    ensures { FormGives (λ x. (x.0, x.1.now)) result (spec.sender end tokens.now) }
{
    let (at, rest) = opened(end, "sender", tokens)?;
    let (sends, rest) = sends(alloc, end, rest)?;
    Ok((Sender { at, sends }, rest))
}

/// The most senders of a file.
const SENDERS: usize = 16;

/// The senders, up to the end of the input.
#[tactic(auto, unfolding(crate::specs::File::senders))]
fn senders(
    alloc: Global,
    end: u64,
    how: Reading,
    tokens: &[Token],
) -> Result<(Seq<Sender>, &[Token]), FormStop>
    ensures { FormGives (λ x. (x.0, x.1.now)) result (spec.senders end how tokens.now) }
{
    if how.one_sender {
        items(alloc, end, 1, Over::Sender(FormKind::Senders), tokens)
    } else {
        items(alloc, end, SENDERS, Over::Sender(FormKind::Many), tokens)
    }
}

/// The file that the tokens of an input are, or their first fault. `length` is the input's length in bytes, the place of what
/// is missing where it ends too early. The tokens may be any, and it needs no deep stack: nothing is read at a seventeenth
/// level of a type or an expression.
#[tactic(auto, unfolding(crate::specs::File::file_of))]
pub fn read(alloc: Global, tokens: &[Token], length: u64, how: Reading) -> Result<File, FormStop>
    ensures { FormGives (λ x. x) result (spec.file_of length how tokens.now) }
{
    let (graph, rest) = graph(alloc, length, tokens)?;
    let (listens, rest) = many(alloc, length, rest)?;
    let (senders, _) = senders(alloc, length, how, rest)?;
    Ok(File {
        graph,
        listens,
        senders,
    })
}
