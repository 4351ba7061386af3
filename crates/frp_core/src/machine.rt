//! The core: a program with its history and its trace.

ghost use Rattle.std.specs.Prelude.{◌≡◌, ◌≤◌, [], IfOk, IsTrue, length};
ghost use Rattle.frp_core.specs.Core.{IsCore, join_reply};
ghost use Rattle.frp_core.specs.Small.{is_built};
ghost use Rattle.frp_graph.specs.Limits.{program_limits};
ghost use Rattle.frp_graph.specs.TypedProg.{IsTypedProg};
ghost use Rattle.frp_graph.specs.Trace.{node_in};
ghost use Rattle.frp_history.specs.Legal.{no_sink};

use crate::engine::settle;
use crate::fits::fits_node;
use crate::listeners::own_listener;
use crate::nodes::first_nodes;
use crate::stop::Stop;
use crate::windows::{node_in, window_of};
use frp_base::{Memory, Name, Seq, Time};
use frp_graph::{Fact, Limits, Moment, Node, Prog, Shape};
use frp_history::{Cmd, Entry, Key, No, Reply};
use std::alloc::Global;
use std::marker::Model;

/// A program, the history of the commands to it, and its trace. History and trace are legal together.
#[derive(Drop)]
pub struct Core {
    prog: Prog,
    entries: Seq<Entry>,
    trace: Seq<Moment>,
}

impl Model for Core {
    ghost use Rattle.frp_core.specs.Core.{State, IsCore, state_code};
    ghost use Rattle.frp_graph.specs.contracts.prog.Prog.{the_row as prog_row};
    ghost use Rattle.frp_graph.specs.contracts.trace.Moment.{the_row as moment_row};
    ghost use Rattle.frp_history.specs.contracts.history.Entry.{the_row as entry_row};

    ghost Value = { State };

    ghost coded = { state_code prog_row.coded entry_row.coded moment_row.coded };

    ghost view = { λ c. record { prog = c.prog; entries = c.entries; trace = c.trace } };

    ghost invariant = { λ c. IsCore (record { prog = c.prog; entries = c.entries; trace = c.trace }) };
}

impl Core {
    ghost use Rattle.std.specs.Prelude.{◌≡◌, ◌+◌, ◌≤◌, ◌==◌, ◌↔◌, ◌∷◌, ◌++◌, [], false, IfOk, OnOk, OnErr, IsTrue, Some, None, Err, length};
    ghost use Rattle.frp_history.specs.declared.history.Cmd.TheVariants as cmd;
    ghost use Rattle.frp_history.specs.declared.history.Reply.TheVariants as reply;
    ghost use Rattle.frp_graph.specs.Trace.{live, node_in};
    ghost use Rattle.frp_history.specs.Legal.{no_node, no_sink, no_listener, RefusedOr, IsNewKey, IsLegal};
    ghost use Rattle.frp_history.specs.Listeners.{listener, rest};
    ghost use Rattle.frp_graph.specs.TypedProg.{IsTypedProg};
    ghost use Rattle.frp_graph.specs.Limits.{program_limits};
    ghost use Rattle.frp_core.specs.Small.{is_built};
    ghost use Rattle.frp_core.specs.Core.{IsCore, IsPlain, IsQuiet, HasRoom, HasAnswered, join_reply, with_entry, with_moment};
    ghost use Rattle.frp_core.specs.declared.stop.Stop.TheVariants as stop;

    /// The core of a program after its build.
    pub fn build(alloc: Global, prog: Prog) -> Result<Core, Memory>
        requires typed { IsTypedProg prog }
        requires built { IsTrue (is_built prog) }
        requires few { length prog.body.lines ≤ program_limits.nodes }
        ensures program { IfOk result (λ c. c.prog ≡ prog) }
        ensures empty { IfOk result (λ c. c.entries ≡ []) }
    {
        let trace = first_trace(alloc, &prog)?;
        Ok(Core {
            prog,
            entries: Seq::new(alloc),
            trace,
        })
    }

    /// The history: an entry for each command, in order.
    pub fn entries(&self) -> &[Entry]
        ensures entries { result.now ≡ self.now.entries }
        ensures legal { IsLegal self.now.prog program_limits self.now.entries self.now.trace }
    {
        self.entries.as_slice()
    }

    /// The trace: the moments so far, in order.
    pub fn trace(&self) -> &[Moment]
        ensures trace { result.now ≡ self.now.trace }
        ensures legal { IsLegal self.now.prog program_limits self.now.entries self.now.trace }
    {
        self.trace.as_slice()
    }

    /// A listener of the caller joins a node: its key, or none where there is no live node of the name.
    pub fn join(&mut self, caller: u32, node: Name) -> Result<Option<Key>, Stop>
        ensures ok { IfOk result (λ key. self.new.entries ≡ self.old.entries ++ record { caller = caller; cmd = cmd.Join node; reply = join_reply key } ∷ []) }
        ensures program { self.new.prog ≡ self.old.prog }
        ensures trace { self.new.trace ≡ self.old.trace }
        ensures full { (result ≡ Err stop.HistoryFull) ↔ (length self.old.entries ≡ program_limits.entries) }
        ensures err { OnErr result (self.new ≡ self.old) }
    {
        if self.is_full() {
            return Err(Stop::HistoryFull);
        }
        Ok(self.enter_join(caller, node)?)
    }

    /// The caller sends a value to a node: one transaction, where it is a sink and the value is of its type, else a refusal.
    pub fn send(&mut self, alloc: Global, caller: u32, fact: Fact) -> Result<(), Stop>
        ensures ok { OnOk result (HasAnswered self.old self.new (record { caller = caller; cmd = cmd.Send fact.node fact.value })) }
        ensures program { self.new.prog ≡ self.old.prog }
        ensures full { (result ≡ Err stop.HistoryFull) ↔ (length self.old.entries ≡ program_limits.entries) }
        ensures err { OnErr result (self.new ≡ self.old) }
    {
        if self.is_full() {
            return Err(Stop::HistoryFull);
        }
        Ok(self.enter_send(alloc, caller, fact)?)
    }

    /// The caller's listener with this key leaves and is given all that is left for it, or the leave is refused.
    pub fn leave(&mut self, alloc: Global, caller: u32, key: Key) -> Result<(), Stop>
        ensures ok { OnOk result (HasAnswered self.old self.new (record { caller = caller; cmd = cmd.Leave key })) }
        ensures program { self.new.prog ≡ self.old.prog }
        ensures trace { self.new.trace ≡ self.old.trace }
        ensures full { (result ≡ Err stop.HistoryFull) ↔ (length self.old.entries ≡ program_limits.entries) }
        ensures err { OnErr result (self.new ≡ self.old) }
    {
        if self.is_full() {
            return Err(Stop::HistoryFull);
        }
        let reply = self.leave_reply(alloc, caller, key)?;
        Ok(self.enter(Entry {
            caller,
            cmd: Cmd::Leave { key },
            reply,
        })?)
    }

    /// Whether the history has as many entries as the limit.
    fn is_full(&self) -> bool
        ensures full { result ≡ (length self.now.entries == program_limits.entries) }
        ensures room { result ≡ false → HasRoom self.now }
    {
        self.entries().len() as u64 == Limits::program().entries
    }

    /// Enters a join.
    fn enter_join(&mut self, caller: u32, node: Name) -> Result<Option<Key>, Memory>
        requires { HasRoom self.old }
        ensures ok { IfOk result (λ key. self.new ≡ with_entry self.old (record { caller = caller; cmd = cmd.Join node; reply = join_reply key })) }
        ensures err { OnErr result (self.new ≡ self.old) }
    {
        let key = self.next_key(&node);
        self.enter(Entry {
            caller,
            cmd: Cmd::Join { node },
            reply: join_reply(key),
        })?;
        Ok(key)
    }

    /// The key of the next listener, where it joins this node and the node is live.
    fn next_key(&self, node: &Name) -> Option<Key>
        requires { HasRoom self.now }
        ensures reply { RefusedOr (no_node (node_in (live self.now.trace) node.now)) (IsNewKey self.now.entries (length self.now.entries + 1)) (join_reply result) }
        ensures plain { IsPlain (join_reply result) }
    {
        let place = self.entries.as_slice().len() as u64 + 1;
        match node_in(self.nodes(), node) {
            Some(_) => Some(Key { slot: place, place }),
            None => None,
        }
    }

    /// Enters a send.
    fn enter_send(&mut self, alloc: Global, caller: u32, fact: Fact) -> Result<(), Memory>
        requires { HasRoom self.old }
        ensures ok { OnOk result (HasAnswered self.old self.new (record { caller = caller; cmd = cmd.Send fact.node fact.value })) }
        ensures program { self.new.prog ≡ self.old.prog }
        ensures err { OnErr result (self.new ≡ self.old) }
    {
        match self.refusal(&fact) {
            Some(no) => {
                let Fact { node, value } = fact;
                self.enter(Entry {
                    caller,
                    cmd: Cmd::Send { sink: node, value },
                    reply: Reply::Refused(no),
                })
            }
            None => self.accept(alloc, caller, fact),
        }
    }

    /// Why a send is refused before anything is done, if it is.
    fn refusal(&self, fact: &Fact) -> Option<No>
        ensures { result ≡ no_sink self.now.prog (node_in (live self.now.trace)) fact.now.value (node_in (live self.now.trace) fact.now.node) }
    {
        refusal(&self.prog, self.nodes(), fact)
    }

    /// A value of its type is sent to a sink: one transaction of one moment.
    fn accept(&mut self, alloc: Global, caller: u32, fact: Fact) -> Result<(), Memory>
        requires room { HasRoom self.old }
        requires sink { no_sink self.old.prog (node_in (live self.old.trace)) fact.value (node_in (live self.old.trace) fact.node) ≡ None }
        ensures ok { OnOk result (HasAnswered self.old self.new (record { caller = caller; cmd = cmd.Send fact.node fact.value })) }
        ensures program { self.new.prog ≡ self.old.prog }
        ensures err { OnErr result (self.new ≡ self.old) }
    {
        let place = self.entries.as_slice().len() as u64 + 1;
        let fired = settle(alloc, &self.prog, self.nodes(), place, Some(&fact))?;
        let moment = Moment {
            time: Time::top(alloc, place),
            born: Seq::new(alloc),
            fired,
        };
        let Fact { node, value } = fact;
        self.enter_moment(
            Entry {
                caller,
                cmd: Cmd::Send { sink: node, value },
                reply: Reply::Accepted { moments: 1 },
            },
            moment,
        )
    }

    /// The reply to a leave.
    fn leave_reply(&self, alloc: Global, caller: u32, key: Key) -> Result<Reply, Memory>
        ensures reply { IfOk result (RefusedOr (no_listener caller (listener self.now.entries key)) (λ r. r ≡ reply.Left (rest self.now.trace self.now.entries key))) }
        ensures plain { IfOk result IsPlain }
    {
        match own_listener(self.entries.as_slice(), caller, key) {
            Ok(node) => {
                let items = window_of(alloc, self.trace.as_slice(), node, key.place)?;
                Ok(Reply::Left(items))
            }
            Err(no) => Ok(Reply::Refused(no)),
        }
    }

    /// Adds an entry that sends nothing.
    fn enter(&mut self, entry: Entry) -> Result<(), Memory>
        requires room { HasRoom self.old }
        requires quiet { IsQuiet self.old entry }
        ensures ok { OnOk result (self.new ≡ with_entry self.old entry) }
        ensures err { OnErr result (self.new ≡ self.old) }
    {
        self.entries.add(entry)?;
        Ok(())
    }

    /// Adds an entry and the moment of its transaction.
    fn enter_moment(&mut self, entry: Entry, moment: Moment) -> Result<(), Memory>
        requires { IsCore (with_moment self.old entry moment) }
        ensures ok { OnOk result (self.new ≡ with_moment self.old entry moment) }
        ensures err { OnErr result (self.new ≡ self.old) }
    {
        self.trace.add(moment)?;
        if self.entries.add(entry).is_ok() {
            return Ok(());
        }
        let _ = self.trace.pop();
        Err(Memory)
    }

    /// The live nodes, in the order of the items.
    fn nodes(&self) -> &[Node]
        ensures { result.now ≡ live self.now.trace }
    {
        match self.trace.as_slice().first() {
            Some(moment) => moment.born.as_slice(),
            None => unreachable!(),
        }
    }
}

/// The reply to a join that was given this key, if any.
fn join_reply(key: Option<Key>) -> Reply
    ensures { result ≡ join_reply key }
{
    match key {
        Some(key) => Reply::Joined(key),
        None => Reply::Refused(No::UnknownNode),
    }
}

/// The trace of a program after its build: the one moment in which its nodes are born.
fn first_trace(alloc: Global, prog: &Prog) -> Result<Seq<Moment>, Memory>
    requires typed { IsTypedProg prog.now }
    requires built { IsTrue (is_built prog.now) }
    requires few { length prog.now.body.lines ≤ program_limits.nodes }
    ensures { IfOk result (λ t. IsCore (record { prog = prog.now; entries = []; trace = t })) }
{
    let nodes = first_nodes(alloc, prog)?;
    let fired = settle(alloc, prog, nodes.as_slice(), 0, None)?;
    let mut trace = Seq::new(alloc);
    trace.add(Moment {
        time: Time::top(alloc, 0),
        born: nodes,
        fired,
    })?;
    Ok(trace)
}

/// Why a send is refused before anything is done, if it is.
fn refusal(prog: &Prog, nodes: &[Node], fact: &Fact) -> Option<No>
    ensures { result ≡ no_sink prog.now (node_in nodes.now) fact.now.value (node_in nodes.now fact.now.node) }
{
    match node_in(nodes, &fact.node) {
        Some(node) => match &node.shape {
            Shape::Sink => {
                if fits_node(prog, nodes, &node.ty, &fact.value) {
                    None
                } else {
                    Some(No::WrongType)
                }
            }
            _ => Some(No::UnknownSink),
        },
        None => Some(No::UnknownSink),
    }
}
