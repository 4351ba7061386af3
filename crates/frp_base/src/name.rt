ghost use Rattle.std.specs.Prelude.{◌≡◌, ◌↔◌, ◌++◌, IsTrue, IfOk, OnOk, OnErr};

use crate::memory::Memory;
use crate::seq::Seq;
use crate::text::Text;
use crate::time::Time;
use std::alloc::Global;
use std::cmp::Ordering;
use std::marker::Model;
use std::sync::Arc;

/// A stage of a name: the time at which an item made a node, and the item's number in its body, from 0.
#[derive(Drop, PartialEq, Eq, PartialOrd, Ord)]
pub struct Stage {
    pub time: Time,
    pub item: u64,
}

impl Stage {
    /// A stage of the same time and item.
    pub fn copy(&self) -> Result<Stage, Memory>
        ensures { IfOk result (λ s. s ≡ self.now) }
    {
        Ok(Stage {
            time: self.time.copy()?,
            item: self.item,
        })
    }

    fn is(&self, other: &Stage) -> bool
        ensures { IsTrue result ↔ (self.now ≡ other.now) }
    {
        *self == *other
    }
}

/// The name of a node: a list of one stage or more. The last stage's time is the node's birth, and the stages before
/// it name the node that made it. Names are ordered as lists are, a beginning first. A name and its copies share the stages, so
/// a copy takes no memory of its own.
#[derive(Drop)]
pub struct Name {
    stages: Arc<Seq<Stage>, Global>,
}

impl Model for Name {
    ghost use Rattle.std.specs.Prelude.{List, length, ◌<◌};
    ghost use Rattle.frp_base.specs.declared.name.Stage.{Stage};

    ghost Value = { List Stage };

    ghost use Rattle.std.specs.Arc.{arc_value};

    ghost view = { λ n. arc_value n.stages };

    ghost invariant = { λ n. 0 < length (arc_value n.stages) };
}

impl Name {
    ghost use Rattle.frp_base.specs.Name.{name_eq, name_text, declared_name, made_name, item_of, birth, maker};

    /// The name of item `item` of a file, counted from 0: it is born at the time of the build.
    pub fn declared(alloc: Global, item: u64) -> Result<Name, Memory>
        ensures { IfOk result (λ n. n ≡ declared_name item) }
    {
        let mut stages = Seq::new(alloc);
        stages.add(Stage {
            time: Time::top(alloc, 0),
            item,
        })?;
        Ok(Name {
            stages: Arc::new(alloc, stages)?,
        })
    }

    /// The number of the file's item with which the name begins. It takes no memory.
    pub fn item(&self) -> u64
        ensures { result ≡ item_of self.now }
    {
        self.stages.as_slice()[0].item
    }

    /// A name of the same stages. It wants memory only where there are 2^63 copies.
    pub fn copy(&self) -> Result<Name, Memory>
        ensures { IfOk result (λ n. n ≡ self.now) }
    {
        Ok(Name {
            stages: Arc::try_clone(&self.stages)?,
        })
    }

    /// The name of the node that item `item` of this node's body, counted from 0, makes at `time`: one stage more.
    pub fn made(&self, time: &Time, item: u64) -> Result<Name, Memory>
        ensures { IfOk result (λ n. n ≡ made_name self.now time.now item) }
    {
        let alloc = self.stages.allocator();
        let mut stages = copy_all(alloc, self.stages.as_slice())?;
        stages.add(Stage {
            time: time.copy()?,
            item,
        })?;
        Ok(Name {
            stages: Arc::new(alloc, stages)?,
        })
    }

    /// When the node was born: the time of the last stage. It takes no memory.
    pub fn birth(&self) -> &Time
        ensures { result.now ≡ birth self.now }
    {
        let stages = self.stages.as_slice();
        &stages[stages.len() - 1].time
    }

    /// The name of the node that made this one: all its stages but the last. An item of the file has none.
    #[tactic(auto, using(crate::proofs::NameLemmas::maker_none, crate::proofs::NameLemmas::maker_taken))]
    pub fn maker(&self) -> Result<Option<Name>, Memory>
        ensures { IfOk result (λ r. r ≡ maker self.now) }
    {
        let stages = self.stages.as_slice();
        let before = stages.len() - 1;
        if before == 0 {
            return Ok(None);
        }
        let alloc = self.stages.allocator();
        let stages = copy_all(alloc, &stages[..before])?;
        Ok(Some(Name {
            stages: Arc::new(alloc, stages)?,
        }))
    }

    /// Whether two names are one. It takes no memory.
    pub fn is(&self, other: &Name) -> bool
        ensures same { IsTrue result ↔ (self.now ≡ other.now) }
        ensures test { result ≡ name_eq self.now other.now }
    {
        self.same(other)
    }

    fn same(&self, other: &Name) -> bool
        ensures { IsTrue result ↔ (self.now ≡ other.now) }
    {
        all_are(self.stages.as_slice(), other.stages.as_slice())
    }

    /// Appends the text of the name, as `#2` for an item of the file and `#2/[3].0` for a node that it made. Where memory is
    /// wanting, the text is as before.
    pub fn show(&self, out: &mut Text) -> Result<(), Memory>
        ensures ok { OnOk result (out.new ≡ out.old ++ name_text self.now) }
        ensures err { OnErr result (out.new ≡ out.old) }
    {
        let mut text = Text::new(self.stages.allocator());
        self.write(&mut text)?;
        out.push_str(text.as_str())
    }

    /// Appends the text of the name, piece by piece.
    pub(crate) fn write(&self, out: &mut Text) -> Result<(), Memory>
        ensures { OnOk result (out.new ≡ out.old ++ name_text self.now) }
    {
        let alloc = self.stages.allocator();
        let stages = self.stages.as_slice();
        out.push_str("#")?;
        out.push_str(stages[0].item.to_string(alloc)?.as_str())?;
        for stage in &stages[1..] {
            out.push_str("/")?;
            stage.time.write(out)?;
            out.push_str(".")?;
            out.push_str(stage.item.to_string(alloc)?.as_str())?;
        }
        Ok(())
    }
}

/// Copies of all the stages, in order.
fn copy_all(alloc: Global, stages: &[Stage]) -> Result<Seq<Stage>, Memory>
    ensures { IfOk result (λ s. s ≡ stages.now) }
{
    let mut copies = Seq::new(alloc);
    for stage in stages {
        copies.add(stage.copy()?)?;
    }
    Ok(copies)
}

/// Whether two lists of stages are one.
fn all_are(stages: &[Stage], others: &[Stage]) -> bool
    ensures { IsTrue result ↔ (stages.now ≡ others.now) }
{
    if stages.len() != others.len() {
        return false;
    }
    for (i, stage) in stages.iter().enumerate() {
        if !stage.is(&others[i]) {
            return false;
        }
    }
    true
}

impl PartialEq for Name {
    ghost use lib.Pointwise.{pointwise};
    ghost use Rattle.std.specs.Cmp.Lexicographic.{lists_per};

    ghost eq = { pointwise ⟦<Stage as PartialEq>⟧.eq };

    ghost use Rattle.frp_base.specs.contracts.name.StagePartialEq.TheImpl.Laws.{laws-law};

    ghost laws = { lists_per laws-law };

    fn eq(&self, other: &Name) -> bool {
        self.stages.as_slice() == other.stages.as_slice()
    }
}

impl Eq for Name {
    ghost use Rattle.std.specs.Cmp.Lexicographic.{lists_equiv};
    ghost use Rattle.frp_base.specs.contracts.name.StageEq.TheImpl.Laws.{laws-law};

    ghost laws = { lists_equiv laws-law };
}

impl Ord for Name {
    ghost use Rattle.frp_base.specs.Name.{name_cmp};
    ghost use Rattle.std.specs.Cmp.Lexicographic.{lists_total};
    ghost use Rattle.std.specs.Cmp.Lexicographic.{lists_ties};
    ghost use Rattle.frp_base.specs.contracts.name.StageOrd.TheImpl.Laws.{total-law, matches_eq-law};
    ghost use Rattle.frp_base.specs.Name.{stage_cmp};
    ghost use Rattle.std.proofs.Common.{rules};
    ghost use Rattle.std.specs.Cmp.Rules.{comparing};

    ghost cmp = { name_cmp };

    ghost total = { lists_total total-law };

    ghost matches_partial_cmp = { Prim.search (comparing, rules) };

    ghost matches_eq = { lists_ties stage_cmp matches_eq-law };

    fn cmp(&self, other: &Name) -> Ordering {
        self.stages.as_slice().cmp(&other.stages.as_slice())
    }
}

impl PartialOrd for Name {
    ghost use Rattle.frp_base.specs.Name.{name_cmp};
    ghost use Rattle.std.specs.Ordering.{as_partial_cmp};
    ghost use Rattle.std.proofs.Common.{rules};
    ghost use Rattle.std.specs.Cmp.Rules.{comparing};
    ghost use Rattle.std.specs.Cmp.{partial_order_from_own_ties, partial_order_from_total};

    ghost partial_cmp = { as_partial_cmp name_cmp };

    ghost use Rattle.std.specs.Cmp.Lexicographic.{lists_total, lists_ties};
    ghost use Rattle.frp_base.specs.contracts.name.StageOrd.TheImpl.Laws.{total-law, matches_eq-law};
    ghost use Rattle.frp_base.specs.Name.{stage_cmp};

    ghost laws = { partial_order_from_own_ties (partial_order_from_total (lists_total total-law)) (lists_ties stage_cmp matches_eq-law) };

    fn partial_cmp(&self, other: &Name) -> Option<Ordering> {
        Some(self.cmp(other))
    }
}
