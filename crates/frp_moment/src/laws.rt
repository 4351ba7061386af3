ghost use Rattle.frp_moment.specs.Laws.{ShapesAreGround};
ghost use Rattle.frp_moment.specs.Stands.{TakingKeeps, LooseningKeeps, TighteningKeeps, BirthKeeps, EndSettles, EvidenceShows};

/// A rank is taken: its queued nodes get the occurrences of their rows.
pub fn taking_keeps()
    ensures { TakingKeeps }
{}

/// The inner link of a node that is not settled is dropped.
pub fn loosening_keeps()
    ensures { LooseningKeeps }
{}

/// A node gets its inner link.
pub fn tightening_keeps()
    ensures { TighteningKeeps }
{}

/// Nodes come to life together.
pub fn birth_keeps()
    ensures { BirthKeeps }
{}

/// Where nothing is queued and each inner link is kept, all is settled, and the kept links are those of During.
pub fn end_settles()
    ensures { EndSettles }
{}

/// The settled nodes are as evidence of a refused moment asks.
pub fn evidence_shows()
    ensures { EvidenceShows }
{}

/// For nodes of all shapes: rows and inner links look at links of During alone, and a row gives nothing where its node has no start
/// and none of its links fires.
pub fn shapes_are_ground()
    ensures { ShapesAreGround }
{}
