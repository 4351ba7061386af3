ghost use Rattle.frp_audit.specs.Laws.{OneTrace, ChainsExclude, EndlessExcludes, FullExcludes, TooLargeExcludes, EvidenceExcludes, EndlessByAll};

/// For given sends there is only one trace that meets the rules.
pub fn one_trace()
    ensures { OneTrace }
{}

/// Of a transaction of which true evidence shows a closed chain there is no trace that meets the rules.
pub fn chains_exclude()
    ensures { ChainsExclude }
{}

/// A file that alone makes more nodes than the limit has no trace within the limits.
pub fn too_large_excludes()
    ensures { TooLargeExcludes }
{}

/// Of a transaction of which true evidence shows an instance without room there is no trace within the limits.
pub fn full_excludes()
    ensures { FullExcludes }
{}

/// Of a transaction of which true evidence shows more moments than the limit there is no trace within the limits.
pub fn endless_excludes()
    ensures { EndlessExcludes }
{}

/// Of a transaction there is one verdict: with true evidence against it there is no trace within the limits, and where some
/// evidence shows that it is endless, all evidence does.
pub fn one_verdict()
    ensures no_trace { EvidenceExcludes }
    ensures endless_too { EndlessByAll }
{}
