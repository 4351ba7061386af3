ghost use Rattle.frp_links.specs.Chains.{FormedGraphsRefer};

/// In a well-formed graph the node of a name has that name, and the cells of switches are live and refer to nodes.
pub fn formed_graphs_refer()
    ensures { FormedGraphsRefer }
{}
