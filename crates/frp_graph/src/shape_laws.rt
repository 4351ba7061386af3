ghost use Rattle.frp_graph.specs.ShapeLaws.{InstancesStay, RowsAgree, LinksLead, NamesAreGiven, FilesAreWhole, AllowedStays, LinesAreAllowed, RowsAreTyped, FirstsAreTyped, InstancesAreThere, ReadsAreThere};

/// An instance that is there stays as it is where more values before are there.
pub fn instances_stay()
    ensures { InstancesStay }
{}

/// A row looks only at the occurrences of the nodes that its links of During lead to, at the values before of its operands and
/// of the nodes that these hold, at the instance that it makes, at its operands' occurrences at the parent of the time, and at
/// what is sent to its own node.
pub fn rows_agree()
    ensures { RowsAgree }
{}

/// A link leads to an operand, to what an operand holds, or to the maker of its node.
pub fn links_lead()
    ensures { LinksLead }
{}

/// The names in what an expression gives are names in its arguments.
pub fn names_are_given()
    ensures { NamesAreGiven }
{}

/// A file's body whose lines all make nodes makes as many as it has lines.
pub fn files_are_whole()
    ensures { FilesAreWhole }
{}

/// What a shape allows stays so where more nodes are live.
pub fn allowed_stays()
    ensures { AllowedStays }
{}

/// The node of a typed line has a shape that its type allows, and a first value that is given is of its type.
pub fn lines_are_allowed()
    ensures { LinesAreAllowed }
{}

/// In a well-formed graph a row gives a value that its node holds.
pub fn rows_are_typed()
    ensures { RowsAreTyped }
{}

/// In a well-formed graph a first value is one that its node holds.
pub fn firsts_are_typed()
    ensures { FirstsAreTyped }
{}

/// In a well-formed graph with first values each execute whose source fires makes an instance, which has as many nodes as its
/// template makes.
pub fn instances_are_there()
    ensures { InstancesAreThere }
{}

/// In a well-formed graph whose cells have first values no row misses a value that it reads.
pub fn reads_are_there()
    ensures { ReadsAreThere }
{}
