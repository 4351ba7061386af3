ghost use Rattle.frp_base.specs.Laws.{EqualIsSame, Reverses, IsTransitive, IsTotal, BeginningsFirst, ChildrenHaveParents, MadeNamesHaveMakers, MadeNamesAreBorn, TimeTextsTell, NameTextsTell};
ghost use Rattle.frp_base.specs.Time.{time_cmp};
ghost use Rattle.frp_base.specs.Name.{name_cmp};

/// The laws of the order of times.
pub fn times_are_ordered()
    ensures equal { EqualIsSame time_cmp }
    ensures reversed { Reverses time_cmp }
    ensures transitive { IsTransitive time_cmp }
    ensures total { IsTotal time_cmp }
    ensures beginnings { BeginningsFirst time_cmp }
{}

/// The laws of the order of names.
pub fn names_are_ordered()
    ensures equal { EqualIsSame name_cmp }
    ensures reversed { Reverses name_cmp }
    ensures transitive { IsTransitive name_cmp }
    ensures total { IsTotal name_cmp }
    ensures beginnings { BeginningsFirst name_cmp }
{}

/// A child's parent and number are those that it was made of.
pub fn children_have_parents()
    ensures { ChildrenHaveParents }
{}

/// The maker and the birth of a made name are those that it was made of.
pub fn made_names_have_makers()
    ensures maker { MadeNamesHaveMakers }
    ensures birth { MadeNamesAreBorn }
{}

/// Different times have different texts, and so have different names that begin with an item of the file.
pub fn texts_tell()
    ensures times { TimeTextsTell }
    ensures names { NameTextsTell }
{}
