ghost use Rattle.std.specs.Prelude.{◌≡◌, ◌<◌};

use super::*;
use std::alloc::Global;
use std::marker::Brand;
use std::sync::ledger::{Blank, Ledger};
use std::test::Fail;

/// The numbers 5, 7 and 9.
fn numbers(alloc: Global) -> Result<Seq<u64>, Fail> {
    let mut numbers = Seq::new(alloc);
    numbers.push(5)?;
    numbers.add(7)?;
    numbers.add(9)?;
    Ok(numbers)
}

#[test]
fn sequence_pops_its_last(rt: HostRuntime) -> Result<(), Fail> {
    let mut numbers = numbers(rt.alloc())?;
    assert_eq!(rt; numbers.as_slice(), [5, 7, 9].as_slice());
    assert_eq!(rt; numbers.pop(), Some(9));
    assert_eq!(rt; numbers.as_slice(), [5, 7].as_slice());
    Ok(())
}

#[test]
fn empty_sequence_pops_nothing(rt: HostRuntime) {
    let mut numbers: Seq<u64> = Seq::new(rt.alloc());
    assert_eq!(rt; numbers.pop(), None);
}

/// Whether a sequence differs from another with one item more, and is equal to it with that item.
fn sequences_compare(alloc: Global) -> Result<bool, Fail> {
    let numbers = numbers(alloc)?;
    let mut same: Seq<u64> = Seq::new(numbers.allocator());
    same.add(5)?;
    same.add(7)?;
    let differs = same != numbers;
    same.add(9)?;
    Ok(differs && same == numbers)
}

#[test]
fn sequences(rt: HostRuntime) -> Result<(), Fail> {
    assert!(rt; sequences_compare(rt.alloc())?);
    Ok(())
}

/// Whether the items of a sequence, taken out and put in again, are the sequence.
fn items_are_kept(alloc: Global) -> Result<bool, Fail> {
    let items = numbers(alloc)?.into_vec();
    let same = numbers(alloc)?;
    Ok(items.as_slice() == [5, 7, 9].as_slice() && Seq::of(items) == same)
}

#[test]
fn items(rt: HostRuntime) -> Result<(), Fail> {
    assert!(rt; items_are_kept(rt.alloc())?);
    Ok(())
}

/// Whether a box of 8 is equal to a box of this number.
fn is_boxed_eight(alloc: Global, number: u64) -> Result<bool, Memory> {
    let eight: Boxed<u64> = Boxed::new(alloc, 8)?;
    let other = Boxed::new(alloc, number)?;
    Ok(eight == other)
}

#[test]
fn boxes(rt: HostRuntime) -> Result<(), Fail> {
    let alloc = rt.alloc();
    assert!(rt; is_boxed_eight(alloc, 8)?);
    assert!(rt; !is_boxed_eight(alloc, 9)?);
    let boxed: Boxed<u64> = Boxed::new(alloc, 8)?;
    assert_eq!(rt; *boxed.get(), 8);
    assert_eq!(rt; boxed.into_inner(), 8);
    Ok(())
}

#[test]
fn places_and_memory(rt: HostRuntime) -> Result<(), Fail> {
    assert!(rt; Place(1) < Place(2) && Place(2) == Place(2) && Place(2) != Place(3));
    assert_eq!(rt; Memory.to_string(rt.alloc())?.as_str(), "out of memory");
    Ok(())
}

/// A text of these characters.
fn text(alloc: Global, chars: &str) -> Result<Text, Memory> {
    let mut text = Text::new(alloc);
    text.push_str(chars)?;
    Ok(text)
}

#[test]
fn text_grows(rt: HostRuntime) -> Result<(), Fail> {
    let mut till = Text::new(rt.alloc());
    assert_eq!(rt; till.as_str(), "");
    till.push_str("til")?;
    till.push('l')?;
    till.push('é')?;
    assert_eq!(rt; till.as_str(), "tillé");
    Ok(())
}

/// Whether a copy is equal to its text, and stays as it was as the text grows.
fn copy_stays(alloc: Global) -> Result<bool, Memory> {
    let mut till = text(alloc, "tillé")?;
    let copy = till.copy()?;
    let is_equal = copy == till;
    till.push_str("s")?;
    Ok(is_equal && copy != till && copy.as_str() == "tillé")
}

#[test]
fn texts(rt: HostRuntime) -> Result<(), Fail> {
    let alloc = rt.alloc();
    assert!(rt; copy_stays(alloc)?);
    assert_eq!(rt; Text::of(String::from_str(alloc, "shop")?).as_str(), "shop");
    Ok(())
}

#[test]
fn times_are_in_order(rt: HostRuntime) {
    let alloc = rt.alloc();
    let build = Time::top(alloc, 0);
    let three = Time::top(alloc, 3);
    let four = Time::top(alloc, 4);
    assert!(rt; build < three && three < four && build < four);
    assert!(rt; !(three < three) && !(four < three));
}

/// Whether a time of three is equal to its copy, and not to another.
fn time_is_copied(alloc: Global) -> Result<bool, Memory> {
    let three = Time::top(alloc, 3);
    let copy = three.copy()?;
    Ok(copy == three && copy.is(&three) && !copy.is(&Time::top(alloc, 4)))
}

/// Whether a time has this text.
fn time_shows(alloc: Global, time: &Time, want: &str) -> Result<bool, Memory> {
    let mut out = Text::new(alloc);
    time.show(&mut out)?;
    Ok(out.as_str() == want)
}

#[test]
fn times(rt: HostRuntime) -> Result<(), Fail> {
    let alloc = rt.alloc();
    assert!(rt; time_is_copied(alloc)?);
    assert!(rt; time_shows(alloc, &Time::top(alloc, 3), "[3]")?);
    Ok(())
}

/// The second child of the first child of time 3.
fn below(alloc: Global) -> Result<Time, Memory> {
    let first = Time::top(alloc, 3).child(0)?;
    first.child(1)
}

/// Whether a time, its first child, a child of that and its second child come in that order.
fn children_are_in_order(alloc: Global) -> Result<bool, Memory> {
    let three = Time::top(alloc, 3);
    let first = three.child(0)?;
    let below = below(alloc)?;
    let second = three.child(1)?;
    Ok(three < first && first < below && below < second)
}

/// Whether a top time has no parent, and a child has the time that it is a child of.
fn parents_are_found(alloc: Global) -> Result<bool, Memory> {
    let three = Time::top(alloc, 3);
    let first = three.child(0)?;
    let parent = below(alloc)?.parent()?;
    Ok(three.parent()?.is_none() && parent == Some(first))
}

#[test]
fn children(rt: HostRuntime) -> Result<(), Fail> {
    let alloc = rt.alloc();
    assert!(rt; children_are_in_order(alloc)?);
    assert!(rt; parents_are_found(alloc)?);
    assert!(rt; time_shows(alloc, &below(alloc)?, "[3,0,1]")?);
    Ok(())
}

/// Whether the second declared name comes after the first, and not before itself.
fn names_are_in_order(alloc: Global) -> Result<bool, Memory> {
    let one = Name::declared(alloc, 1)?;
    let two = Name::declared(alloc, 2)?;
    Ok(two.item() == 2 && one < two && !(two < one) && !(two < two))
}

/// Whether a name is equal to its copy, and not to another.
fn name_is_copied(alloc: Global) -> Result<bool, Memory> {
    let one = Name::declared(alloc, 1)?;
    let two = Name::declared(alloc, 2)?;
    let copy = two.copy()?;
    Ok(copy == two && copy.is(&two) && !copy.is(&one))
}

/// Whether a name has this text.
fn name_shows(alloc: Global, name: &Name, want: &str) -> Result<bool, Memory> {
    let mut out = Text::new(alloc);
    name.show(&mut out)?;
    Ok(out.as_str() == want)
}

/// Whether a stage of a name is equal to its copy.
fn stage_is_copied(alloc: Global) -> Result<bool, Memory> {
    let stage = Stage {
        time: Time::top(alloc, 3),
        item: 7,
    };
    let same = stage.copy()?;
    Ok(same.item == 7 && same.time.is(&Time::top(alloc, 3)) && same == stage)
}

#[test]
fn names(rt: HostRuntime) -> Result<(), Fail> {
    let alloc = rt.alloc();
    assert!(rt; names_are_in_order(alloc)?);
    assert!(rt; name_is_copied(alloc)?);
    assert!(rt; name_shows(alloc, &Name::declared(alloc, 2)?, "#2")?);
    assert!(rt; stage_is_copied(alloc)?);
    Ok(())
}

/// The node that the second declared one makes at time 3, for its first item.
fn made(alloc: Global) -> Result<Name, Memory> {
    let two = Name::declared(alloc, 2)?;
    two.made(&Time::top(alloc, 3), 0)
}

/// Whether a node is born after its maker, at the time that it is made.
fn made_is_born(alloc: Global) -> Result<bool, Memory> {
    let two = Name::declared(alloc, 2)?;
    let made = made(alloc)?;
    Ok(two < made && made.birth().is(&Time::top(alloc, 3)))
}

/// Whether a declared node has no maker, and one that is made has its own.
fn makers_are_found(alloc: Global) -> Result<bool, Memory> {
    let two = Name::declared(alloc, 2)?;
    let maker = made(alloc)?.maker()?;
    Ok(two.maker()?.is_none() && maker == Some(two))
}

/// Whether a node that a made one makes has both stages in its text.
fn stages_are_shown(alloc: Global) -> Result<bool, Memory> {
    let below = made(alloc)?.made(&Time::top(alloc, 3), 4)?;
    name_shows(alloc, &below, "#2/[3].0/[3].4")
}

#[test]
fn made_names(rt: HostRuntime) -> Result<(), Fail> {
    let alloc = rt.alloc();
    assert!(rt; made_is_born(alloc)?);
    assert!(rt; makers_are_found(alloc)?);
    assert!(rt; stages_are_shown(alloc)?);
    Ok(())
}

/// Two steps.
fn two_steps<L: Ledger>(blank: Blank)
    requires name { blank.name ≡ L.name }
    requires parts { blank.parts ≡ L.parts }
    requires some { 0 < blank.parts }
{
    let mut steps = Steps::<L>::new(blank);
    steps.tick();
    steps.tick();
}

#[test]
fn laws_and_steps(_rt: HostRuntime) {
    times_are_ordered();
    names_are_ordered();
    children_have_parents();
    made_names_have_makers();
    texts_tell();
    two_steps::<Brand>(Blank::new(1));
}

/// Whether a type is equal to its copy, which has this text.
fn copy_shows(alloc: Global, ty: &Ty, want: &str) -> Result<bool, Memory> {
    let copy = ty.copy(alloc)?;
    let mut out = Text::new(alloc);
    copy.show(alloc, &mut out)?;
    Ok(copy == *ty && copy.is(ty) && out.as_str() == want)
}

/// The same for a type that is made here.
fn type_shows(alloc: Global, ty: Ty, want: &str) -> Result<bool, Memory> {
    copy_shows(alloc, &ty, want)
}

/// A whole number's type, in a box.
fn int(alloc: Global) -> Result<Boxed<Ty>, Memory> {
    Boxed::new(alloc, Ty::Int)
}

/// The type of functions from pairs of whole numbers and truth values to lists of texts.
fn function(alloc: Global) -> Result<Ty, Memory> {
    let pair = Ty::Pair(int(alloc)?, Boxed::new(alloc, Ty::Bool)?);
    let pair = Boxed::new(alloc, pair)?;
    let list = Ty::List(Boxed::new(alloc, Ty::Text)?);
    Ok(Ty::Fun(pair, Boxed::new(alloc, list)?))
}

#[test]
fn types(rt: HostRuntime) -> Result<(), Fail> {
    let alloc = rt.alloc();
    assert!(rt; type_shows(alloc, Ty::Int, "Int")?);
    assert!(rt; type_shows(alloc, Ty::Bool, "Bool")?);
    assert!(rt; type_shows(alloc, Ty::Text, "Text")?);
    Ok(())
}

#[test]
fn types_of_parts(rt: HostRuntime) -> Result<(), Fail> {
    let alloc = rt.alloc();
    assert!(rt; type_shows(alloc, Ty::Stream(int(alloc)?), "(Stream Int)")?);
    assert!(rt; type_shows(alloc, Ty::Cell(int(alloc)?), "(Cell Int)")?);
    assert!(rt; type_shows(alloc, Ty::Option(int(alloc)?), "(Option Int)")?);
    assert!(rt; type_shows(alloc, function(alloc)?, "(Fun (Pair Int Bool) (List Text))")?);
    Ok(())
}

/// Whether a type and an option of it differ.
fn option_differs(alloc: Global) -> Result<bool, Memory> {
    let option = Ty::Option(int(alloc)?);
    Ok(!option.is(&Ty::Int) && option != Ty::List(int(alloc)?))
}

#[test]
fn options(rt: HostRuntime) -> Result<(), Fail> {
    assert!(rt; option_differs(rt.alloc())?);
    Ok(())
}

/// Whether a value is equal to its copy, which has this text.
fn copy_reads(alloc: Global, value: &Val, want: &str) -> Result<bool, Memory> {
    let copy = value.copy(alloc)?;
    let mut out = Text::new(alloc);
    copy.show(alloc, &mut out)?;
    Ok(copy == *value && copy.is(value) && out.as_str() == want)
}

/// The same for a value that is made here.
fn value_shows(alloc: Global, value: Val, want: &str) -> Result<bool, Memory> {
    copy_reads(alloc, &value, want)
}

/// A whole number, in a box.
fn number(alloc: Global, n: i64) -> Result<Boxed<Val>, Memory> {
    Boxed::new(alloc, Val::Int(n))
}

/// The whole numbers 1 and 2.
fn one_and_two(alloc: Global) -> Result<Seq<Val>, Memory> {
    let mut values = Seq::new(alloc);
    values.add(Val::Int(1))?;
    values.add(Val::Int(2))?;
    Ok(values)
}

/// The one whole number 7.
fn seven(alloc: Global) -> Result<Seq<Val>, Memory> {
    let mut values = Seq::new(alloc);
    values.add(Val::Int(7))?;
    Ok(values)
}

#[test]
fn plain_values(rt: HostRuntime) -> Result<(), Fail> {
    let alloc = rt.alloc();
    let quoted = text(alloc, "a\"b\\c")?;
    assert!(rt; value_shows(alloc, Val::Text(quoted), "\"a\\\"b\\\\c\"")?);
    assert!(rt; value_shows(alloc, Val::Int(-3), "-3")?);
    assert!(rt; value_shows(alloc, Val::Bool(true), "true")?);
    assert!(rt; value_shows(alloc, Val::Bool(false), "false")?);
    Ok(())
}

#[test]
fn values_of_parts(rt: HostRuntime) -> Result<(), Fail> {
    let alloc = rt.alloc();
    assert!(rt;
        value_shows(
            alloc,
            Val::Pair(number(alloc, 1)?, number(alloc, 2)?),
            "(pair 1 2)"
        )?
    );
    assert!(rt; value_shows(alloc, Val::List(one_and_two(alloc)?), "(list 1 2)")?);
    assert!(rt; value_shows(alloc, Val::List(Seq::new(alloc)), "(list)")?);
    assert!(rt; value_shows(alloc, Val::Fun(0, seven(alloc)?), "(fun 0 7)")?);
    Ok(())
}

#[test]
fn references(rt: HostRuntime) -> Result<(), Fail> {
    let alloc = rt.alloc();
    assert!(rt; value_shows(alloc, Val::Stream(Name::declared(alloc, 1)?), "(stream #1)")?);
    assert!(rt; value_shows(alloc, Val::Cell(Name::declared(alloc, 2)?), "(cell #2)")?);
    Ok(())
}

#[test]
fn optional_values(rt: HostRuntime) -> Result<(), Fail> {
    let alloc = rt.alloc();
    assert!(rt; value_shows(alloc, Val::Absent, "none")?);
    assert!(rt; value_shows(alloc, Val::Present(number(alloc, 3)?), "(some 3)")?);
    Ok(())
}

/// Whether a present value differs from the absent one, and from its part.
fn present_differs(alloc: Global) -> Result<bool, Memory> {
    let present = Val::Present(number(alloc, 3)?);
    Ok(!present.is(&Val::Absent) && present != Val::Int(3))
}

#[test]
fn values_compare(rt: HostRuntime) -> Result<(), Fail> {
    assert!(rt; present_differs(rt.alloc())?);
    Ok(())
}
