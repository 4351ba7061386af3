//! The operators on values. A value of another kind than an operator's counts as 0, false, no text or no items.

ghost use Rattle.std.specs.List.{list_all};
ghost use Rattle.std.specs.Prelude.{◌≡◌, nat_lt, pos, ◌+ℤ◌, ◌-ℤ◌, ◌*ℤ◌, neg_ℤ, int_lt, ◌++◌, take, IfOk};
ghost use Rattle.frp_expr.specs.Parts.{int_of, bool_of, text_of, items_of, first_of, second_of, len_of};
ghost use Rattle.frp_expr.specs.Operators.{wrapped, quotient, remainder, appended, cut, item_at};

use frp_base::{Memory, Seq, Text, Val};
use std::alloc::Global;

/// The most items of a list, and the most bytes of a text.
const MOST: usize = 1024;

/// The number that a value is, or 0.
pub fn number(value: &Val) -> i64
    ensures { result ≡ int_of value.now }
{
    if let Val::Int(n) = value { *n } else { 0 }
}

/// The truth that a value is, or false.
pub fn truth(value: &Val) -> bool
    ensures { result ≡ bool_of value.now }
{
    if let Val::Bool(b) = value { *b } else { false }
}

/// The number with its sign turned, wrapped at 64 bits.
#[tactic(auto, using(std::proofs::lemmas::Int::wraps))]
pub fn negated(a: &Val) -> i64
    ensures { result ≡ wrapped (neg_ℤ (int_of a.now)) }
{
    number(a).wrapping_neg()
}

/// The sum of two numbers, wrapped at 64 bits.
#[tactic(auto, using(std::proofs::lemmas::Int::wraps))]
pub fn sum(a: &Val, b: &Val) -> i64
    ensures { result ≡ wrapped (int_of a.now +ℤ int_of b.now) }
{
    number(a).wrapping_add(number(b))
}

/// The difference of two numbers, wrapped at 64 bits.
#[tactic(auto, using(std::proofs::lemmas::Int::wraps))]
pub fn difference(a: &Val, b: &Val) -> i64
    ensures { result ≡ wrapped (int_of a.now -ℤ int_of b.now) }
{
    number(a).wrapping_sub(number(b))
}

/// The product of two numbers, wrapped at 64 bits.
#[tactic(auto, using(std::proofs::lemmas::Int::wraps))]
pub fn product(a: &Val, b: &Val) -> i64
    ensures { result ≡ wrapped (int_of a.now *ℤ int_of b.now) }
{
    number(a).wrapping_mul(number(b))
}

/// The quotient cut toward zero; by 0 it is 0, and the least number by -1 is itself.
#[tactic(auto, using(std::proofs::lemmas::Int::wraps))]
pub fn divided(a: &Val, b: &Val) -> i64
    ensures { result ≡ quotient (int_of a.now) (int_of b.now) }
{
    let (a, b) = (number(a), number(b));
    if b == 0 {
        0
    } else if b == -1 {
        a.wrapping_neg()
    } else {
        a / b
    }
}

/// The remainder of the quotient, with the sign of the first; by 0 it is 0.
pub fn left_over(a: &Val, b: &Val) -> i64
    ensures { result ≡ remainder (int_of a.now) (int_of b.now) }
{
    let (a, b) = (number(a), number(b));
    if b == 0 { 0 } else { a.wrapping_rem(b) }
}

/// Whether the first number is less than the second.
pub fn is_less(a: &Val, b: &Val) -> bool
    ensures { result ≡ int_lt (int_of a.now) (int_of b.now) }
{
    number(a) < number(b)
}

/// The first part of a pair.
pub fn first(pair: Val) -> Val
    ensures { result ≡ first_of pair }
{
    match pair {
        Val::Pair(x, _) => x.into_inner(),
        _ => Val::Int(0),
    }
}

/// The second part of a pair.
pub fn second(pair: Val) -> Val
    ensures { result ≡ second_of pair }
{
    match pair {
        Val::Pair(_, y) => y.into_inner(),
        _ => Val::Int(0),
    }
}

/// The number of items of a list, or of bytes of a text.
pub fn length(value: &Val) -> i64
    ensures { result ≡ pos (len_of value.now) }
{
    match value {
        Val::List(items) => items.as_slice().len() as i64,
        Val::Text(text) => text.as_str().len() as i64,
        _ => 0,
    }
}

/// The items of a list, which are moved out of it.
fn items(alloc: Global, list: Val) -> Vec<Val>
    ensures { result.items ≡ items_of list }
{
    match list {
        Val::List(items) => items.into_vec(),
        _ => Vec::new(alloc),
    }
}

/// The first 1,024 items of one list followed by another.
pub fn append(alloc: Global, a: Val, b: Val) -> Result<Seq<Val>, Memory>
    ensures { IfOk result (λ xs. xs ≡ appended (items_of a) (items_of b)) }
{
    let mut all = items(alloc, a);
    let mut more = items(alloc, b);
    all.append(&mut more)?;
    all.truncate(MOST);
    Ok(Seq::of(all))
}

/// The item of a list at a number from 0, or the default.
pub fn item(alloc: Global, list: Val, i: &Val, default: Val) -> Val
    ensures { result ≡ item_at (items_of list) (int_of i.now) default }
{
    let mut items = items(alloc, list);
    let i = number(i);
    if i < 0 {
        return default;
    }
    let i = i as usize;
    if i < items.len() {
        items.swap_remove(i)
    } else {
        default
    }
}

/// The text that a value is, or the empty text.
fn text(alloc: Global, value: Val) -> Text
    ensures { result ≡ text_of value }
{
    match value {
        Val::Text(text) => text,
        _ => Text::new(alloc),
    }
}

/// Whether each byte is below 128.
fn is_ascii(text: &str) -> bool
    ensures { result ≡ list_all (λ b. nat_lt b 128) text.now }
{
    text.bytes().all(|b| b < 128)
}

/// The first 1,024 bytes of one text followed by another.
pub fn cat(alloc: Global, a: Val, b: Val) -> Result<Text, Memory>
    ensures { IfOk result (λ t. t ≡ cut (text_of a ++ text_of b)) }
{
    let mut all = text(alloc, a);
    all.push_str(text(alloc, b).as_str())?;
    shortened(alloc, all)
}

/// The first 1,024 bytes of a text of bytes below 128; of another text none.
fn shortened(alloc: Global, all: Text) -> Result<Text, Memory>
    ensures { IfOk result (λ t. t ≡ cut all) }
{
    if !is_ascii(all.as_str()) {
        return Ok(Text::new(alloc));
    }
    if all.as_str().len() <= MOST {
        return Ok(all);
    }
    let mut short = Text::new(alloc);
    short.push_str(&all.as_str()[..MOST])?;
    Ok(short)
}
