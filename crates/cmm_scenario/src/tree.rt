ghost use Rattle.std.specs.Prelude.{◌≡◌, [], map, decimal, Result, Err};
ghost use Rattle.std.specs.List.{list_all};
ghost use Rattle.serde_json.specs.Data.{Data};
ghost use Rattle.cmm_scenario.specs.Borrowed.{view};
ghost use Rattle.cmm_scenario.specs.Faults.{Gives, error_inside};
ghost use Rattle.cmm_scenario.specs.Tree.{whole_number, number_in, number, known_keys, member_of, member_or, each_from, list_of};
ghost use Rattle.cmm_scenario.specs.Lent.{texts, is_lent};
ghost use Rattle.cmm_scenario.specs.declared.error.ScenarioError.{ScenarioError};

use crate::borrowed::{as_array, as_object, as_u64, get};
use crate::error::{ScenarioError, here, inside};
use crate::fault::Kind;
use crate::words::within;
use cmm_types::Items;
use itoa::Buffer;
use json::Value;
use std::alloc::Global;

/// A way to read a value of JSON, or to find its first fault.
pub trait Reader {
    type Item: Drop;

    ghost reads: { Self → Data → Result Self.Item ScenarioError };

    fn read(&self, alloc: Global, value: &Value<'_>) -> Result<Self::Item, ScenarioError>
        ensures { Gives result (reads self.now (view value.now)) };
}

/// A whole number in a range, both ends included.
#[derive(Clone, Copy)]
pub struct Number {
    pub low: u32,
    pub high: u32,
}

impl Number {
    pub fn new(low: u32, high: u32) -> Number
        ensures { result ≡ record { low = low; high = high } }
    {
        Number { low, high }
    }
}

impl Reader for Number {
    type Item = u32;

    ghost reads = { λ range tree. number range.low range.high tree };

    fn read(&self, alloc: Global, value: &Value<'_>) -> Result<u32, ScenarioError> {
        here(alloc, number_in(value, self.low, self.high))
    }
}

#[tactic(auto, unfolding(crate::specs::Tree::whole_number))]
fn whole_number(value: &Value<'_>) -> Result<u64, Kind>
    ensures { result ≡ whole_number (view value.now) }
{
    as_u64(value).ok_or(Kind::Type_)
}

#[tactic(auto, unfolding(crate::specs::Tree::number_in))]
fn number_in(value: &Value<'_>, low: u32, high: u32) -> Result<u32, Kind>
    ensures { result ≡ number_in low high (view value.now) }
{
    let number = whole_number(value)?;
    within(low, high, number)
}

fn is_among(names: &[&str], name: &str) -> bool
    ensures { result ≡ is_lent names.now name.now }
{
    names.iter().any(|known| name == *known)
}

fn all_among(names: &[&str], members: &[(&str, Value<'_>)]) -> bool
    ensures { result ≡ list_all (λ member. is_lent names.now member.0.now) members.now }
{
    members.iter().all(|member| is_among(names, member.0))
}

/// Refuses what is no object, and an object with a key beside these.
#[tactic(auto, unfolding(crate::specs::Tree::known_keys))]
pub fn known_keys(value: &Value<'_>, names: &[&str]) -> Result<(), Kind>
    ensures { result ≡ known_keys (texts names.now) (view value.now) }
{
    let Some(members) = as_object(value) else {
        return Err(Kind::Type_);
    };
    if all_among(names, members) {
        Ok(())
    } else {
        Err(Kind::Unknown)
    }
}

/// The member of a key that must be there.
pub fn member<R: Reader>(
    alloc: Global,
    object: &Value<'_>,
    key: &str,
    reader: &R,
) -> Result<R::Item, ScenarioError>
    ensures { Gives result (member_of key.now (R.reads reader.now) (view object.now)) }
{
    let read = match get(object, key) {
        Some(value) => reader.read(alloc, value),
        None => here(alloc, Err(Kind::Missing)),
    };
    inside(alloc, key.as_bytes(), read)
}

/// The member of a key, or the default where it is absent.
pub fn member_or<R: Reader>(
    alloc: Global,
    object: &Value<'_>,
    key: &str,
    default: R::Item,
    reader: &R,
) -> Result<R::Item, ScenarioError>
    ensures { Gives result (member_or key.now default (R.reads reader.now) (view object.now)) }
{
    match get(object, key) {
        Some(value) => inside(alloc, key.as_bytes(), reader.read(alloc, value)),
        None => Ok(default),
    }
}

/// A list of so many items, both ends included, each of which is read alike.
#[derive(Drop)]
pub struct ListOf<R> {
    pub low: u32,
    pub high: u32,
    pub item: R,
}

impl<R> ListOf<R> {
    pub fn new(low: u32, high: u32, item: R) -> ListOf<R>
        ensures { result ≡ record { low = low; high = high; item = item } }
    {
        ListOf { low, high, item }
    }
}

/// What an absent list stands for.
pub fn empty<T>(alloc: Global) -> Items<T>
    ensures { result ≡ [] }
{
    Items::from_vec(Vec::new(alloc))
}

impl<R: Reader> Reader for ListOf<R> {
    type Item = Items<R::Item>;

    ghost reads = { λ list tree. list_of list.low list.high (R.reads list.item) tree };

    #[tactic(auto, using(crate::proofs::Trees::trees), unfolding(crate::specs::Tree::list_of))]
    fn read(&self, alloc: Global, value: &Value<'_>) -> Result<Items<R::Item>, ScenarioError> {
        let Some(list) = as_array(value) else {
            return here(alloc, Err(Kind::Type_));
        };
        let len = list.len();
        if len < self.low as usize || len > self.high as usize {
            return here(alloc, Err(Kind::Range));
        }
        items(alloc, &self.item, list)
    }
}

fn items<R: Reader>(
    alloc: Global,
    reader: &R,
    list: &[Value<'_>],
) -> Result<Items<R::Item>, ScenarioError>
    ensures { Gives result (each_from 0 (R.reads reader.now) (map view list.now)) }
{
    let mut items = Vec::with_capacity(alloc, list.len())?;
    for (place, value) in list.iter().enumerate() {
        match reader.read(alloc, value) {
            Ok(item) => items.push(item)?,
            Err(e) => return item_fault(alloc, place, e),
        }
    }
    Ok(Items::from_vec(items))
}

/// The fault of an item, seen from its list.
fn item_fault<T: Drop>(
    alloc: Global,
    place: usize,
    fault: ScenarioError,
) -> Result<T, ScenarioError>
    ensures { Gives result (Err (error_inside (decimal place) fault)) }
{
    let mut digits = Buffer::new();
    inside(alloc, digits.format(place).as_bytes(), Err(fault))
}
