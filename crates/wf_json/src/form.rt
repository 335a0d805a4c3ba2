// Values of one form.
ghost use Rattle.std.specs.Prelude.{◌≡◌, Option, option_map, IfOk};
ghost use Rattle.serde_json.specs.Find.{get};
ghost use Rattle.serde_json.specs.Data.{Data};
ghost use Rattle.serde_json.specs.View.{view, items_view};
ghost use Rattle.wf_json.specs.Forms.{text_form, whole_form, items_form, list_form, two_items, pair_form, three_items, triple_form, member_form, list_member, optional_member, KeepsOthers};

use serde_json::Value;
use std::alloc::{AllocError, Global};
use wf_model::{Name, Seq};

/// A type that has a form in JSON.
pub trait FromJson: Sized {
    /// What a value says, and none where it has not the form.
    ghost form: { Data → Option Self };

    /// Reads a value; None where it has not the form, and an error where memory was refused.
    ///
    /// Cost: one pass over the value.
    fn from_json(alloc: Global, value: &Value) -> Result<Option<Self>, AllocError>
        ensures { IfOk result (λ o. o ≡ form (view value.now)) };
}

impl FromJson for Name {
    ghost form = { text_form };

    fn from_json(alloc: Global, value: &Value) -> Result<Option<Name>, AllocError> {
        match value.as_str() {
            Some(text) => Ok(Some(Name::copied(alloc, text.as_bytes())?)),
            None => Ok(None),
        }
    }
}

impl FromJson for u64 {
    ghost form = { whole_form };

    fn from_json(_: Global, value: &Value) -> Result<Option<u64>, AllocError> {
        Ok(value.as_u64())
    }
}

impl<T: FromJson + Drop> FromJson for Seq<T> {
    ghost form = { list_form T.form };

    fn from_json(alloc: Global, value: &Value) -> Result<Option<Seq<T>>, AllocError> {
        match value.as_array() {
            Some(list) => items(alloc, list),
            None => Ok(None),
        }
    }
}

fn items<T: FromJson + Drop>(alloc: Global, list: &[Value]) -> Result<Option<Seq<T>>, AllocError>
    ensures { IfOk result (λ o. o ≡ items_form T.form (items_view list.now)) }
{
    let mut found = Vec::new(alloc);
    let mut left = list;
    while let [first, rest @ ..] = left {
        let Some(one) = T::from_json(alloc, first)? else {
            return Ok(None);
        };
        found.push(one)?;
        left = rest;
    }
    Ok(Some(Seq::from_vec(found)))
}

/// Reads a value and lets it go.
fn from_value<T: FromJson + Drop>(alloc: Global, value: Value) -> Result<Option<T>, AllocError>
    ensures { IfOk result (λ o. o ≡ T.form (view value)) }
{
    T::from_json(alloc, &value)
}

/// Reads items as `items` does. Each of them is let go as soon as it is read.
fn items_by_value<T: FromJson + Drop>(
    alloc: Global,
    list: Vec<Value>,
) -> Result<Option<Seq<T>>, AllocError>
    ensures { IfOk result (λ o. o ≡ items_form T.form (items_view list.items)) }
{
    let mut found = Vec::new(alloc);
    for value in list {
        let Some(one) = from_value::<T>(alloc, value)? else {
            return Ok(None);
        };
        found.push(one)?;
    }
    Ok(Some(Seq::from_vec(found)))
}

/// Reads a list; None where the value is none, or an item has not the form, and an error where memory was refused. Each item is let go as soon as it is read.
fn list_by_value<T: FromJson + Drop>(
    alloc: Global,
    value: Value,
) -> Result<Option<Seq<T>>, AllocError>
    ensures { IfOk result (λ o. o ≡ list_form T.form (view value)) }
{
    match value {
        Value::Array(list) => items_by_value(alloc, list),
        _ => Ok(None),
    }
}

fn two<A: FromJson + Drop, B: FromJson + Drop>(
    alloc: Global,
    list: &[Value],
) -> Result<Option<(A, B)>, AllocError>
    ensures { IfOk result (λ o. o ≡ two_items A.form B.form (items_view list.now)) }
{
    let [first, rest @ ..] = list else {
        return Ok(None);
    };
    let [second, more @ ..] = rest else {
        return Ok(None);
    };
    if !more.is_empty() {
        return Ok(None);
    }
    let Some(a) = A::from_json(alloc, first)? else {
        return Ok(None);
    };
    let Some(b) = B::from_json(alloc, second)? else {
        return Ok(None);
    };
    Ok(Some((a, b)))
}

/// Reads a list of exactly two items; None where the value is no such list, and an error where memory was refused.
pub fn pair<A: FromJson + Drop, B: FromJson + Drop>(
    alloc: Global,
    value: &Value,
) -> Result<Option<(A, B)>, AllocError>
    ensures { IfOk result (λ o. o ≡ pair_form A.form B.form (view value.now)) }
{
    match value.as_array() {
        Some(list) => two(alloc, list),
        None => Ok(None),
    }
}

fn three<A: FromJson + Drop, B: FromJson + Drop, C: FromJson + Drop>(
    alloc: Global,
    list: &[Value],
) -> Result<Option<(A, (B, C))>, AllocError>
    ensures { IfOk result (λ o. o ≡ three_items A.form B.form C.form (items_view list.now)) }
{
    let [first, rest @ ..] = list else {
        return Ok(None);
    };
    let Some(a) = A::from_json(alloc, first)? else {
        return Ok(None);
    };
    let Some(others) = two::<B, C>(alloc, rest)? else {
        return Ok(None);
    };
    Ok(Some((a, others)))
}

/// Reads a list of exactly three items, as the first and the two others; None where the value is no such list, and an error where memory was refused.
pub fn triple<A: FromJson + Drop, B: FromJson + Drop, C: FromJson + Drop>(
    alloc: Global,
    value: &Value,
) -> Result<Option<(A, (B, C))>, AllocError>
    ensures { IfOk result (λ o. o ≡ triple_form A.form B.form C.form (view value.now)) }
{
    match value.as_array() {
        Some(list) => three(alloc, list),
        None => Ok(None),
    }
}

/// Reads the member of this key; None where it is not there or has not the form, and an error where memory was refused.
pub fn member<T: FromJson + Drop>(
    alloc: Global,
    value: &Value,
    key: &str,
) -> Result<Option<T>, AllocError>
    ensures { IfOk result (λ o. o ≡ member_form key.now T.form (view value.now)) }
{
    match value.get(key) {
        Some(one) => T::from_json(alloc, one),
        None => Ok(None),
    }
}

/// Reads the member of this key as a list, which is empty where the member is not there; None where it has not the form, and an error where memory was refused.
pub fn member_list<T: FromJson + Drop>(
    alloc: Global,
    value: &Value,
    key: &str,
) -> Result<Option<Seq<T>>, AllocError>
    ensures { IfOk result (λ o. o ≡ list_member key.now T.form (view value.now)) }
{
    match value.get(key) {
        Some(one) => <Seq<T>>::from_json(alloc, one),
        None => Ok(Some(Seq::from_vec(Vec::new(alloc)))),
    }
}

/// Takes the member of this key out of a value, if it is there. The others stay.
fn take_member(value: &mut Value, key: &str) -> Option<Value>
    ensures taken { option_map view result ≡ get key.now (view value.old) }
    ensures others { KeepsOthers key.now (view value.old) (view value.new) }
{
    match value.as_object_mut() {
        Some(members) => members.remove(key),
        None => None,
    }
}

/// Takes the member of this key out of a value and reads it as a list, as `member` does, but lets each item go as soon as it is read: so the list is not held twice.
pub fn take_list<T: FromJson + Drop>(
    alloc: Global,
    value: &mut Value,
    key: &str,
) -> Result<Option<Seq<T>>, AllocError>
    ensures list { IfOk result (λ o. o ≡ member_form key.now (list_form T.form) (view value.old)) }
    ensures others { KeepsOthers key.now (view value.old) (view value.new) }
{
    match take_member(value, key) {
        Some(one) => list_by_value(alloc, one),
        None => Ok(None),
    }
}

/// Takes the member of this key out of a value and reads it as `member_list` does, but lets each item go as soon as it is read: so the list is not held twice.
pub fn take_member_list<T: FromJson + Drop>(
    alloc: Global,
    value: &mut Value,
    key: &str,
) -> Result<Option<Seq<T>>, AllocError>
    ensures list { IfOk result (λ o. o ≡ list_member key.now T.form (view value.old)) }
    ensures others { KeepsOthers key.now (view value.old) (view value.new) }
{
    match take_member(value, key) {
        Some(one) => list_by_value(alloc, one),
        None => Ok(Some(Seq::from_vec(Vec::new(alloc)))),
    }
}

/// Reads the member of this key, if it is there; None where it has not the form, and an error where memory was refused.
pub fn optional<T: FromJson + Drop>(
    alloc: Global,
    value: &Value,
    key: &str,
) -> Result<Option<Option<T>>, AllocError>
    ensures { IfOk result (λ o. o ≡ optional_member key.now T.form (view value.now)) }
{
    let Some(one) = value.get(key) else {
        return Ok(Some(None));
    };
    let Some(found) = T::from_json(alloc, one)? else {
        return Ok(None);
    };
    Ok(Some(Some(found)))
}
