// What a single member must be: each function is the reader of one form of the field profile.
ghost use Rattle.std.specs.Prelude.{◌≡◌, ◌<◌, ◌^◌, true, None, IfOk, IfSome, length, option_map, option_and_then};
ghost use Rattle.serde_json.specs.View.{view};
ghost use Rattle.record_values.specs.Backends.{is_protocol};
ghost use Rattle.serde_json.specs.Find.{get};
ghost use Rattle.record_reading.specs.Judgement.{Gives, GivesSeen};
ghost use Rattle.record_reading.specs.Forms.{text, truth, whole_below, address, refused, some_address, some_text, object, protocol, required, optional, either};

use crate::faults::{missing, no_address, out_of_range, wrong_type};
use mesh_text::{Ip, Text, read_ip};
use record_values::{ReadFault, is_protocol};
use serde_json::Value;
use std::alloc::Global;

pub(crate) fn read_text(alloc: Global, field: &str, value: &Value) -> Result<Text, ReadFault>
    ensures { Gives result (text field.now (view value.now)) }
{
    match value.as_str() {
        Some(text) => Ok(Text::from_str(alloc, text)?),
        None => Err(wrong_type(alloc, field)),
    }
}

pub(crate) fn read_truth(alloc: Global, field: &str, value: &Value) -> Result<bool, ReadFault>
    ensures { Gives result (truth field.now (view value.now)) }
{
    match value.as_bool() {
        Some(truth) => Ok(truth),
        None => Err(wrong_type(alloc, field)),
    }
}

pub(crate) fn read_u32(alloc: Global, field: &str, value: &Value) -> Result<u32, ReadFault>
    ensures { Gives result (whole_below (2 ^ 32) field.now (view value.now)) }
{
    let Some(number) = value.as_u64() else {
        return Err(wrong_type(alloc, field));
    };
    if number >= 1 << 32 {
        return Err(out_of_range(alloc, field));
    }
    Ok(number as u32)
}

pub(crate) fn read_address(alloc: Global, field: &str, value: &Value) -> Result<Ip, ReadFault>
    ensures { Gives result (address field.now (view value.now)) }
{
    let Some(text) = value.as_str() else {
        return Err(wrong_type(alloc, field));
    };
    match read_ip(text.as_bytes()) {
        Some(ip) => Ok(ip),
        None => Err(no_address(alloc, field)),
    }
}

pub(crate) fn required_protocol(
    alloc: Global,
    field: &str,
    member: Option<&Value>,
) -> Result<Text, ReadFault>
    ensures read { Gives result (required protocol field.now (option_map (λ v. view v.now) member.entry)) }
    ensures named { IfOk result (λ name. is_protocol name ≡ true) }
{
    let Some(value) = member else {
        return Err(missing(alloc, field));
    };
    let Some(name) = value.as_str() else {
        return Err(wrong_type(alloc, field));
    };
    if !is_protocol(name.as_bytes()) {
        return Err(out_of_range(alloc, field));
    }
    Ok(Text::from_str(alloc, name)?)
}

pub(crate) fn required_u16(
    alloc: Global,
    field: &str,
    member: Option<&Value>,
) -> Result<u16, ReadFault>
    ensures { Gives result (required (whole_below 65536) field.now (option_map (λ v. view v.now) member.entry)) }
{
    let Some(value) = member else {
        return Err(missing(alloc, field));
    };
    let Some(number) = value.as_u64() else {
        return Err(wrong_type(alloc, field));
    };
    if number >= 65536 {
        return Err(out_of_range(alloc, field));
    }
    Ok(number as u16)
}

/// The first member where it is there, else the second.
pub(crate) fn either<'v>(first: Option<&'v Value>, second: Option<&'v Value>) -> Option<&'v Value>
    ensures { option_map (λ v. view v.now) result ≡ either (option_map (λ v. view v.now) first.entry) (option_map (λ v. view v.now) second.entry) }
{
    match first {
        Some(value) => Some(value),
        None => second,
    }
}

fn read_some_text(alloc: Global, field: &str, value: &Value) -> Result<Option<Text>, ReadFault>
    ensures read { Gives result (some_text field.now (view value.now)) }
    ensures not_empty { IfOk result (λ o. IfSome o (λ t. 0 < length t)) }
{
    let Some(text) = value.as_str() else {
        return Err(wrong_type(alloc, field));
    };
    if text.is_empty() {
        return Ok(None);
    }
    Ok(Some(Text::from_str(alloc, text)?))
}

fn read_some_address(alloc: Global, field: &str, value: &Value) -> Result<Option<Ip>, ReadFault>
    ensures { Gives result (some_address field.now (view value.now)) }
{
    let Some(text) = value.as_str() else {
        return Err(wrong_type(alloc, field));
    };
    if text.is_empty() {
        return Ok(None);
    }
    match read_ip(text.as_bytes()) {
        Some(ip) => Ok(Some(ip)),
        None => Err(no_address(alloc, field)),
    }
}

pub(crate) fn required_text(
    alloc: Global,
    field: &str,
    member: Option<&Value>,
) -> Result<Text, ReadFault>
    ensures { Gives result (required text field.now (option_map (λ v. view v.now) member.entry)) }
{
    match member {
        Some(value) => read_text(alloc, field, value),
        None => Err(missing(alloc, field)),
    }
}

pub(crate) fn required_u32(
    alloc: Global,
    field: &str,
    member: Option<&Value>,
) -> Result<u32, ReadFault>
    ensures { Gives result (required (whole_below (2 ^ 32)) field.now (option_map (λ v. view v.now) member.entry)) }
{
    match member {
        Some(value) => read_u32(alloc, field, value),
        None => Err(missing(alloc, field)),
    }
}

pub(crate) fn required_address(
    alloc: Global,
    field: &str,
    member: Option<&Value>,
) -> Result<Ip, ReadFault>
    ensures { Gives result (required address field.now (option_map (λ v. view v.now) member.entry)) }
{
    match member {
        Some(value) => read_address(alloc, field, value),
        None => Err(missing(alloc, field)),
    }
}

pub(crate) fn optional_truth(
    alloc: Global,
    field: &str,
    default: bool,
    member: Option<&Value>,
) -> Result<bool, ReadFault>
    ensures { Gives result (optional truth default field.now (option_map (λ v. view v.now) member.entry)) }
{
    match member {
        Some(value) if !value.is_null() => read_truth(alloc, field, value),
        _ => Ok(default),
    }
}

pub(crate) fn optional_u32(
    alloc: Global,
    field: &str,
    default: u32,
    member: Option<&Value>,
) -> Result<u32, ReadFault>
    ensures { Gives result (optional (whole_below (2 ^ 32)) default field.now (option_map (λ v. view v.now) member.entry)) }
{
    match member {
        Some(value) if !value.is_null() => read_u32(alloc, field, value),
        _ => Ok(default),
    }
}

pub(crate) fn optional_text(
    alloc: Global,
    field: &str,
    member: Option<&Value>,
) -> Result<Option<Text>, ReadFault>
    ensures read { Gives result (optional some_text None field.now (option_map (λ v. view v.now) member.entry)) }
    ensures not_empty { IfOk result (λ o. IfSome o (λ t. 0 < length t)) }
{
    match member {
        Some(value) if !value.is_null() => read_some_text(alloc, field, value),
        _ => Ok(None),
    }
}

pub(crate) fn optional_address(
    alloc: Global,
    field: &str,
    member: Option<&Value>,
) -> Result<Option<Ip>, ReadFault>
    ensures { Gives result (optional some_address None field.now (option_map (λ v. view v.now) member.entry)) }
{
    match member {
        Some(value) if !value.is_null() => read_some_address(alloc, field, value),
        _ => Ok(None),
    }
}

pub(crate) fn no_mask(field: &str, member: Option<&Value>) -> Result<(), ReadFault>
    ensures { Gives result (optional (refused ReadFault.Mask) tt field.now (option_map (λ v. view v.now) member.entry)) }
{
    match member {
        Some(value) if !value.is_null() => Err(ReadFault::Mask),
        _ => Ok(()),
    }
}

pub(crate) fn optional_object<'v>(
    alloc: Global,
    field: &str,
    member: Option<&'v Value>,
) -> Result<Option<&'v Value>, ReadFault>
    ensures { GivesSeen (option_map (λ v. view v.now)) result (optional object None field.now (option_map (λ v. view v.now) member.entry)) }
{
    match member {
        Some(value) if !value.is_null() => {
            if value.is_object() {
                Ok(Some(value))
            } else {
                Err(wrong_type(alloc, field))
            }
        }
        _ => Ok(None),
    }
}

/// The member of the object, if there are both.
pub(crate) fn member_of<'v>(object: Option<&'v Value>, name: &str) -> Option<&'v Value>
    ensures { option_map (λ v. view v.now) result ≡ option_and_then (get name.now) (option_map (λ v. view v.now) object.entry) }
{
    match object {
        Some(value) => value.get(name),
        None => None,
    }
}
