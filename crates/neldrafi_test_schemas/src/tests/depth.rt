//! Values and schemas as deep as JSON is read, and with many members.

use super::answers::is_answered;
use super::refusals::refusal_of;
use neldrafi_schema::Config;
use serde_json::Value;
use std::alloc::{AllocError, Global};
use std::test::Fail;
use strkw_pattern::NoPatterns;

// A member that holds a member, and so on, so many times, around a text.
fn nested(alloc: Global, member: &str, text: &str, times: u32) -> Result<String, AllocError> {
    let mut nested = String::new(alloc);
    for _ in 0..times {
        nested.push_str(member)?;
    }
    nested.push_str(text)?;
    for _ in 0..times {
        nested.push_str("}")?;
    }
    Ok(nested)
}

// As deep as JSON texts may be: an instance, and a document whose keywords lead on without entering it.
#[test]
fn deep_values(rt: HostRuntime) -> Result<(), Fail> {
    let (alloc, config) = (rt.alloc(), Config::new(&NoPatterns));
    let deeper = nested(alloc, r#"{"a":"#, "5", 128)?;
    if Value::from_str(alloc, deeper.as_str()).is_ok() {
        return Err(Fail::new("a deeper text"));
    }
    let instance = nested(alloc, r#"{"a":"#, "5", 127)?;
    let within = r##"{"properties":{"a":{"$ref":"#"}},"not":{"type":"null"}}"##;
    if !is_answered(alloc, &config, within, instance.as_str(), &[])? {
        return Err(Fail::new("a deep instance"));
    }
    // a number of negations that is odd
    let document = nested(alloc, r#"{"not":"#, "false", 127)?;
    if !is_answered(alloc, &config, document.as_str(), "5", &[])? {
        return Err(Fail::new("a deep document"));
    }
    Ok(())
}

// Schemas of which each refers to the next, so many in all.
fn chain(alloc: Global, last: &str, references: u32) -> Result<String, AllocError> {
    let mut chain = String::from_str(alloc, r##"{"$ref":"#/$defs/0","$defs":{"##)?;
    for number in 0..references {
        let next = number + 1;
        let link = format!(in alloc; "\"{number}\":{{\"$ref\":\"#/$defs/{next}\"}},")?;
        chain.push_str(link.as_str())?;
    }
    chain.push_str(format!(in alloc; "\"{references}\":{last}}}}}")?.as_str())?;
    Ok(chain)
}

// What the last schema says, and a reference from there to any of the others.
#[test]
fn many_references(rt: HostRuntime) -> Result<(), Fail> {
    let (alloc, config) = (rt.alloc(), Config::new(&NoPatterns));
    let document = chain(alloc, r#"{"not":{"type":"null"}}"#, 100)?;
    if !is_answered(alloc, &config, document.as_str(), "5", &[])? {
        return Err(Fail::new("a chain"));
    }
    let document = chain(alloc, r##"{"$ref":"#/$defs/50"}"##, 100)?;
    match refusal_of(alloc, &config, document.as_str())? {
        // the first of those that lead back
        Some(error) if error.location.as_str() == "/$defs/0/$ref" => Ok(()),
        _ => Err(Fail::new("a chain that leads back")),
    }
}

// An object of so many members, with numbers for names and this value.
fn wide(alloc: Global, value: &str, members: u32) -> Result<String, AllocError> {
    let mut wide = String::from_str(alloc, "{")?;
    for number in 0..members {
        let comma = if number == 0 { "" } else { "," };
        wide.push_str(format!(in alloc; "{comma}\"{number}\":{value}")?.as_str())?;
    }
    wide.push_str("}")?;
    Ok(wide)
}

// An instance that has each of many properties, and one that has a member more.
#[test]
fn many_members(rt: HostRuntime) -> Result<(), Fail> {
    let (alloc, config) = (rt.alloc(), Config::new(&NoPatterns));
    let properties = wide(alloc, r#"{"type":"integer"}"#, 1_000)?;
    let document = format!(in alloc;
        "{{\"additionalProperties\":false,\"properties\":{properties}}}"
    )?;
    let instance = wide(alloc, "5", 1_000)?;
    if !is_answered(alloc, &config, document.as_str(), instance.as_str(), &[])? {
        return Err(Fail::new("1,000 members"));
    }
    let instance = wide(alloc, "5", 1_001)?;
    let error =
        "Additional properties are not allowed ('1000' was unexpected) at '' by '/additionalProperties' ('/additionalProperties')";
    if !is_answered(
        alloc,
        &config,
        document.as_str(),
        instance.as_str(),
        &[error],
    )? {
        return Err(Fail::new("1,001 members"));
    }
    Ok(())
}
