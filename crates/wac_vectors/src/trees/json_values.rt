//! Parts of trees that are made by hand.

use semver::Version;
use std::alloc::{AllocError, Global};
use std::test::Fail;
use wac_parser::lexer::SourceSpan;
use wac_parser::{DocComment, Ident, String, ToValue};

/// Whether a value has this JSON.
fn has_json<T: ToValue>(alloc: Global, value: &T, json: &str) -> Result<bool, AllocError> {
    let text = value.to_value(alloc)?.to_string(alloc)?;
    Ok(text.as_str() == json)
}

/// Whether parts that have a place have their JSON.
fn have_places(alloc: Global) -> Result<bool, AllocError> {
    let id = Ident {
        string: "a-B",
        span: SourceSpan::new(3, 4),
    };
    let string = String {
        value: "",
        span: SourceSpan::new(7, 2),
    };
    let comment = DocComment {
        comment: "a\nb",
        span: SourceSpan::new(0, 10),
    };
    let span = SourceSpan::new(usize::MAX, 0);
    let id = has_json(
        alloc,
        &id,
        r#"{"span":{"length":4,"offset":3},"string":"a-B"}"#,
    )?;
    let string = has_json(
        alloc,
        &string,
        r#"{"span":{"length":2,"offset":7},"value":""}"#,
    )?;
    let comment = has_json(
        alloc,
        &comment,
        r#"{"comment":"a\nb","span":{"length":10,"offset":0}}"#,
    )?;
    let span = has_json(
        alloc,
        &span,
        r#"{"length":0,"offset":18446744073709551615}"#,
    )?;
    Ok(id && string && comment && span)
}

/// Whether what may be left out and a version have their JSON.
fn have_texts(alloc: Global) -> Result<bool, AllocError> {
    let text = "0.0.18446744073709551615-rc.1+build.7";
    let is_version = match Version::parse(alloc, text) {
        Ok(version) => has_json(
            alloc,
            &version,
            r#""0.0.18446744073709551615-rc.1+build.7""#,
        )?,
        Err(_) => false,
    };
    let is_some = has_json(alloc, &Some("x"), r#""x""#)?;
    Ok(is_version && is_some && has_json(alloc, &None::<&str>, "null")?)
}

/// How many items a long list has.
const MANY: usize = 300;

/// Whether a list of many items has its JSON.
fn is_long_list(alloc: Global) -> Result<bool, AllocError> {
    let mut truths = [true].to_vec(alloc)?;
    let mut text = std::string::String::from_str(alloc, "[true")?;
    for _ in 1..MANY {
        truths.push(true)?;
        text.push_str(",true")?;
    }
    text.push_str("]")?;
    has_json(alloc, &truths, text.as_str())
}

#[test]
fn values_as_json(rt: HostRuntime) -> Result<(), Fail> {
    let alloc = rt.alloc();
    assert!(rt; have_places(alloc)?);
    assert!(rt; have_texts(alloc)?);
    let truths = [true, false].to_vec(alloc)?;
    assert!(rt; has_json(alloc, &truths, "[true,false]")?);
    assert!(rt; is_long_list(alloc)?);
    Ok(())
}
