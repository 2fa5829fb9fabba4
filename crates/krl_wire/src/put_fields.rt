//! The fields of a message, written at the end.
ghost use Rattle.std.specs.Prelude.{◌≡◌, ◌++◌, [], ◌∷◌, OnOk};
ghost use Rattle.std.specs.List.{flat_map};
ghost use Rattle.krl_wire.specs.Spelling as spelling;

use crate::kinds::VERSION;
use krl_messages::{Holding, Holdings, Value};
use krl_modes::{Mode, Span};
use std::alloc::AllocError;

fn mode_tag(mode: Mode) -> u8
    ensures { result ≡ spelling.mode_tag mode }
{
    mode as u8
}

pub fn put_number(out: &mut Vec<u8>, n: u64) -> Result<(), AllocError>
    ensures { OnOk result (out.new.items ≡ out.old.items ++ spelling.number n) }
{
    out.extend_from_slice(&n.to_le_bytes())
}

pub fn put_mode(out: &mut Vec<u8>, mode: Mode) -> Result<(), AllocError>
    ensures { OnOk result (out.new.items ≡ out.old.items ++ spelling.mode_tag mode ∷ []) }
{
    Ok(out.push(mode_tag(mode))?)
}

pub fn put_span(out: &mut Vec<u8>, span: Span) -> Result<(), AllocError>
    ensures { OnOk result (out.new.items ≡ out.old.items ++ spelling.span span) }
{
    put_number(out, span.lo())?;
    put_number(out, span.hi())
}

pub fn put_span_and_mode(out: &mut Vec<u8>, span: Span, mode: Mode) -> Result<(), AllocError>
    ensures { OnOk result (out.new.items
        ≡ out.old.items ++ (spelling.span span ++ spelling.mode_tag mode ∷ [])) }
{
    put_span(out, span)?;
    put_mode(out, mode)
}

pub fn put_value(out: &mut Vec<u8>, value: &Value) -> Result<(), AllocError>
    ensures { OnOk result (out.new.items ≡ out.old.items ++ spelling.value value.now) }
{
    let bytes = value.bytes();
    out.push(bytes.len() as u8)?;
    out.extend_from_slice(bytes)
}

fn put_optional(out: &mut Vec<u8>, value: &Option<Value>) -> Result<(), AllocError>
    ensures { OnOk result (out.new.items ≡ out.old.items ++ spelling.optional value.now) }
{
    match value {
        None => Ok(out.push(0)?),
        Some(value) => {
            out.push(1)?;
            put_value(out, value)
        }
    }
}

pub fn put_holding(out: &mut Vec<u8>, holding: &Holding) -> Result<(), AllocError>
    ensures { OnOk result (out.new.items ≡ out.old.items ++ spelling.holding holding.now) }
{
    put_span_and_mode(out, holding.span, holding.mode)?;
    put_optional(out, &holding.value)
}

fn put_each(out: &mut Vec<u8>, holdings: &[Holding]) -> Result<(), AllocError>
    ensures { OnOk result (out.new.items
        ≡ out.old.items ++ flat_map spelling.holding holdings.now) }
{
    for holding in holdings {
        put_holding(out, holding)?;
    }
    Ok(())
}

pub fn put_holdings(out: &mut Vec<u8>, holdings: &Holdings) -> Result<(), AllocError>
    ensures { OnOk result (out.new.items ≡ out.old.items ++ spelling.holdings holdings.now) }
{
    let list = holdings.as_slice();
    out.push(list.len() as u8)?;
    put_each(out, list)
}

/// The head of a message of this kind.
pub fn put_head(
    out: &mut Vec<u8>,
    kind: u8,
    client: u64,
    incarnation: u64,
) -> Result<(), AllocError>
    ensures { OnOk result (out.new.items ≡ out.old.items
        ++ (1 ∷ kind ∷ spelling.number client ++ spelling.number incarnation)) }
{
    out.push(VERSION)?;
    out.push(kind)?;
    put_number(out, client)?;
    put_number(out, incarnation)
}
