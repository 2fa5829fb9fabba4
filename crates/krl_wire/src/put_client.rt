//! Messages to a client, written.
ghost use Rattle.std.specs.Prelude.{◌≡◌, ◌++◌, [], ◌∷◌, IfOk, OnOk};
ghost use Rattle.krl_wire.specs.Spelling as spelling;

use crate::kinds::{ABSENT, ANSWER, CALLBACK, EPOCH, GRANT};
use crate::put_fields::{put_head, put_holding, put_holdings, put_number, put_span_and_mode};
use krl_messages::{Outcome, PushBody, ToClient, ToClientBody};
use krl_modes::{Mode, Span};
use std::alloc::{AllocError, Global};

// A room for each message but a grant of many holdings, so that none of them is moved while it is spelled.
const ROOM: usize = 96;

fn outcome_tag(outcome: Outcome) -> u8
    ensures { result ≡ spelling.outcome_tag outcome }
{
    outcome as u8
}

fn push_kind(body: &PushBody) -> u8
    ensures { result ≡ spelling.push_kind body.now }
{
    match body {
        PushBody::Grant { .. } => GRANT,
        PushBody::Absent { .. } => ABSENT,
        PushBody::Answer { .. } => ANSWER,
    }
}

fn to_client_kind(body: &ToClientBody) -> u8
    ensures { result ≡ spelling.to_client_kind body.now }
{
    match body {
        ToClientBody::Epoch { .. } => EPOCH,
        ToClientBody::Push { body, .. } => push_kind(body),
        ToClientBody::Callback { .. } => CALLBACK,
    }
}

fn put_push_body(out: &mut Vec<u8>, body: &PushBody) -> Result<(), AllocError>
    ensures { OnOk result (out.new.items ≡ out.old.items ++ spelling.push_body body.now) }
{
    match body {
        PushBody::Grant { req, holdings } => {
            put_number(out, *req)?;
            put_holdings(out, holdings)
        }
        PushBody::Absent { req, point } => {
            put_number(out, *req)?;
            put_number(out, *point)
        }
        PushBody::Answer {
            number,
            outcome,
            holding,
        } => {
            put_number(out, *number)?;
            out.push(outcome_tag(*outcome))?;
            put_holding(out, holding)
        }
    }
}

fn put_push(out: &mut Vec<u8>, epoch: u64, number: u64, body: &PushBody) -> Result<(), AllocError>
    ensures { OnOk result (out.new.items ≡ out.old.items
        ++ (spelling.number epoch ++ spelling.number number ++ spelling.push_body body.now)) }
{
    put_number(out, epoch)?;
    put_number(out, number)?;
    put_push_body(out, body)
}

fn put_callback(out: &mut Vec<u8>, epoch: u64, span: Span, keep: Mode) -> Result<(), AllocError>
    ensures { OnOk result (out.new.items ≡ out.old.items
        ++ (spelling.number epoch ++ spelling.span span ++ spelling.mode_tag keep ∷ [])) }
{
    put_number(out, epoch)?;
    put_span_and_mode(out, span, keep)
}

fn put_to_client_body(out: &mut Vec<u8>, body: &ToClientBody) -> Result<(), AllocError>
    ensures { OnOk result (out.new.items ≡ out.old.items ++ spelling.to_client_body body.now) }
{
    match body {
        ToClientBody::Epoch { epoch } => put_number(out, *epoch),
        ToClientBody::Push {
            epoch,
            number,
            body,
        } => put_push(out, *epoch, *number, body),
        ToClientBody::Callback { epoch, span, keep } => put_callback(out, *epoch, *span, *keep),
    }
}

fn put_to_client(out: &mut Vec<u8>, message: &ToClient) -> Result<(), AllocError>
    ensures { OnOk result (out.new.items ≡ out.old.items ++ spelling.to_client message.now) }
{
    put_head(
        out,
        to_client_kind(&message.body),
        message.client,
        message.incarnation,
    )?;
    put_to_client_body(out, &message.body)
}

/// The message's spelling.
///
/// # Errors
///
/// `AllocError` if memory is refused.
pub fn spell_to_client(alloc: Global, message: &ToClient) -> Result<Vec<u8>, AllocError>
    ensures { IfOk result (λ bytes. bytes.items ≡ spelling.to_client message.now) }
{
    let mut out = Vec::with_capacity(alloc, ROOM)?;
    put_to_client(&mut out, message)?;
    Ok(out)
}
