//! Messages in a few words, and as a whole.
use krl_messages::{
    Holding, Outcome, Pieces, PushBody, Request, RequestBody, ToClient, ToClientBody, ToServer,
    ToServerBody, Value, WriteOp,
};
use krl_modes::Span;
use std::alloc::{AllocError, Global};

/// What a picture shows of a message.
#[derive(Drop)]
pub struct Label {
    /// It in a few words.
    pub short: String,
    /// It as a whole.
    pub whole: String,
    /// It only joins, or acknowledges.
    pub is_quiet: bool,
}

fn outcome_name(outcome: Outcome) -> &'static str {
    match outcome {
        Outcome::Applied => "Applied",
        Outcome::Exists => "Exists",
        Outcome::Absent => "Absent",
        Outcome::NotHeld => "NotHeld",
        Outcome::Full => "Full",
    }
}

// A write in a few words. `Take` is one that seizes the lock that it needs.
fn write_label(
    alloc: Global,
    number: u64,
    op: &WriteOp,
    seizes: bool,
) -> Result<String, AllocError> {
    let how = if seizes { "Take" } else { "Write" };
    match op {
        WriteOp::Insert { key, .. } => format!(in alloc; "{how} {number}: insert {key}"),
        WriteOp::Put { key, .. } => format!(in alloc; "{how} {number}: put {key}"),
        WriteOp::Delete { key } => format!(in alloc; "{how} {number}: delete {key}"),
    }
}

fn request_label(alloc: Global, request: &Request) -> Result<String, AllocError> {
    match &request.body {
        RequestBody::Lock {
            req,
            point,
            mode,
            ..
        } => format!(in alloc; "Lock {req}: {point} {}", mode.name()),
        RequestBody::Write { number, op, seizes } => write_label(alloc, *number, op, *seizes),
        RequestBody::Release { span, mode } => {
            format!(in alloc; "Release {}: {}", span.lo(), mode.name())
        }
        RequestBody::Ack => format!(in alloc; "Ack {}", request.seen),
    }
}

// A message to the server in a few words.
fn to_server(alloc: Global, message: &ToServer) -> Result<String, AllocError> {
    match &message.body {
        ToServerBody::Hello => format!(in alloc; "Hello"),
        ToServerBody::Bye => format!(in alloc; "Bye"),
        ToServerBody::Report { epoch, .. } => format!(in alloc; "Report in epoch {epoch}"),
        ToServerBody::Request(request) => request_label(alloc, request),
    }
}

fn granted(alloc: Global, holdings: &[Holding]) -> Result<String, AllocError> {
    match holdings.first() {
        Some(first) if holdings.len() == 1 => format!(in alloc; "Grant {}", first.mode.name()),
        Some(first) => format!(in alloc; "Grant {} x {}", first.mode.name(), holdings.len()),
        None => format!(in alloc; "Grant"),
    }
}

fn push_label(alloc: Global, number: u64, body: &PushBody) -> Result<String, AllocError> {
    match body {
        PushBody::Grant { holdings, .. } => {
            let what = granted(alloc, holdings.as_slice())?;
            format!(in alloc; "Push {number}: {what}")
        }
        PushBody::Absent { point, .. } => format!(in alloc; "Push {number}: Absent {point}"),
        PushBody::Answer { outcome, .. } => {
            format!(in alloc; "Push {number}: {}", outcome_name(*outcome))
        }
    }
}

// A message to a client in a few words.
fn to_client(alloc: Global, message: &ToClient) -> Result<String, AllocError> {
    match &message.body {
        ToClientBody::Epoch { epoch } => format!(in alloc; "Epoch {epoch}"),
        ToClientBody::Push { number, body, .. } => push_label(alloc, *number, body),
        ToClientBody::Callback { span, keep, .. } => {
            format!(in alloc; "Callback {}: {}", span.lo(), keep.name())
        }
    }
}

fn push_span(alloc: Global, out: &mut String, span: Span) -> Result<(), AllocError> {
    let (lo, hi) = (span.lo(), span.hi());
    let text = format!(in alloc; " {lo}..{hi}")?;
    out.push_str(&text)
}

// A value: a number if it is one, and otherwise its bytes.
fn push_value(alloc: Global, out: &mut String, value: &Value) -> Result<(), AllocError> {
    out.push('=')?;
    if let Some(number) = value.as_u64() {
        let text = format!(in alloc; "{number}")?;
        return out.push_str(&text);
    }
    for byte in value.bytes() {
        let shown = if byte.is_ascii_graphic() { *byte } else { b'.' };
        out.push(shown as char)?;
    }
    Ok(())
}

fn push_holdings(alloc: Global, out: &mut String, holdings: &[Holding]) -> Result<(), AllocError> {
    for holding in holdings {
        out.push_str(",")?;
        push_span(alloc, out, holding.span)?;
        out.push_str(" ")?;
        out.push_str(holding.mode.name())?;
        if let Some(value) = &holding.value {
            push_value(alloc, out, value)?;
        }
    }
    Ok(())
}

fn push_pieces(alloc: Global, out: &mut String, pieces: &Pieces) -> Result<(), AllocError> {
    for piece in pieces.ranges.as_slice() {
        out.push_str(",")?;
        push_span(alloc, out, piece.span)?;
        out.push_str(" ")?;
        out.push_str(piece.part.name())?;
    }
    for piece in pieces.keys.as_slice() {
        let (point, part) = (piece.point, piece.part.name());
        let text = format!(in alloc; ", {point} {part}")?;
        out.push_str(&text)?;
    }
    Ok(())
}

fn push_write(alloc: Global, out: &mut String, op: &WriteOp) -> Result<(), AllocError> {
    match op {
        WriteOp::Insert { value, .. } | WriteOp::Put { value, .. } => {
            push_value(alloc, out, value)
        }
        WriteOp::Delete { .. } => Ok(()),
    }
}

// What the few words leave out of a message to the server.
fn push_rest(alloc: Global, out: &mut String, body: &ToServerBody) -> Result<(), AllocError> {
    match body {
        ToServerBody::Hello | ToServerBody::Bye => Ok(()),
        ToServerBody::Report { pieces, .. } => push_pieces(alloc, out, pieces),
        ToServerBody::Request(request) => match &request.body {
            RequestBody::Lock { hi, .. } => {
                let text = format!(in alloc; ", below {hi}")?;
                out.push_str(&text)
            }
            RequestBody::Write { op, .. } => push_write(alloc, out, op),
            RequestBody::Release { span, .. } => push_span(alloc, out, *span),
            RequestBody::Ack => Ok(()),
        },
    }
}

impl Label {
    /// What a picture shows of this message to the server.
    pub fn of_message_to_server(alloc: Global, message: &ToServer) -> Result<Label, AllocError> {
        let is_quiet = match &message.body {
            ToServerBody::Hello => true,
            ToServerBody::Request(request) => matches!(request.body, RequestBody::Ack),
            ToServerBody::Bye | ToServerBody::Report { .. } => false,
        };
        let mut whole = to_server(alloc, message)?;
        push_rest(alloc, &mut whole, &message.body)?;
        Ok(Label {
            short: to_server(alloc, message)?,
            whole,
            is_quiet,
        })
    }

    /// What a picture shows of this message to a client.
    pub fn of_message_to_client(alloc: Global, message: &ToClient) -> Result<Label, AllocError> {
        let mut whole = to_client(alloc, message)?;
        match &message.body {
            ToClientBody::Push { body, .. } => {
                if let PushBody::Grant { holdings, .. } = body {
                    push_holdings(alloc, &mut whole, holdings.as_slice())?;
                }
            }
            ToClientBody::Callback { span, .. } => push_span(alloc, &mut whole, *span)?,
            ToClientBody::Epoch { .. } => {}
        }
        Ok(Label {
            short: to_client(alloc, message)?,
            whole,
            is_quiet: matches!(message.body, ToClientBody::Epoch { .. }),
        })
    }
}
