//! Holdings, read.
ghost use Rattle.std.specs.Prelude.{◌≤◌};
ghost use Rattle.krl_wire.specs.Reading.{Reads, ReadsIfRoom, holding_at, holding_from, holdings_from};
ghost use Rattle.krl_wire.specs.Reading.{holdings_at};

use crate::fault::{Fault, ReadError};
use crate::reader::Reader;
use krl_messages::{Gathering, Holding, Holdings};
use std::alloc::Global;

#[tactic(auto, unfolding(crate::specs::Reading::holding_at))]
pub fn holding(reader: &mut Reader<'_>) -> Result<Holding, Fault>
    ensures { Reads result reader.new (holding_at reader.old) }
{
    let span = reader.span()?;
    let mode = reader.mode()?;
    let value = reader.optional_value()?;
    Ok(Holding { span, mode, value })
}

// A holding that begins at this point or later.
#[tactic(auto, unfolding(crate::specs::Reading::holding_from))]
fn holding_from(reader: &mut Reader<'_>, least: u64) -> Result<Holding, Fault>
    ensures { Reads result reader.new (holding_from least reader.old) }
{
    let holding = holding(reader)?;
    if holding.span.lo() < least {
        return Err(Fault::Order);
    }
    Ok(holding)
}

// So many holdings, each after the one before.
fn several(reader: &mut Reader<'_>, alloc: Global, count: u8) -> Result<Holdings, ReadError>
    requires some { 1 ≤ count }
    requires few { count ≤ 128 }
    ensures { ReadsIfRoom result reader.new (holdings_from count 0 reader.old) }
{
    let mut gathering = Gathering::new(alloc, count as usize)?;
    let mut least = 0;
    for _ in 0..count {
        let holding = holding_from(reader, least)?;
        least = holding.span.hi();
        // Apart: the prover has to see the type of the value.
        let Holding { span, mode, value } = holding;
        gathering.push(Holding { span, mode, value });
    }
    Ok(gathering.into_holdings())
}

/// 1 to 128 holdings, each after the one before.
#[tactic(auto, unfolding(crate::specs::Reading::holdings_at))]
pub fn holdings(reader: &mut Reader<'_>, alloc: Global) -> Result<Holdings, ReadError>
    ensures { ReadsIfRoom result reader.new (holdings_at reader.old) }
{
    let count = reader.byte()?;
    if 1 <= count && count <= 128 {
        several(reader, alloc, count)
    } else {
        Err(ReadError::Fault(Fault::Count))
    }
}
