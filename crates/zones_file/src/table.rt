//! The types and the transitions of a file.
ghost use Rattle.std.specs.Prelude.{◌≡◌, ◌<◌, length, IsTrue, IfOk, OnOk};
ghost use Rattle.std.specs.Result.{result_err};
ghost use Rattle.zones_clock.specs.Steps.{IsOffset};
ghost use Rattle.zones_file.specs.Layout.{IsLaidOut};
ghost use Rattle.zones_file.specs.Table.{type_in, time_in, step_in, steps_in, letters_in};
ghost use Rattle.zones_file.specs.Faults.{Tells, is_after, is_offset, type_fault, step_fault, table_fault};

use crate::bytes::{int_at, long_at};
use crate::fault::ZoneFault;
use crate::layout::Layout;
use std::alloc::Global;
use zones_clock::{OFFSET_BOUND, Step, Zone};

/// A local time type: how many seconds a clock is ahead of UTC, and the place of its abbreviation.
#[derive(Clone, Copy)]
pub(crate) struct LocalType {
    pub(crate) offset: i32,
    pub(crate) name: u16,
}

// Whether an offset is less than 26 hours.
fn is_offset(offset: i32) -> bool
    ensures { result ≡ is_offset offset }
{
    i64::from(offset) > -OFFSET_BOUND && i64::from(offset) < OFFSET_BOUND
}

// A type, if it is there.
#[tactic(auto, unfolding(crate::specs::Faults::type_fault))]
fn read_type(bytes: &[u8], layout: Layout, index: usize) -> Result<LocalType, ZoneFault>
    requires { IsLaidOut layout (length bytes.now) }
    ensures value { IfOk result (λ local. local ≡ type_in bytes.now layout index) }
    ensures fault { result_err result ≡ type_fault bytes.now layout index }
    ensures offset { IfOk result (λ local. IsOffset local.offset) }
{
    if index >= layout.type_count {
        return Err(ZoneFault::UnknownType);
    }
    let place = layout.types + index * 6;
    let name = u16::from(bytes[place + 5]);
    if usize::from(name) >= layout.letter_count {
        return Err(ZoneFault::UnknownType);
    }
    let offset = int_at(bytes, place);
    if !is_offset(offset) {
        return Err(ZoneFault::Offset);
    }
    Ok(LocalType { offset, name })
}

// The instant of a transition.
fn time_at(bytes: &[u8], layout: Layout, index: usize) -> i64
    requires laid { IsLaidOut layout (length bytes.now) }
    requires index { index < layout.step_count }
    ensures { result ≡ time_in bytes.now layout index }
{
    if layout.time_size == 4 {
        i64::from(int_at(bytes, layout.times + index * 4))
    } else {
        long_at(bytes, layout.times + index * 8)
    }
}

// Whether a transition comes after the one before it, if there is one.
fn is_after(bytes: &[u8], layout: Layout, index: usize) -> bool
    requires laid { IsLaidOut layout (length bytes.now) }
    requires index { index < layout.step_count }
    ensures { result ≡ is_after bytes.now layout index }
{
    index == 0 || time_at(bytes, layout, index - 1) < time_at(bytes, layout, index)
}

// A transition.
#[tactic(auto, unfolding(crate::specs::Faults::step_fault))]
fn read_step(bytes: &[u8], layout: Layout, index: usize) -> Result<Step, ZoneFault>
    requires laid { IsLaidOut layout (length bytes.now) }
    requires index { index < layout.step_count }
    ensures value { IfOk result (λ step. step ≡ step_in bytes.now layout index) }
    ensures fault { result_err result ≡ step_fault bytes.now layout index }
    ensures offset { IfOk result (λ step. IsOffset step.offset) }
    ensures after { OnOk result (IsTrue (is_after bytes.now layout index)) }
{
    let local = read_type(bytes, layout, usize::from(bytes[layout.indexes + index]))?;
    if !is_after(bytes, layout, index) {
        return Err(ZoneFault::Order);
    }
    Ok(Step {
        from: time_at(bytes, layout, index),
        offset: local.offset,
        name: local.name,
    })
}

// The zone of a table alone.
pub(crate) fn read_table(alloc: Global, bytes: &[u8], layout: Layout) -> Result<Zone, ZoneFault>
    requires { IsLaidOut layout (length bytes.now) }
    ensures first { IfOk result (λ zone. zone.first ≡ (type_in bytes.now layout 0).offset) }
    ensures first_name { IfOk result (λ zone. zone.first_name ≡ (type_in bytes.now layout 0).name) }
    ensures steps { IfOk result (λ zone. zone.steps.items ≡ steps_in bytes.now layout layout.step_count) }
    ensures letters { IfOk result (λ zone. zone.letters.items ≡ letters_in bytes.now layout) }
    ensures fault { Tells result (table_fault bytes.now layout) }
{
    let first = read_type(bytes, layout, 0)?;
    let letters = bytes[layout.letters..layout.letters + layout.letter_count].to_vec(alloc)?;
    let mut zone = Zone::fixed(alloc, first.offset, first.name, letters);
    for index in 0..layout.step_count {
        let step = read_step(bytes, layout, index)?;
        zone.push(step)?;
    }
    Ok(zone)
}
