//! A scenario as a JSON value.

ghost use Rattle.std.specs.Prelude.{◌≡◌, ◌==◌, codes, IfOk, OnOk};
ghost use Rattle.serde_json.specs.Data.{string};
ghost use Rattle.serde_json.specs.View.{view, members_view};
ghost use Rattle.cmm_scenario.specs.Spelling.{op_text, event_text};
ghost use Rattle.cmm_generate.specs.Text.{whole, list, is_empty, file_tree, cpu_tree, guest_tree, scenario_tree};
ghost use Rattle.cmm_generate.specs.Puts.{put_unless, guest_puts, scenario_puts};

use crate::spelling::{event_text, op_text};
use cmm_types::{CpuPlan, Event, FilePlan, GuestPlan, Op, Scenario};
use serde_json::{Map, Value, json, put};
use std::alloc::{AllocError, Global};

/// What stands in a scenario.
trait Tree {
    ghost use Rattle.serde_json.specs.Data.{Data};

    // The JSON value.
    ghost tree: { Self → Data };

    fn to_value(&self, alloc: Global) -> Result<Value, AllocError>
        ensures { IfOk result (λ value. view value ≡ tree self.now) };
}

fn list_of<T: Tree>(alloc: Global, items: &[T]) -> Result<Value, AllocError>
    ensures { IfOk result (λ value. view value ≡ list T.Tree.tree items.now) }
{
    let mut values = Vec::new(alloc);
    for item in items {
        values.push(item.to_value(alloc)?)?;
    }
    Ok(Value::Array(values))
}

impl Tree for u32 {
    ghost tree = { λ number. whole number };

    fn to_value(&self, _alloc: Global) -> Result<Value, AllocError> {
        Ok(Value::from(*self))
    }
}

impl Tree for Op {
    ghost tree = { λ op. string (op_text op) };

    fn to_value(&self, alloc: Global) -> Result<Value, AllocError> {
        Ok(Value::String(op_text(alloc, self)?))
    }
}

impl Tree for Event {
    ghost tree = { λ event. string (event_text event) };

    fn to_value(&self, alloc: Global) -> Result<Value, AllocError> {
        Ok(Value::String(event_text(alloc, *self)?))
    }
}

impl Tree for FilePlan {
    ghost tree = { λ plan. file_tree plan };

    fn to_value(&self, alloc: Global) -> Result<Value, AllocError> {
        let head = hex::encode(alloc, self.head.as_slice())?;
        json!(in alloc; {"head": head, "pages": self.pages})
    }
}

impl Tree for CpuPlan {
    ghost tree = { λ plan. cpu_tree plan };

    fn to_value(&self, alloc: Global) -> Result<Value, AllocError> {
        let commands = list_of(alloc, self.commands.as_slice())?;
        json!(in alloc; {"commands": commands, "process": self.process})
    }
}

/// Puts the list, unless it is empty.
fn put_list<T: Tree>(
    members: &mut Map<String, Value>,
    alloc: Global,
    key: &str,
    items: &[T],
) -> Result<(), AllocError>
    ensures { OnOk result (members_view members.new.entries
        ≡ put_unless (is_empty items.now) key.now (list T.Tree.tree items.now) (members_view members.old.entries)) }
{
    if items.is_empty() {
        return Ok(());
    }
    put(members, alloc, key, list_of(alloc, items)?)
}

/// Puts the number, unless it is 0.
fn put_number(
    members: &mut Map<String, Value>,
    alloc: Global,
    key: &str,
    number: u32,
) -> Result<(), AllocError>
    ensures { OnOk result (members_view members.new.entries
        ≡ put_unless (number == 0) key.now (whole number) (members_view members.old.entries)) }
{
    if number == 0 {
        return Ok(());
    }
    put(members, alloc, key, Value::from(number))
}

/// The members of a guest, of which the last comes first.
fn guest_members(alloc: Global, plan: &GuestPlan) -> Result<Map<String, Value>, AllocError>
    ensures { IfOk result (λ members. members_view members.entries ≡ guest_puts plan.now) }
{
    let mut members = Map::new(alloc);
    put(&mut members, alloc, "swap", Value::from(plan.swap))?;
    put(&mut members, alloc, "pages", Value::from(plan.pages))?;
    put_list(
        &mut members,
        alloc,
        "pager_fail",
        plan.pager_fail.as_slice(),
    )?;
    put(
        &mut members,
        alloc,
        "files",
        list_of(alloc, plan.files.as_slice())?,
    )?;
    put_list(&mut members, alloc, "disk_fail", plan.disk_fail.as_slice())?;
    put(
        &mut members,
        alloc,
        "cpus",
        list_of(alloc, plan.cpus.as_slice())?,
    )?;
    Ok(members)
}

fn guest_value(alloc: Global, plan: &GuestPlan) -> Result<Value, AllocError>
    ensures { IfOk result (λ value. view value ≡ guest_tree plan.now) }
{
    let members = guest_members(alloc, plan)?;
    Ok(Value::Object(members))
}

impl Tree for GuestPlan {
    ghost tree = { λ plan. guest_tree plan };

    fn to_value(&self, alloc: Global) -> Result<Value, AllocError> {
        guest_value(alloc, self)
    }
}

/// The members of a scenario, of which the last comes first.
fn scenario_members(alloc: Global, plan: &Scenario) -> Result<Map<String, Value>, AllocError>
    ensures { IfOk result (λ members. members_view members.entries ≡ scenario_puts plan.now) }
{
    let mut members = Map::new(alloc);
    put(&mut members, alloc, "version", Value::from(1u32))?;
    put_list(&mut members, alloc, "schedule", plan.schedule.as_slice())?;
    put_number(&mut members, alloc, "reclaimers", plan.reclaimers)?;
    put_list(
        &mut members,
        alloc,
        "pager_fail",
        plan.pager_fail.as_slice(),
    )?;
    put(
        &mut members,
        alloc,
        "guests",
        list_of(alloc, plan.guests.as_slice())?,
    )?;
    put(&mut members, alloc, "frames", Value::from(plan.frames))?;
    Ok(members)
}

pub fn scenario_value(alloc: Global, plan: &Scenario) -> Result<Value, AllocError>
    ensures { IfOk result (λ value. view value ≡ scenario_tree plan.now) }
{
    let members = scenario_members(alloc, plan)?;
    Ok(Value::Object(members))
}
