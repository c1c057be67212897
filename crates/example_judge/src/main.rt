//! A caller of the judge of plans. It reads a timetable and the document behind it, and prints what the plan costs or
//! what is wrong with it first. No crate of the search stands below it.
#![tactic(auto)]

ghost use Rattle.std.specs.Prelude.{◌≤◌, length, IfOk};
ghost use Rattle.vs_reader.specs.declared.limits.TheConstants.{MAX_BYTES};
ghost use Rattle.vs_rows.specs.RowForms.{IsInput};

use std::alloc::Global;
use std::io;
use vs_io::{StdSource, slurp};
use vs_plan::{PlanError, judge};
use vs_reader::{Input, MAX_BYTES, ReadError};

fn main(rt: HostRuntime) -> io::Result<()> {
    let mut input = StdSource::new(rt.stdin());
    match slurp(rt.alloc(), &mut input, MAX_BYTES as u64) {
        Ok(text) => tell(&rt, rt.alloc(), &text),
        Err(error) => println!(rt; "not read: {error:?}"),
    }
}

/// Prints what the text's plan costs, or why it is none.
fn tell<R: Print>(rt: &R, alloc: Global, text: &[u8]) -> io::Result<()>
    requires { length text.now ≤ MAX_BYTES }
{
    let input = match timetable_of(alloc, text) {
        Ok(input) => input,
        Err(error) => return println!(rt; "no timetable: {error:?}"),
    };
    let document = match vs_document::read(alloc, &input) {
        Ok(document) => document,
        Err(error) => return println!(rt; "no document: {error:?}"),
    };
    match judge(alloc, &input.instance, &document.plan) {
        Ok(cost) => println!(rt; "a plan that costs {cost}"),
        Err(PlanError::Fault(fault)) => println!(rt; "no plan: {fault:?}"),
        Err(PlanError::Memory) => println!(rt; "no memory"),
    }
}

/// The timetable, with its names and the rows behind it.
fn timetable_of(alloc: Global, text: &[u8]) -> Result<Input, ReadError>
    requires { length text.now ≤ MAX_BYTES }
    ensures { IfOk result IsInput }
{
    match vs_reader::read(alloc, text) {
        Ok(input) => Ok(input),
        Err(error) => Err(error),
    }
}
