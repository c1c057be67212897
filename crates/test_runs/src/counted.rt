//! Plans of small timetables in which vehicles rest, compared with a plain count of all plans.

use crate::audited::audit;
use mdvsp::Status;
use std::alloc::Global;
use std::process::Abort;
use std::sync::Wait;
use std::test::Fail;
use std::thread::Threads;
use test_fixtures::small::{Small, least_cost, made, text_of};
use vs_crew::NoGate;

/// How many small timetables are drawn.
const DRAWN: u64 = 40;

/// The first rows of a document whose plan costs so much, or of one without a plan.
fn head_of(alloc: Global, cost: Option<u64>) -> Result<String, Fail> {
    match cost {
        Some(cost) => Ok(format!(in alloc; "result,1,optimal\ncost,{cost}\nbound,{cost}\n")?),
        None => Ok(String::from_str(alloc, "result,1,infeasible\ncost,none\nbound,none\n")?),
    }
}

/// The text of a small timetable, and the first rows of its document by the count of all plans.
fn counted(alloc: Global, small: &Small) -> Result<(Vec<u8>, String), Fail> {
    let head = head_of(alloc, least_cost(small))?;
    Ok((text_of(alloc, small)?, head))
}

/// A small timetable whose layers have one vehicle each, which is too few for some.
fn short(alloc: Global, number: u64) -> Result<Small, Fail> {
    let mut small = made(alloc, number)?;
    for layer in small.layers.iter_mut() {
        layer.fleet = 1;
    }
    Ok(small)
}

/// What is written for a timetable begins so, and holds.
fn is_found<R: Abort + Threads + Wait + Sync>(
    rt: &R,
    alloc: Global,
    text: &[u8],
    head: &str,
    number: u64,
) -> Result<(), Fail> {
    let words = ["solve", "--workers", "1"];
    let told = audit(rt, alloc, &words, text, text, &NoGate)?;
    let begins = told.document.starts_with(head.as_bytes());
    assert_eq!(rt; (begins, told.verdict), (true, Status::Done), "{number}");
    Ok(())
}

#[test]
fn finds_what_a_count_of_all_plans_finds(rt: HostRuntime) -> Result<(), Fail> {
    for number in 0..DRAWN {
        let small = made(rt.alloc(), number)?;
        let (text, head) = counted(rt.alloc(), &small)?;
        is_found(&rt, rt.alloc(), &text, &head, number)?;
    }
    Ok(())
}

#[test]
fn says_that_there_is_no_plan_just_where_none_is_counted(rt: HostRuntime) -> Result<(), Fail> {
    for number in 0..DRAWN {
        let small = short(rt.alloc(), number)?;
        let (text, head) = counted(rt.alloc(), &small)?;
        is_found(&rt, rt.alloc(), &text, &head, number)?;
    }
    Ok(())
}
