//! A plan from its text to the printed answers.
ghost use Rattle.std.specs.Prelude.{◌<◌};

use console::{Report, Session};
use std::test::Fail;

const PLAN: &[u8] =
    b"(task 0 20)\n(board fixed 8)\n(component 20 (budget 3 20))\n(component 20 (budget 4 40))\n(task 0 20)\n(use 0 15 3)\n(lock 0)\n(use 0 0 4)";

const ANSWERS: &[u8] = b"(no 1)\n(ok)\n(ok 0)\n(no 4)\n(ok 0)\n(ok)\n(form 7 1 32)\n(no 12)\n";

// What is printed of the plan, fed in pieces of this size, and its report.
fn printed(rt: &HostRuntime, size: usize) -> Result<(Vec<u8>, Report), Fail>
    requires { 0 < size }
{
    let mut out = Vec::new(rt.alloc());
    let mut session = Session::new();
    for piece in PLAN.chunks(size) {
        session.feed(piece, &mut out)?;
    }
    let report = session.finish(&mut out)?;
    Ok((out, report))
}

#[test]
fn a_plan_is_answered(rt: HostRuntime) -> Result<(), Fail> {
    let (out, _report) = printed(&rt, 1000)?;
    assert!(rt; out.as_slice() == ANSWERS);
    Ok(())
}

#[test]
fn pieces_make_no_difference(rt: HostRuntime) -> Result<(), Fail> {
    let (out, _report) = printed(&rt, 1)?;
    assert!(rt; out.as_slice() == ANSWERS);
    Ok(())
}

#[test]
fn the_report_counts(rt: HostRuntime) -> Result<(), Fail> {
    let (mut out, report) = printed(&rt, 1000)?;
    out.clear();
    report.write(b"plan.txt", &mut out)?;
    assert!(rt;
        out.as_slice()
            == b"plan.txt: lines 8, accepted 4, refused 3, unreadable 1; components 1, tasks 1, uses 1\n".as_slice()
    );
    Ok(())
}
