//! The order-kept line by example.
use line::{Job, Line, Refill};
use refusals::Refusal;

fn job(due: u64, component: u8, task: u8) -> Job {
    Job {
        due,
        component,
        task,
    }
}

fn refill(due: u64, component: u8) -> Refill {
    Refill { due, component }
}

#[test]
fn jobs_stand_by_due_time_then_component_then_task(rt: HostRuntime) {
    let mut places = [job(0, 0, 0); 5];
    let mut line = Line::new();
    assert_eq!(rt; line.add(&mut places, job(20, 1, 0)), Ok(()));
    assert_eq!(rt; line.add(&mut places, job(10, 7, 7)), Ok(()));
    assert_eq!(rt; line.add(&mut places, job(20, 0, 5)), Ok(()));
    assert_eq!(rt; line.add(&mut places, job(20, 0, 4)), Ok(()));
    assert!(rt; line.len() == 4);
    assert_eq!(rt; line.read(&places, 0), Ok(job(10, 7, 7)));
    assert_eq!(rt; line.read(&places, 1), Ok(job(20, 0, 4)));
    assert_eq!(rt; line.read(&places, 2), Ok(job(20, 0, 5)));
    assert_eq!(rt; line.read(&places, 3), Ok(job(20, 1, 0)));
    assert!(rt; line.records(&places).len() == 4);
}

#[test]
fn refills_stand_by_due_time_then_component(rt: HostRuntime) {
    let mut places = [refill(0, 0); 3];
    let mut line = Line::new();
    assert_eq!(rt; line.add(&mut places, refill(40, 7)), Ok(()));
    assert_eq!(rt; line.add(&mut places, refill(40, 0)), Ok(()));
    assert_eq!(rt; line.add(&mut places, refill(40, 1)), Ok(()));
    assert_eq!(rt; line.take(&mut places, 0), Ok(refill(40, 0)));
    assert_eq!(rt; line.add(&mut places, refill(39, 6)), Ok(()));
    assert_eq!(rt; line.read(&places, 0), Ok(refill(39, 6)));
    assert_eq!(rt; line.read(&places, 1), Ok(refill(40, 1)));
    assert_eq!(rt; line.read(&places, 2), Ok(refill(40, 7)));
}

#[test]
fn a_full_line_takes_no_more_until_a_place_is_free(rt: HostRuntime) {
    let mut places = [job(0, 0, 0); 2];
    let mut line = Line::new();
    assert_eq!(rt; line.add(&mut places, job(3, 0, 0)), Ok(()));
    assert_eq!(rt; line.add(&mut places, job(1, 0, 1)), Ok(()));
    assert_eq!(rt; line.add(&mut places, job(2, 0, 2)), Err(Refusal::LineFull));
    assert_eq!(rt; line.read(&places, 1), Ok(job(3, 0, 0)));
    assert_eq!(rt; line.take(&mut places, 0), Ok(job(1, 0, 1)));
    assert_eq!(rt; line.add(&mut places, job(2, 0, 2)), Ok(()));
    assert_eq!(rt; line.read(&places, 0), Ok(job(2, 0, 2)));
    assert_eq!(rt; line.read(&places, 1), Ok(job(3, 0, 0)));
    let mut none: [Job; 0] = [];
    assert_eq!(rt;
        Line::new().add(&mut none, job(1, 1, 1)),
        Err(Refusal::LineFull)
    );
}

#[test]
fn there_is_nothing_past_the_last_record(rt: HostRuntime) {
    let mut places = [job(0, 0, 0); 3];
    let mut line = Line::new();
    assert_eq!(rt; line.read(&places, 0), Err(Refusal::PastEnd));
    assert_eq!(rt; line.take(&mut places, 0), Err(Refusal::PastEnd));
    assert_eq!(rt; line.add(&mut places, job(5, 0, 0)), Ok(()));
    assert_eq!(rt; line.add(&mut places, job(6, 0, 1)), Ok(()));
    assert_eq!(rt; line.read(&places, 2), Err(Refusal::PastEnd));
    assert_eq!(rt; line.take(&mut places, usize::MAX), Err(Refusal::PastEnd));
    assert_eq!(rt; line.take(&mut places, 1), Ok(job(6, 0, 1)));
    assert_eq!(rt; line.take(&mut places, 1), Err(Refusal::PastEnd));
    assert!(rt; line.len() == 1);
}

// With another slice than the one that it wrote, the line still answers.
#[test]
fn a_shorter_slice_is_safe(rt: HostRuntime) {
    let mut places = [job(0, 0, 0); 3];
    let mut line = Line::new();
    assert_eq!(rt; line.add(&mut places, job(5, 0, 0)), Ok(()));
    assert_eq!(rt; line.add(&mut places, job(6, 0, 1)), Ok(()));
    let mut short = [job(9, 3, 3); 1];
    assert_eq!(rt; line.add(&mut short, job(7, 0, 2)), Err(Refusal::LineFull));
    assert_eq!(rt; line.read(&short, 1), Err(Refusal::PastEnd));
    assert_eq!(rt; line.take(&mut short, 0), Ok(job(9, 3, 3)));
    assert!(rt; line.len() == 0);
}
