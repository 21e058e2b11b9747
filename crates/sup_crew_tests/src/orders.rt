//! Results come in the order of the jobs, which may borrow.
ghost use Rattle.std.specs.Prelude.{◌≡◌, ⊤, ◌*◌, length};

use sup_crew::{Work, run_all};

struct Doubles;

impl Work<u32, u64> for Doubles {
    ghost takes = { λ work job. ⊤ };

    ghost gives = { λ work job done. done ≡ 2 * job };

    fn run(&self, job: u32) -> u64 {
        2 * job as u64
    }
}

struct Lengths;

impl<'a> Work<&'a [u8], usize> for Lengths {
    ghost takes = { λ work job. ⊤ };

    ghost gives = { λ work job done. done ≡ length job.now };

    fn run(&self, job: &'a [u8]) -> usize {
        job.len()
    }
}

#[test]
fn results_come_in_the_order_of_the_jobs(rt: HostRuntime) {
    let jobs = [5, 3, 9, 1, 3].to_vec(rt.alloc()).expect(&rt, "room");
    let done = run_all(&rt, rt.alloc(), jobs, &Doubles).expect(&rt, "room");
    assert!(rt; done.as_slice() == [10, 6, 18, 2, 6].as_slice());
}

#[test]
fn of_no_jobs_there_are_no_results(rt: HostRuntime) {
    let jobs: Vec<u32> = Vec::new(rt.alloc());
    let done = run_all(&rt, rt.alloc(), jobs, &Doubles).expect(&rt, "room");
    assert!(rt; done.is_empty());
}

#[test]
fn a_job_may_borrow(rt: HostRuntime) {
    let bytes = [1, 2, 3, 4, 5];
    let (front, back) = bytes.split_at(2);
    let jobs = [front, back].to_vec(rt.alloc()).expect(&rt, "room");
    let done = run_all(&rt, rt.alloc(), jobs, &Lengths).expect(&rt, "room");
    assert!(rt; done.as_slice() == [2, 3].as_slice());
}
