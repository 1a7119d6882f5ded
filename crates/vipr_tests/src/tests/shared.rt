//! Values and their clones.
use super::same;
use std::alloc::Global;
use std::process::Abort;
use vipr_shared::Shared;

fn seven(rt: &impl Abort, alloc: Global) -> Shared<u32> {
    Shared::new(alloc, 7).expect(rt, "a value")
}

fn is_one(rt: &impl Abort, left: &Shared<u32>, right: &Shared<u32>, wanted: bool) {
    same(rt, left.is_one(right), wanted);
}

fn clones(rt: &impl Abort, first: &Shared<u32>, clone: &Shared<u32>, second: &Shared<u32>) {
    is_one(rt, first, clone, true);
    is_one(rt, clone, first, true);
    is_one(rt, first, first, true);
    is_one(rt, first, second, false);
    is_one(rt, second, clone, false);
    is_one(rt, first, clone, true);
}

#[test]
fn a_value_and_its_clone_are_one(rt: HostRuntime) {
    let first = seven(&rt, rt.alloc());
    let second = seven(&rt, rt.alloc());
    let clone = first.clone().expect(&rt, "a clone");
    clones(&rt, &first, &clone, &second);
    drop((first, second, clone));
}
