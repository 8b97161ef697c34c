//! The commands that the worked rows lack, over the store.
use super::rows::FIRST;
use super::{all_run_in_turn, runs_in_memory};
use crate::fixtures::check;
use ring_words::Limits;
use std::test::Fail;
use test_fixtures::rows::WorkedRow;

/// What comes behind the first rebalance of two devices, and a repeat.
static REST: [WorkedRow<'static>; 11] = [
    (
        0,
        20,
        "'do':'import','rows':[[1,1,'10.0.0.3',6200,'d2','50.00'],[1,1,'10.0.0.1',6200,'d0','75.00']]",
        "200 {'added':1,'done':'import','reweighted':1,'version':4}",
    ),
    (
        0,
        21,
        "'do':'set_weight','id':1,'weight':'25.00'",
        "200 {'done':'set_weight','version':5}",
    ),
    (
        0,
        22,
        "'do':'publish'",
        "200 {'done':'publish','version':5}",
    ),
    (
        0,
        23,
        "'do':'raise_power'",
        "200 {'done':'raise_power','version':6}",
    ),
    (
        0,
        24,
        "'do':'set_hours','min_hours':1",
        "200 {'done':'set_hours','version':7}",
    ),
    (
        0,
        25,
        "'do':'pretend_passed'",
        "200 {'done':'pretend_passed','version':8}",
    ),
    (
        0,
        26,
        "'do':'remove','id':2",
        "200 {'done':'remove','version':9}",
    ),
    (
        0,
        27,
        "'do':'publish'",
        "200 {'done':'publish','version':9}",
    ),
    (
        0,
        28,
        "'do':'keep','id':2",
        "200 {'done':'keep','version':10}",
    ),
    (
        0,
        29,
        "'do':'rebalance_as','hour':0,'seed':7,'version':11",
        "200 {'balance':2500,'changed':3,'dispersion':0,'done':'rebalance_as','version':11}",
    ),
    (
        0,
        22,
        "'do':'publish'",
        "200 {'done':'publish','version':5}",
    ),
];

#[test]
fn each_command_is_kept_in_the_store(rt: HostRuntime) -> Result<(), Fail> {
    let runs: [&[WorkedRow]; 2] = [&FIRST, &REST];
    check(runs_in_memory(rt.alloc(), Limits::full(), &runs))
}

#[test]
fn each_command_is_found_where_its_file_is_opened_again(rt: HostRuntime) -> Result<(), Fail> {
    let runs: [&[WorkedRow]; 4] = [&FIRST, &REST, &FIRST, &REST];
    check(all_run_in_turn(rt.alloc(), &runs))
}
