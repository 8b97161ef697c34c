//! Rows on a ring, in the parts that runs are put together from. They are written with `'` for `"`.
use test_fixtures::rows::{
    self, ADD_D0, ADD_D1, ADD_D2, ADD_D3, ADDED_D0, CREATED, PRETEND, REBALANCE, TOO_FEW, WorkedRow,
};

pub const PUBLISH: &str = "'do':'publish'";

const REMOVE_D0: &str = "'do':'remove','id':0";

const REMOVE_D1: &str = "'do':'remove','id':1";

// The rows that the tests of the store have too. The prover reads a constant wherever it is named, and
// a static nowhere.
static FIRST: [WorkedRow<'static>; 4] = rows::FIRST;

static REPEATED: [WorkedRow<'static>; 3] = rows::REPEATED;

static LOCKED: [WorkedRow<'static>; 2] = rows::LOCKED;

static AT_THE_HOUR: [WorkedRow<'static>; 1] = rows::AT_THE_HOUR;

static SET_ASIDE: [WorkedRow<'static>; 2] = rows::SET_ASIDE;

static REMOVAL: [WorkedRow<'static>; 3] = rows::REMOVAL;

static PAIRS: [WorkedRow<'static>; 4] = rows::PAIRS;

static FEW: [WorkedRow<'static>; 7] = rows::FEW;

static UNREACHABLE: [WorkedRow<'static>; 5] = rows::UNREACHABLE;

static REORDERED: [WorkedRow<'static>; 4] = rows::REORDERED;

static SMALL: [WorkedRow<'static>; 4] = rows::SMALL;

static FAR: [WorkedRow<'static>; 1] = rows::FAR;

static CLOCK_BACK: [WorkedRow<'static>; 8] = rows::CLOCK_BACK;

static FULL: [WorkedRow<'static>; 5] = rows::FULL;

/// Another request behind a repeat.
static PRETENDED: [WorkedRow<'static>; 1] = [(
    9,
    5,
    PRETEND,
    "200 {'done':'pretend_passed','version':4}",
)];

/// A device that is gone, removed again.
static REMOVED: [WorkedRow<'static>; 1] = [(
    1,
    8,
    REMOVE_D0,
    "422 {'refused':'NoDevice','rule':4}",
)];

/// A device of a pair gives its seats away.
static EMPTIED: [WorkedRow<'static>; 4] = [
    (0, 5, ADD_D2, "200 {'done':'add','id':2,'version':4}"),
    (0, 6, REMOVE_D0, "200 {'done':'remove','version':5}"),
    (
        1,
        7,
        REBALANCE,
        "200 {'balance':0,'changed':4,'dispersion':0,'done':'rebalance','version':6}",
    ),
    (1, 8, REMOVE_D0, "422 {'refused':'NoDevice','rule':4}"),
];

/// A device of a pair is drained while all is locked.
static DRAINED: [WorkedRow<'static>; 3] = [
    (0, 5, ADD_D2, "200 {'done':'add','id':2,'version':4}"),
    (
        0,
        6,
        "'do':'set_weight','id':1,'weight':'0.00'",
        "200 {'done':'set_weight','version':5}",
    ),
    (
        1,
        7,
        REBALANCE,
        "200 {'balance':99999,'changed':0,'dispersion':0,'done':'rebalance','version':6}",
    ),
];

/// A device is drained, and its hours pass.
static DRAINED_WHILE_LOCKED: [WorkedRow<'static>; 3] = [
    (
        1,
        5,
        "'do':'set_weight','id':0,'weight':'0.00'",
        "200 {'done':'set_weight','version':4}",
    ),
    (
        23,
        6,
        REBALANCE,
        "200 {'balance':99999,'changed':0,'dispersion':0,'done':'rebalance','version':5}",
    ),
    (
        24,
        7,
        REBALANCE,
        "200 {'balance':0,'changed':2,'dispersion':0,'done':'rebalance','version':6}",
    ),
];

/// A marked device, of two.
static MARKED: [WorkedRow<'static>; 5] = [
    (0, 5, REMOVE_D1, "200 {'done':'remove','version':4}"),
    (0, 6, REMOVE_D1, "422 {'refused':'DeviceRemoved','rule':6}"),
    (0, 7, ADD_D1, "422 {'refused':'DeviceExists','rule':5}"),
    (0, 8, REBALANCE, TOO_FEW),
    (0, 9, REMOVE_D1, "422 {'refused':'DeviceRemoved','rule':6}"),
];

/// Two more devices, of which each takes a seat.
static SPREAD: [WorkedRow<'static>; 4] = [
    (0, 5, ADD_D2, "200 {'done':'add','id':2,'version':4}"),
    (0, 6, ADD_D3, "200 {'done':'add','id':3,'version':5}"),
    (
        0,
        7,
        REBALANCE,
        "200 {'balance':0,'changed':2,'dispersion':0,'done':'rebalance','version':6}",
    ),
    (
        0,
        8,
        "'do':'rebalance','seed':8",
        "200 {'balance':0,'changed':0,'dispersion':0,'done':'rebalance','version':7}",
    ),
];

/// A device in another region, of half the weight.
static HALF_FAR: [WorkedRow<'static>; 2] = [
    (
        0,
        5,
        "'do':'add','region':2,'zone':1,'address':'10.0.0.3','port':6200,'name':'d2','weight':'50.00'",
        "200 {'done':'add','id':2,'version':4}",
    ),
    (
        0,
        6,
        REBALANCE,
        "200 {'balance':3750,'changed':1,'dispersion':5000,'done':'rebalance','version':5}",
    ),
];

/// The power is raised while a partition is locked.
static RAISED: [WorkedRow<'static>; 3] = [
    (
        23,
        7,
        "'do':'raise_power'",
        "200 {'done':'raise_power','version':6}",
    ),
    (
        23,
        8,
        REBALANCE,
        "200 {'balance':10000,'changed':0,'dispersion':0,'done':'rebalance','version':7}",
    ),
    (
        24,
        9,
        REBALANCE,
        "200 {'balance':2500,'changed':2,'dispersion':0,'done':'rebalance','version':8}",
    ),
];

/// The ring `tiny` with one device, assigned at version 2 and published.
static TINY: [WorkedRow<'static>; 6] = [
    (
        0,
        1,
        "'do':'create','power':1,'replicas':1,'min_hours':0",
        CREATED,
    ),
    (0, 2, ADD_D0, ADDED_D0),
    (0, 3, PUBLISH, "422 {'refused':'NotAssigned','rule':10}"),
    (
        0,
        4,
        REBALANCE,
        "200 {'balance':0,'changed':2,'dispersion':0,'done':'rebalance','version':2}",
    ),
    (0, 5, PUBLISH, "200 {'done':'publish','version':2}"),
    (0, 6, PUBLISH, "200 {'done':'publish','version':2}"),
];

/// What follows where one version may be published.
static THEN: [WorkedRow<'static>; 2] = [
    (
        0,
        7,
        REBALANCE,
        "200 {'balance':0,'changed':0,'dispersion':0,'done':'rebalance','version':3}",
    ),
    (0, 8, PUBLISH, "422 {'refused':'TooManyVersions','rule':11}"),
];

/// Some rows on a ring.
#[derive(Clone, Copy)]
pub enum Part {
    Nothing,
    First,
    Repeated,
    Locked,
    AtTheHour,
    SetAside,
    Removal,
    Pairs,
    Few,
    Unreachable,
    Reordered,
    Small,
    Far,
    ClockBack,
    Full,
    Pretended,
    Removed,
    Emptied,
    Drained,
    DrainedWhileLocked,
    Marked,
    Spread,
    HalfFar,
    Raised,
    Tiny,
    Then,
}

/// The rows of a part.
pub fn rows_of(part: Part) -> &'static [WorkedRow<'static>] {
    match part {
        Part::Nothing => &[],
        Part::First => &FIRST,
        Part::Repeated => &REPEATED,
        Part::Locked => &LOCKED,
        Part::AtTheHour => &AT_THE_HOUR,
        Part::SetAside => &SET_ASIDE,
        Part::Removal => &REMOVAL,
        Part::Pairs => &PAIRS,
        Part::Few => &FEW,
        Part::Unreachable => &UNREACHABLE,
        Part::Reordered => &REORDERED,
        Part::Small => &SMALL,
        Part::Far => &FAR,
        Part::ClockBack => &CLOCK_BACK,
        Part::Full => &FULL,
        Part::Pretended => &PRETENDED,
        Part::Removed => &REMOVED,
        Part::Emptied => &EMPTIED,
        Part::Drained => &DRAINED,
        Part::DrainedWhileLocked => &DRAINED_WHILE_LOCKED,
        Part::Marked => &MARKED,
        Part::Spread => &SPREAD,
        Part::HalfFar => &HALF_FAR,
        Part::Raised => &RAISED,
        Part::Tiny => &TINY,
        Part::Then => &THEN,
    }
}
