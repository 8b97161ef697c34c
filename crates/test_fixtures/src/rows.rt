//! Worked examples, for tests: deliveries on one ring with their answers. The texts are written
//! with `'` for `"`.

/// The hour of a delivery, its number, what it asks of its ring, and its answer.
pub type WorkedRow<'a> = (u32, u32, &'a str, &'a str);

pub const CREATE: &str = "'do':'create','power':2,'replicas':1,'min_hours':24";

pub const CREATE_PAIRS: &str = "'do':'create','power':2,'replicas':2,'min_hours':24";

pub const CREATE_SMALL: &str = "'do':'create','power':1,'replicas':2,'min_hours':0";

pub const ADD_D0: &str =
    "'do':'add','region':1,'zone':1,'address':'10.0.0.1','port':6200,'name':'d0','weight':'100.00'";

pub const ADD_D1: &str =
    "'do':'add','region':1,'zone':1,'address':'10.0.0.2','port':6200,'name':'d1','weight':'100.00'";

pub const ADD_D2: &str =
    "'do':'add','region':1,'zone':1,'address':'10.0.0.3','port':6200,'name':'d2','weight':'100.00'";

pub const ADD_D3: &str =
    "'do':'add','region':1,'zone':1,'address':'10.0.0.4','port':6200,'name':'d3','weight':'100.00'";

pub const ADD_HEAVY: &str =
    "'do':'add','region':1,'zone':1,'address':'10.0.0.1','port':6200,'name':'d0','weight':'300.00'";

pub const ADD_FAR: &str =
    "'do':'add','region':2,'zone':1,'address':'10.0.0.3','port':6200,'name':'d2','weight':'200.00'";

pub const REBALANCE: &str = "'do':'rebalance','seed':7";

pub const PRETEND: &str = "'do':'pretend_passed'";

pub const CREATED: &str = "200 {'done':'create','version':0}";

pub const ADDED_D0: &str = "200 {'done':'add','id':0,'version':1}";

pub const ADDED_D1: &str = "200 {'done':'add','id':1,'version':2}";

pub const ASSIGNED: &str =
    "200 {'balance':0,'changed':4,'dispersion':0,'done':'rebalance','version':3}";

pub const TOO_FEW: &str = "422 {'refused':'TooFewDevices','rule':9}";

/// Four partitions of one replica are assigned to devices 0 and 1, and stay for 24 hours.
pub const FIRST: [WorkedRow; 4] = [
    (0, 1, CREATE, CREATED),
    (0, 2, ADD_D0, ADDED_D0),
    (0, 3, ADD_D1, ADDED_D1),
    (0, 4, REBALANCE, ASSIGNED),
];

/// Four partitions of two replicas are assigned to devices 0 and 1.
pub const PAIRS: [WorkedRow; 4] = [
    (0, 1, CREATE_PAIRS, CREATED),
    (0, 2, ADD_D0, ADDED_D0),
    (0, 3, ADD_D1, ADDED_D1),
    (
        0,
        4,
        REBALANCE,
        "200 {'balance':0,'changed':8,'dispersion':0,'done':'rebalance','version':3}",
    ),
];

/// Two partitions of two replicas are assigned to devices 0 and 1, and may move at once.
pub const SMALL: [WorkedRow; 4] = [
    (0, 1, CREATE_SMALL, CREATED),
    (0, 2, ADD_D0, ADDED_D0),
    (0, 3, ADD_D1, ADDED_D1),
    (0, 4, REBALANCE, ASSIGNED),
];

/// A number that comes again, and one that comes with another command.
pub const REPEATED: [WorkedRow; 3] = [
    (9, 4, REBALANCE, ASSIGNED),
    (
        9,
        4,
        "'do':'rebalance','seed':8",
        "409 {'fault':'NumberReused','rule':21}",
    ),
    (9, 4, REBALANCE, ASSIGNED),
];

/// Device 2 comes, and is to wait for the 24th hour.
pub const LOCKED: [WorkedRow; 2] = [
    (1, 5, ADD_D2, "200 {'done':'add','id':2,'version':4}"),
    (
        23,
        6,
        REBALANCE,
        "200 {'balance':10000,'changed':0,'dispersion':0,'done':'rebalance','version':5}",
    ),
];

/// The hour comes.
pub const AT_THE_HOUR: [WorkedRow; 1] = [(
    24,
    7,
    REBALANCE,
    "200 {'balance':5000,'changed':1,'dispersion':0,'done':'rebalance','version':6}",
)];

/// The hour comes with a command that moves nothing.
pub const RISEN: [WorkedRow; 1] = [(
    24,
    7,
    "'do':'set_hours','min_hours':24",
    "200 {'done':'set_hours','version':6}",
)];

/// What a number that was used before is answered in a renewed store, though its own hour is early.
pub const RENEWED: [WorkedRow; 2] = [
    (
        5,
        4,
        REBALANCE,
        "200 {'balance':5000,'changed':1,'dispersion':0,'done':'rebalance','version':7}",
    ),
    (
        5,
        4,
        REBALANCE,
        "200 {'balance':5000,'changed':1,'dispersion':0,'done':'rebalance','version':7}",
    ),
];

/// The hours are set aside.
pub const SET_ASIDE: [WorkedRow; 2] = [
    (23, 7, PRETEND, "200 {'done':'pretend_passed','version':6}"),
    (
        23,
        8,
        REBALANCE,
        "200 {'balance':5000,'changed':1,'dispersion':0,'done':'rebalance','version':7}",
    ),
];

/// A removed device gives its seats away at once.
pub const REMOVAL: [WorkedRow; 3] = [
    (1, 5, ADD_D2, "200 {'done':'add','id':2,'version':4}"),
    (
        1,
        6,
        "'do':'remove','id':0",
        "200 {'done':'remove','version':5}",
    ),
    (
        1,
        7,
        REBALANCE,
        "200 {'balance':0,'changed':2,'dispersion':0,'done':'rebalance','version':6}",
    ),
];

/// A want that no seats can meet.
pub const UNREACHABLE: [WorkedRow; 5] = [
    (0, 1, CREATE_PAIRS, CREATED),
    (0, 2, ADD_HEAVY, ADDED_D0),
    (0, 3, ADD_D1, ADDED_D1),
    (
        0,
        4,
        REBALANCE,
        "200 {'balance':10000,'changed':8,'dispersion':0,'done':'rebalance','version':3}",
    ),
    (
        24,
        5,
        REBALANCE,
        "200 {'balance':10000,'changed':0,'dispersion':0,'done':'rebalance','version':4}",
    ),
];

/// A device in another region, which takes a seat of each of two partitions.
pub const FAR: [WorkedRow; 1] = [(0, 5, ADD_FAR, "200 {'done':'add','id':2,'version':4}")];

/// A refusal is kept, though the command could be done later.
pub const FEW: [WorkedRow; 7] = [
    (
        0,
        1,
        "'do':'create','power':1,'replicas':3,'min_hours':0",
        CREATED,
    ),
    (0, 2, ADD_D0, ADDED_D0),
    (0, 3, ADD_D1, ADDED_D1),
    (0, 4, REBALANCE, TOO_FEW),
    (0, 5, ADD_D2, "200 {'done':'add','id':2,'version':3}"),
    (0, 4, REBALANCE, TOO_FEW),
    (
        0,
        6,
        REBALANCE,
        "200 {'balance':0,'changed':6,'dispersion':0,'done':'rebalance','version':4}",
    ),
];

/// Requests that come in another order.
pub const REORDERED: [WorkedRow; 4] = [
    (0, 2, ADD_D0, "422 {'refused':'NoRing','rule':1}"),
    (0, 1, CREATE, CREATED),
    (0, 2, ADD_D0, "422 {'refused':'NoRing','rule':1}"),
    (0, 3, ADD_D0, ADDED_D0),
];

/// A clock that goes back.
pub const CLOCK_BACK: [WorkedRow; 8] = [
    (0, 1, CREATE, CREATED),
    (0, 2, ADD_D0, ADDED_D0),
    (0, 3, ADD_D1, ADDED_D1),
    (30, 4, PRETEND, "200 {'done':'pretend_passed','version':3}"),
    (
        5,
        5,
        REBALANCE,
        "200 {'balance':0,'changed':4,'dispersion':0,'done':'rebalance','version':4}",
    ),
    (31, 6, ADD_D2, "200 {'done':'add','id':2,'version':5}"),
    (
        53,
        7,
        REBALANCE,
        "200 {'balance':10000,'changed':0,'dispersion':0,'done':'rebalance','version':6}",
    ),
    (
        54,
        8,
        REBALANCE,
        "200 {'balance':5000,'changed':1,'dispersion':0,'done':'rebalance','version':7}",
    ),
];

/// A book with room for two numbers.
pub const FULL: [WorkedRow; 5] = [
    (0, 1, CREATE, CREATED),
    (0, 2, ADD_D0, ADDED_D0),
    (0, 3, ADD_D1, "507 {'fault':'BookFull','rule':22}"),
    (0, 1, CREATE, CREATED),
    (0, 2, ADD_D0, ADDED_D0),
];

/// Each run begins with nothing.
pub const RUNS: [&[&[WorkedRow]]; 9] = [
    &[&FIRST, &REPEATED],
    &[&FIRST, &LOCKED, &AT_THE_HOUR],
    &[&FIRST, &LOCKED, &SET_ASIDE],
    &[&FIRST, &REMOVAL],
    &[&UNREACHABLE],
    &[&SMALL, &FAR],
    &[&FEW],
    &[&REORDERED],
    &[&CLOCK_BACK],
];
