//! What `ringd --help` and the help of each program tell.
//!
//! The texts are statics: the prover would read a constant of some thousand letters wherever it is
//! named, and no contract speaks of them.

/// What `ringd --help` tells.
pub(crate) static ABOUT: &str = "Keeps the rings of an object store: which disks hold each object.

Every change is a numbered request. It may be sent again, as after a lost answer: it is not done twice, and gets the answer
that was given first.";

/// What `ringd run --help` tells.
static RUN: &str =
    "Answers numbered requests and questions, one a line, from standard input on standard output.

A request is the hour, a space, and a JSON object: who asks, the caller's number of this request, what to do, and the ring.

  0 {\"caller\":\"ops\",\"number\":1,\"do\":\"create\",\"ring\":\"object\",\"power\":4,\"replicas\":3,\"min_hours\":24}
  0 {\"caller\":\"ops\",\"number\":2,\"do\":\"add\",\"ring\":\"object\",\"region\":1,\"zone\":1,\"address\":\"10.0.0.1\",\"port\":6200,\"name\":\"d0\",\"weight\":\"100.00\"}
  1 {\"caller\":\"ops\",\"number\":3,\"do\":\"set_weight\",\"ring\":\"object\",\"id\":0,\"weight\":\"50.00\"}

create makes a ring of 2^power partitions, each kept 'replicas' times. add puts a device into it, and tells the
number under which the ring knows it. set_weight changes what share of the ring a device is to hold. These also say what
to do, each on its ring:

  {..,\"do\":\"rebalance\",\"seed\":1}       puts seats where they should be, at most one of each partition, and none of a
                                       partition that was moved less than its hours before; seats that are empty
                                       or on a marked device are put anew at once. The seed varies which of several
                                       equally good places they get
  {..,\"do\":\"rebalance_as\",\"seed\":1,\"version\":8,\"hour\":480002}
                                       the rebalance that a preview told, by its seed, version and hour, or none
  {..,\"do\":\"remove\",\"id\":0}            marks a device, which leaves the ring at the next rebalance
  {..,\"do\":\"keep\",\"id\":0}              takes the mark off again, before that rebalance
  {..,\"do\":\"set_hours\",\"min_hours\":1}  sets for how many hours a moved partition stays where it is
  {..,\"do\":\"pretend_passed\"}           lets each partition be moved as if it never had been
  {..,\"do\":\"raise_power\"}              splits each partition into two
  {..,\"do\":\"import\",\"rows\":[[1,1,\"10.0.0.1\",6200,\"d0\",\"100.00\"],[1,2,\"10.0.0.2\",6200,\"d1\",\"50.00\"]]}
                                       adds devices by region, zone, address, port, name and weight, and sets the
                                       weight of devices that the ring has: all rows or none
  {..,\"do\":\"publish\"}                  keeps the ring's text of now under its version

Each is answered by a status, a space and a JSON object, before the next line is waited for. A caller that got no answer
sends the line again: it is answered as before, and nothing is done twice. Another request takes another number. The hour
is a whole number of hours since 1970.

Nine questions change nothing, and need no number. Each is answered by what is asked for, or by a status and why there
is none:

  ? rings                              which rings there are, and their versions, as a JSON object in one line
  ? status                             the greatest hour that was used, how many numbers are kept and how many may be, and
                                       how many rings there are, as a JSON object in one line
  ? devices object                     where each device of the ring stands, what it weighs, and its state
  ? balance object                     how many seats each device wants and has, and how far that is from its share,
                                       in percent
  ? ring object                        all of that, how long partitions stay locked, and what is published, as a JSON
                                       object in one line
  ? locks object                       how many partitions are locked, and in how many hours how many of them are free, as
                                       a JSON object in one line
  ? preview object 1 480002            what a rebalance of the ring with seed 1 at this hour would do, as a JSON object in
                                       one line, which 'ringd preview --help' tells
  ? moves object 2 5                   what moved between two published versions of the ring, as a JSON object in one line
  ? log 0 100                          what was decided, from this place on, at most so many entries (up to 1000), as a
                                       JSON object in a line for each, which 'ringd log --help' tells; an empty line
                                       where there is none

After the three requests above, '? balance object' is answered by

   id     weight wanted    has balance
    0      50.00     48      0  100.00
balance 100.00 dispersion 0.00 version 2

With --file FILE, rings and the answers that were given are kept in FILE, which is made if it is missing, and in FILE-wal
beside it: each request is on the disk before it is answered. Without it they are kept in memory, and are gone when the
program ends.";

/// What `ringd serve --help` tells.
static SERVE: &str =
    "Serves HTTP/1.1 on 127.0.0.1, over the rings in FILE, which is made if it is missing.

It serves COUNT connections of the port PORT, one after another, and then ends. PORT is 1 to 65535, COUNT 0 to 65535.
Only this machine reaches it: TLS, and who may ask, are for a proxy in front of it.

  POST /v1/requests                               the body is a request, as in a line of 'run' but without the hour
  POST /v1/import/RING?caller=C&number=N          the body is a CSV table of devices, imported as this request
  GET  /v1/status                                 how much is kept, as JSON
  GET  /v1/metrics                                the figures of all of it, in the text format of Prometheus
  GET  /v1/log?from=PLACE&most=COUNT              what was decided, from this place on, a JSON object a line; both may be
                                                  left out
  GET  /v1/page                                   a page that shows all this in a browser
  GET  /v1/rings                                  which rings there are, as JSON
  GET  /v1/rings/RING                             the whole ring, as JSON
  GET  /v1/rings/RING/devices                     where each device stands, what it weighs, and its state
  GET  /v1/rings/RING/balance                     how many seats each device wants and has
  GET  /v1/rings/RING/locks                       in how many hours how many locked partitions are free, as JSON
  GET  /v1/rings/RING/nodes?account=A&container=C&object=O
                                                  the devices that hold a path; container and object may be left out
  GET  /v1/rings/RING/text/VERSION                the ring as it was published under this version
  GET  /v1/rings/RING/swift/VERSION               the same as the file that Swift loads, before gzip
  GET  /v1/rings/RING/moves?from=V&to=W           what moved between two published versions, as JSON
  GET  /v1/rings/RING/preview?seed=S&hour=H       what a rebalance with this seed would do at this hour, as JSON; where it is
                                                  left out, or has passed, what it would do now

For instance:

  ringd serve rings.db 8642 65535 &
  curl -d '{\"caller\":\"ops\",\"number\":1,\"do\":\"create\",\"ring\":\"object\",\"power\":4,\"replicas\":3,\"min_hours\":24}' http://127.0.0.1:8642/v1/requests
  curl http://127.0.0.1:8642/v1/rings/object/devices

Each request is on the disk before it is answered. A client that got no answer sends the same request again: it is answered
as before, and nothing is done twice. A client that breaks off ends its own connection alone.

Each request is decided at the hour of the machine's clock, or always at the one that --hour gives. --prefix and --suffix
are what the cluster hashes before and after each path; they are empty where they are not given.";

/// What `ringd service --help` tells.
static SERVICE: &str =
    "Serves HTTP/1.1 on 127.0.0.1, over the rings in FILE, as 'serve' does, but until it is stopped, and to programs alone.

  ringd service rings.db 8642 --host rings.example.com

A browser of this machine may look at its own page, http://127.0.0.1:8642/v1/page, which only reads. It does not answer what
another page in a browser sends. A request is refused with 403 NotAllowed, before its body is read, where
  - its Host is none of 127.0.0.1, localhost, and the names that --host gives, with a port or without. Give the name under
    which a proxy reaches it; --host may be there several times
  - it is a POST and has an Origin or a Sec-Fetch-Site, as browsers send them
  - it is a GET and has a Sec-Fetch-Site other than none and same-origin

On standard error it tells when it begins, with how many numbers FILE keeps, and why it ends. It ends by itself with status
1 once the store has failed in a request (StoreFault 24: start it again), and with status 3 where another start would change
nothing: FILE is no store (BadStore 26), the port can't be had (NetFailed 28), or the clock is ahead (ClockAhead 33).

The hour of each request is kept for good, and no later one is decided at an earlier hour. So it does not begin by a clock
that is more than 24 hours ahead of the last request's hour in FILE: look at the clock, and where it is right, give --hour-ok.
--prefix and --suffix are as those of 'serve'.";

/// What `ringd loop --help` tells.
static LOOP: &str =
    "Answers the bytes of the file INPUT as 'serve' would those of one connection, on standard output.

INPUT holds requests of HTTP/1.1, one behind the other, as a client would send them: 32768 bytes at most, and as many of
answers. The program connects to itself on 127.0.0.1, by a port that is free, serves this connection over the rings in FILE,
and prints the answers. So it shows what a service over this FILE would answer.

  printf 'GET /v1/rings/object/devices HTTP/1.1\\r\\nHost: a\\r\\n\\r\\n' > input
  ringd loop rings.db input

The options are those of 'serve'.";

/// What `ringd show --help` tells.
static SHOW: &str =
    "Shows which rings there are in FILE, or the ring RING in it, or with --status how much is kept in it, as a JSON object in
one line, on standard output; or with --metrics the figures of all of it, in the text format of Prometheus.

WORD asks for something else of RING than the whole of it: devices, where each device stands and its state; balance, how many
seats each wants and has, both as tables; locks, for how long how many partitions are locked, as JSON. The word of the whole
ring is ring.

Of the rings it has, by name, the name and the version of each. The status has the greatest hour that was used in FILE, how
many numbers are kept, how many may be (limit), and how many rings there are. The metrics are these and the figures of each
ring, its locked partitions at the hour of the clock. No two of RING, --status and --metrics are given together.

A ring has its power, replicas, min_hours, version and next_id; how many seats are taken; balance and dispersion, in
hundredths of a percent; the hour, which is the clock's or the greatest that was used in FILE, if that is greater; how many
partitions are locked at that hour, and for how many hours from then some partition is (rests); under which versions the
ring is published; and its devices: where each stands, what it weighs, its state, and how many seats it wants and has.

The locks of a ring are how many of its partitions are locked at that hour; and by rising hours, in how many hours some of them are
free, and how many then (rests).";

/// What `ringd preview --help` tells.
static PREVIEW: &str =
    "Shows what a rebalance of the ring RING in FILE would do, as a JSON object in one line, on standard output. FILE stays as
it was.

  ringd preview rings.db object --seed 1 --hour 480002

A request that says rebalance with this seed, decided at this hour while the ring is as it is, does just that. So it has the
balance, the dispersion, the version and the changed seats that the reply will have; in how many partitions seats change; how
many partitions are locked at the hour, so that none of their seats leaves a device that remains; and for each device how many
seats it has, how many of them it gives, how many others it takes, how many it has then, and how many it wants. Where such a
request is refused, for there is no such ring (NoRing 1) or too few of its devices are open (TooFewDevices 9), this is told in
place of it.

The hour is a whole number of hours since 1970, as that of a request: the one that --hour gives, which stands for the machine's
clock and may have passed, or else the clock's; and where a greater one was used in FILE, it is that. A later hour may find fewer
partitions locked, and other seats move.";

/// What `ringd moves --help` tells.
static MOVES: &str =
    "Shows what moved between the versions FROM and TO under which the ring RING was published in FILE, as a JSON object in one
line, on standard output: how many seats are on another device (changed), in how many partitions, and for each device that
gives or takes seats, how many.

With --each it is a line for each such seat: its partition, its replica, and the numbers of the device that it was on and of
the one that it is on, or - where one of the two has no such seat. Where the power was raised between, partitions and seats
are those of the greater: both halves of a partition count that was on another device.";

/// What `ringd log --help` tells.
static LOG: &str =
    "Writes the requests that were decided in FILE, refused ones too, in the order of first decision, on standard output: a JSON
object in a line for each, with its place, the hour that was used, the request, the reply and its status.

  ringd log rings.db --lines | ringd run --file again.db

--from begins at that place; the first request has place 0. --lines writes lines that ask for the same requests again, which
'ringd run' reads: over a new file they make the same rings and get the same replies, if FILE began without rings.";

/// What `ringd export --help` tells.
static EXPORT: &str = "Writes the ring RING as it was published under VERSION, on standard output.

A request that says publish keeps the ring's text of then under the version that it had, for good. --format text, which
is also what is taken without --format, writes this text. --format swift writes the same ring as a ring file of OpenStack
Swift.";

/// What `ringd renew --help` tells.
static RENEW: &str =
    "Makes NEW, a file with the rings of FILE, their published texts and its hour, and without a number.

A file holds 100000 numbers. When it is full, a new request is answered 507, and this is how to go on. NEW must not be
there. FILE stays as it was: keep it, for it has the replies that were given.

Numbers begin anew in NEW: a request that was answered in FILE would be carried out once more. So let the callers come to
rest, stop the service, renew the file, give the callers other names, from ops-1 to ops-2, say, and start over NEW.";

/// What `ringd found --help` tells.
static FOUND: &str =
    "Makes NEW, a file with rings that hold data already, as they stand: nothing moves by it.

  ringd found rings.db object.text container.text --min-hours 24

Each TEXT is a file with the text of a ring, as 'export' writes it and tools/from_swift.py makes of a builder file of
OpenStack Swift. The ring comes in under the name in its text, with its version, its devices and their numbers, and each
seat where it is. Its next device gets the number behind the greatest, and nothing of it is published yet.

Each partition counts as moved at the hour of the machine's clock, or at the one that --hour gives, so a rebalance moves
none of them before --min-hours hours have passed, but for the seats of marked devices, which go at once. --from FILE
also takes the rings, the published texts and the hour of FILE, which stays as it was.

NEW must not be there. Nothing is made where a TEXT is not the text of a ring (BadText 31, with its first wrong line on standard
error), is longer than 1048576 bytes (TooLong 29) or is not there (NoFile 27), where two rings have one name (RingExists 2),
and where there are more than 16 (TooManyRings 3).";

/// What the help of this program tells beside its arguments, where that is more than a line.
pub(crate) fn told_of(program: &str) -> Option<&'static str> {
    match program {
        "run" => Some(RUN),
        "serve" => Some(SERVE),
        "service" => Some(SERVICE),
        "loop" => Some(LOOP),
        "show" => Some(SHOW),
        "preview" => Some(PREVIEW),
        "moves" => Some(MOVES),
        "log" => Some(LOG),
        "export" => Some(EXPORT),
        "renew" => Some(RENEW),
        "found" => Some(FOUND),
        _ => None,
    }
}

/// What the help of a program tells of each argument, by its name.
static ARGUMENTS: [(&str, &str); 30] = [
    (
        "FILE",
        "The file of the store, which is made if it is missing",
    ),
    (
        "file",
        "The file of the store, which is made if it is missing",
    ),
    ("RING", "The name of the ring"),
    (
        "WORD",
        "What is shown of the ring: devices, balance, ring or locks",
    ),
    ("PORT", "The port, from 1 to 65535"),
    ("COUNT", "How many connections are served, from 0 to 65535"),
    (
        "INPUT",
        "The file with the requests, of 32768 bytes at most",
    ),
    ("CALLER", "The name of who asks"),
    ("NUMBER", "The caller's number of this request"),
    ("CSV", "The file with the table, of 65536 bytes at most"),
    ("ACCOUNT", "The account of the path"),
    ("container", "The container of the path, in its account"),
    ("object", "The object of the path, in its container"),
    ("VERSION", "A version under which the ring was published"),
    (
        "FROM",
        "The published version that is compared with the later one",
    ),
    ("TO", "The later published version"),
    ("NEW", "The file that is made, which must not be there"),
    (
        "TEXT",
        "A file with the text of a ring, of 1048576 bytes at most",
    ),
    ("seed", "The seed of the rebalance, from 0 to 4294967295"),
    (
        "hour",
        "The hour to go by, in hours since 1970, in place of the clock's",
    ),
    ("hour-ok", "Start though the clock is far ahead of the file"),
    (
        "host",
        "A further name that clients may give as their host, such as a proxy's",
    ),
    ("prefix", "What the cluster hashes before each path"),
    ("suffix", "What the cluster hashes behind each path"),
    ("format", "How it is written: text, if left out, or swift"),
    (
        "min-hours",
        "For how many hours a moved partition stays, from 0 to 65535",
    ),
    (
        "lines",
        "Write lines that ringd run reads, in place of JSON",
    ),
    ("each", "Write a line for each seat that differs"),
    (
        "status",
        "Show how much the file keeps, in place of its rings",
    ),
    (
        "metrics",
        "Show the figures of all rings, in the text format of Prometheus",
    ),
];

/// The same of those that mean something else in each program, by the names of both.
static OWN_ARGUMENTS: [(&str, &str, &str); 2] = [
    (
        "log",
        "from",
        "The place at which it begins; the first request has place 0",
    ),
    (
        "found",
        "from",
        "The file of a store whose rings are taken over too",
    ),
];

/// What the help of a program tells of an argument that means something else in others.
fn told_of_own<'a>(program: &'a str, wanted: &'a str) -> Option<&'static str> {
    for (of, name, told) in &OWN_ARGUMENTS {
        if *of == program && *name == wanted {
            return Some(*told);
        }
    }
    None
}

/// What the help tells of an argument of this name, whatever its program.
fn told_of_any(wanted: &str) -> &'static str {
    for (name, told) in &ARGUMENTS {
        if *name == wanted {
            return *told;
        }
    }
    ""
}

/// What the help of a program tells of an argument of this name.
pub(crate) fn told_of_argument(program: &str, wanted: &str) -> &'static str {
    told_of_own(program, wanted).unwrap_or_else(|| told_of_any(wanted))
}
